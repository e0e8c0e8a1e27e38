// Elements of an array, as many as a count says, or all where it says more. A value may be copied.
#![tactic(auto)]

mod elements;

ghost use Rattle.std.specs.Prelude.{⊤, ◌≡◌, length};

use std::alloc::AllocError;

pub struct Counted<T, const N: usize> {
    pub count: usize,
    pub places: [T; N],
    ghost whole: { length places ≡ N },
}

impl<T: Copy, const N: usize> Clone for Counted<T, N> {
    ghost is_clone = { λ v w. w ≡ v };

    ghost is_infallible = { λ _. ⊤ };

    fn clone(&self) -> Result<Self, AllocError> {
        Ok(*self)
    }
}

impl<T: Copy, const N: usize> Copy for Counted<T, N> {}
