// The elements that count, as a slice, and one more.
ghost use Rattle.std.specs.Prelude.{◌≡◌, ◌+◌, ◌<◌, ◌≤◌, ◌++◌, [], ◌∷◌, length, take, slice_set};
ghost use Rattle.std.specs.Cmp.{on_equiv, on_per};
ghost use Rattle.std.specs.Cmp.Lexicographic.{pointwise, lists_per, lists_equiv};
ghost use Rattle.counted.specs.Elements.{elements, element_count};

use crate::Counted;
use std::fmt;
use std::ops::DerefSlice;

impl<T: Copy + Default, const N: usize> Counted<T, N> {
    // None.
    pub fn new() -> Self
        ensures items { elements result ≡ [] }
        ensures few { result.count ≤ N }
    {
        Counted {
            count: 0,
            places: [T::default(); N],
        }
    }
}

impl<T, const N: usize> Counted<T, N> {
    // How many there are.
    pub fn len(&self) -> usize
        ensures value { result ≡ element_count self.now }
        ensures fits { result ≤ N }
    {
        self.count.min(N)
    }

    pub fn as_slice(&self) -> &[T]
        ensures value { result.now ≡ elements self.now }
        ensures fits { length result.now ≤ N }
    {
        &self.places[..self.len()]
    }
}

impl<T: Drop, const N: usize> Counted<T, N> {
    // One more, for which there is room.
    pub fn push(&mut self, element: T)
        requires { element_count self.old < N }
        ensures items { elements self.new ≡ elements self.old ++ element ∷ [] }
        ensures len { element_count self.new ≡ element_count self.old + 1 }
        ensures few { self.new.count ≤ N }
    {
        let end = self.count;
        self.places[end] = element;
        self.count = end + 1;
    }

    // Another in the place of one.
    pub fn set(&mut self, index: usize, element: T)
        requires { index < element_count self.old }
        ensures items { elements self.new ≡ slice_set (elements self.old) index element }
        ensures count { self.new.count ≡ self.old.count }
    {
        self.places[index] = element;
    }
}

impl<T, const N: usize> Counted<T, N> {
    // The first of them, where there are more.
    pub fn truncate(&mut self, most: usize)
        ensures items { elements self.new ≡ take most (elements self.old) }
        ensures few { self.new.count ≤ self.old.count }
    {
        self.count = self.count.min(most);
    }
}

impl<T, const N: usize> DerefSlice for Counted<T, N> {
    type Elem = T;

    ghost deref_gives = { λ v xs. (xs ≡ elements v) × (length xs ≤ N) };

    fn deref(&self) -> &[T] {
        self.as_slice()
    }
}

impl<T: Copy + Default, const N: usize> Default for Counted<T, N> {
    ghost is_default = { λ v. elements v ≡ [] };

    fn default() -> Self {
        Self::new()
    }
}

// Elements that do not count have no part in it.
impl<T: PartialEq, const N: usize> PartialEq for Counted<T, N> {
    ghost eq = { λ v w. pointwise T.eq (elements v) (elements w) };

    ghost laws = { on_per elements (lists_per T.laws) };

    fn eq(&self, other: &Self) -> bool {
        self.as_slice() == other.as_slice()
    }
}

impl<T: Eq, const N: usize> Eq for Counted<T, N> {
    ghost laws = { on_equiv elements (lists_equiv T.Eq.laws) };
}

impl<T: fmt::Debug, const N: usize> fmt::Debug for Counted<T, N> {
    fn fmt<W: fmt::Write>(&self, f: &mut fmt::Formatter<W>) -> fmt::Result {
        f.debug_list().entries(self.as_slice()).finish()
    }
}
