// The ice on the members.
ghost use Rattle.std.specs.Prelude.{◌≡◌, ◌≤◌, ◌<◌, MatchOption};
ghost use Rattle.model.specs.Areas.{thickness};

use units::Length;

// Ice of at most 50 mm, the thickness of the highest class.
#[derive(Clone, Copy, Debug, PartialEq, Eq, Hash)]
pub struct Ice {
    pub thickness: Length,
    ghost thin: { thickness.0 ≤ 50 },
}

impl Ice {
    // None where it is thicker.
    pub fn new(thickness: Length) -> Option<Ice>
        ensures { MatchOption result (50 < thickness.0) (λ ice. ice.thickness ≡ thickness) }
    {
        if thickness.0 <= 50 {
            Some(Ice { thickness })
        } else {
            None
        }
    }

    pub fn of_class(class: u32) -> Ice
        requires { class ≤ 5 }
        ensures { result.thickness ≡ thickness class }
    {
        Ice {
            thickness: Length(10 * class),
        }
    }
}
