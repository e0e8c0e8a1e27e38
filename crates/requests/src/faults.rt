// What is wrong with a line that is no request.
ghost use Rattle.std.specs.Prelude.{◌≡◌};
ghost use Rattle.requests.specs.Faults.{numbers_fault, hex_fault};
ghost use Rattle.requests.specs.declared.faults.Fault.TheVariants.{TooLarge};

use lines::hex::HexError;
use lines::numbers::NumbersError;
use std::num::TryFromIntError;

#[derive(Clone, Copy, Debug, PartialEq, Eq)]
pub enum Fault {
    NoRequest,
    FewWords,
    ManyWords,
    NotDecimal,
    TooLarge,
    NotHex,
    LongLine,
}

impl From<NumbersError> for Fault {
    ghost from_gives = { λ e f. f ≡ numbers_fault e };

    fn from(e: NumbersError) -> Fault {
        match e {
            NumbersError::Bad => Fault::NotDecimal,
            NumbersError::Large => Fault::TooLarge,
            NumbersError::Many => Fault::ManyWords,
        }
    }
}

impl From<HexError> for Fault {
    ghost from_gives = { λ e f. f ≡ hex_fault e };

    fn from(e: HexError) -> Fault {
        match e {
            HexError::Bad => Fault::NotHex,
            HexError::Many => Fault::LongLine,
        }
    }
}

// A number that does not fit its type.
impl From<TryFromIntError> for Fault {
    ghost from_gives = { λ _ f. f ≡ TooLarge };

    fn from(_: TryFromIntError) -> Fault {
        Fault::TooLarge
    }
}
