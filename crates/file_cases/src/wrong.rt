// What is wrong with a line, or why its file is turned down.
use arrayvec::CapacityError;
use lines::numbers::NumbersError;
use model::Refusal;
use std::fmt;

#[derive(Clone, Copy, Debug, PartialEq, Eq)]
pub(crate) enum Wrong {
    Case,
    Numbers(NumbersError),
    Count,
    Byte,
    Range,
    Refused(Refusal),
}

impl From<NumbersError> for Wrong {
    fn from(error: NumbersError) -> Wrong {
        Wrong::Numbers(error)
    }
}

// There is no room for a file's bytes.
impl<T: Drop> From<CapacityError<T>> for Wrong {
    fn from(_error: CapacityError<T>) -> Wrong {
        Wrong::Range
    }
}

impl From<Refusal> for Wrong {
    fn from(refusal: Refusal) -> Wrong {
        Wrong::Refused(refusal)
    }
}

impl fmt::Display for Wrong {
    fn fmt<W: fmt::Write>(&self, f: &mut fmt::Formatter<W>) -> fmt::Result {
        match self {
            Wrong::Case => f.write_str("error: not a case"),
            Wrong::Numbers(error) => write!(f, "error: {error}"),
            Wrong::Count => f.write_str("error: numbers are missing or left over"),
            Wrong::Byte => f.write_str("error: a byte is above 255"),
            Wrong::Range => f.write_str("error: out of range"),
            Wrong::Refused(refusal) => write!(f, "refused {}", u32::from(*refusal)),
        }
    }
}
