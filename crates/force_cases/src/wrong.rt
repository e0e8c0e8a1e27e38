// What is wrong with a line first.
use case_words::Fault;
use lines::numbers::NumbersError;
use std::fmt;

#[derive(Clone, Copy, Debug, PartialEq, Eq)]
pub(crate) enum Wrong {
    Numbers(NumbersError),
    Case(Fault),
    ManyItems,
    LeftOver,
    Item,
}

impl From<NumbersError> for Wrong {
    fn from(error: NumbersError) -> Wrong {
        Wrong::Numbers(error)
    }
}

impl From<Fault> for Wrong {
    fn from(fault: Fault) -> Wrong {
        Wrong::Case(fault)
    }
}

impl fmt::Display for Wrong {
    fn fmt<W: fmt::Write>(&self, f: &mut fmt::Formatter<W>) -> fmt::Result {
        match self {
            Wrong::Numbers(error) => write!(f, "{error}"),
            Wrong::Case(fault) => write!(f, "{fault}"),
            Wrong::ManyItems => f.write_str("there are more than 64 items"),
            Wrong::LeftOver => f.write_str("numbers are left over"),
            Wrong::Item => f.write_str("an item is out of range"),
        }
    }
}
