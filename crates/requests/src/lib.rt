// A line of text as a request: which it is, and its arguments.
#![tactic(auto)]

mod faults;
pub mod line;
mod words;

pub use faults::Fault;

// The requests whose arguments are numbers.
#[derive(Clone, Copy, Debug, PartialEq, Eq)]
pub enum Verb {
    Hang,
    TakeDown,
    Wind,
    Report,
    Check,
    Write,
    Help,
}

// The first word of a request.
#[derive(Clone, Copy, Debug, PartialEq, Eq)]
pub(crate) enum Word {
    Numbered(Verb),
    Erect,
}

// A request with its numbers, or an erect with the bytes of its file: the slices themselves or how many they are.
#[derive(Clone, Copy, Debug, PartialEq, Eq)]
pub enum Request<N, F> {
    Numbered(Verb, N),
    Erect(F),
}

pub type LentRequest<'n, 'f> = Request<&'n [u64], &'f [u8]>;
