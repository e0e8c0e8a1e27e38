// What is printed for a line, and its text.
#![tactic(auto)]

ghost use Rattle.std.specs.Prelude.{◌≡◌};
ghost use Rattle.replies.specs.declared.Rejection.TheVariants as rejection;

use model::Refusal;
use requests::Fault;

mod help;
pub mod text;

// What is printed for a request that is done: that it is; rows of six numbers; the topmost section over its allowance,
// if there is one; the bytes of a file; or what the requests are.
#[derive(Clone, Copy, Debug, PartialEq, Eq)]
pub enum Reply<'a> {
    Done,
    Rows(&'a [u64]),
    Over(Option<usize>),
    File(&'a [u8]),
    Help,
}

// Why a line gets no reply: it is no request, or the call is turned down.
#[derive(Clone, Copy, Debug, PartialEq, Eq)]
pub enum Rejection {
    Wrong(Fault),
    Refused(Refusal),
}

impl From<Fault> for Rejection {
    ghost from_gives = { λ f e. e ≡ rejection.Wrong f };

    fn from(f: Fault) -> Rejection {
        Rejection::Wrong(f)
    }
}

impl From<Refusal> for Rejection {
    ghost from_gives = { λ r e. e ≡ rejection.Refused r };

    fn from(r: Refusal) -> Rejection {
        Rejection::Refused(r)
    }
}

// What is printed for a line.
pub type Message<'a> = Result<Reply<'a>, Rejection>;
