// What a line is answered.
ghost use Rattle.std.specs.Prelude.{Some};
ghost use Rattle.daycalls.specs.Texts.{reply_text};

use book::Money;
use market::refusals::{Refusal, ScreenRefusal};
use std::fmt;

#[derive(Clone, Copy, PartialEq, Eq, Debug)]
pub enum Reply {
    Accepted,
    Declined(Refusal),
    Number(u32),
    Money(Money),
    Absent,
    // A call or a read of a running day, after close.
    DayClosed,
    // An account before close.
    DayRuns,
    // The line is no command, or one that the present screen does not have.
    Unknown,
}

impl From<()> for Reply {
    fn from(_: ()) -> Reply {
        Reply::Accepted
    }
}

impl From<Money> for Reply {
    fn from(money: Money) -> Reply {
        Reply::Money(money)
    }
}

// What a call or an account answers, or its refusal.
impl<T: Into<Reply>, E: Into<Refusal>> From<Result<T, E>> for Reply {
    fn from(answer: Result<T, E>) -> Reply {
        match answer {
            Ok(told) => told.into(),
            Err(refusal) => Reply::Declined(refusal.into()),
        }
    }
}

// What a read answers.
impl From<Option<u32>> for Reply {
    fn from(answer: Option<u32>) -> Reply {
        answer.map_or(Reply::Absent, Reply::Number)
    }
}

// A setter that the screen does not have is unknown.
impl From<Option<Result<(), ScreenRefusal>>> for Reply {
    fn from(answer: Option<Result<(), ScreenRefusal>>) -> Reply {
        answer.map_or(Reply::Unknown, Reply::from)
    }
}

impl fmt::Display for Reply {
    ghost output = { λ reply. Some (reply_text reply) };

    fn fmt<W: fmt::Write>(&self, f: &mut fmt::Formatter<W>) -> fmt::Result {
        match *self {
            Reply::Accepted => f.write_str("ok"),
            Reply::Declined(
                Refusal {
                    number,
                    layer,
                    name,
                },
            ) => write!(f, "E {number} {layer} {name}"),
            Reply::Number(number) => write!(f, "{number}"),
            Reply::Money(money) => write!(f, "{money}"),
            Reply::Absent => f.write_str("absent"),
            Reply::DayClosed => f.write_str("closed"),
            Reply::DayRuns => f.write_str("running"),
            Reply::Unknown => f.write_str("?"),
        }
    }
}
