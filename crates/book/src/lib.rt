#![tactic(auto)]

// What a day shows after a list of calls: definitions and laws.
ghost use Rattle.std.specs.Prelude.{◌≡◌, ◌+◌, ◌*◌, ◌/◌, ◌%◌, ◌<◌, Some};
ghost use Rattle.book.specs.Promise.{Promise};

use std::fmt;

// An amount of money: whole fen, and the fortieths of a fen left over.
#[derive(Clone, Copy, Debug, PartialEq, Eq, PartialOrd, Ord)]
pub struct Money {
    pub fen: u64,
    pub fortieths: u64,
    ghost left_over: { fortieths < 40 },
}

impl fmt::Display for Money {
    ghost use Rattle.book.specs.Printed.{printed};

    ghost output = { λ m. Some (printed m) };

    fn fmt<W: fmt::Write>(&self, f: &mut fmt::Formatter<W>) -> fmt::Result {
        write!(f, "{} {}", self.fen, self.fortieths)
    }
}

// Whole fen and the fortieths left over of an amount of money in fortieths of a fen.
// A function and no `From`: a plain u64 may count fen or fortieths, and the name says which.
// Of that money the promise tells: after every list of calls all that was charged was received.
pub fn whole_fen(fortieths: u64) -> Money
    ensures value { (result.fen ≡ fortieths / 40) × (result.fortieths ≡ fortieths % 40) }
    ensures exact { result.fen * 40 + result.fortieths ≡ fortieths }
    ensures promise { Promise }
{
    Money {
        fen: fortieths / 40,
        fortieths: fortieths % 40,
    }
}
