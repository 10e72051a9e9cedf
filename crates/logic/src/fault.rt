// What the judge answers, and why it may refuse.
ghost use Rattle.std.specs.Prelude.{◌≡◌};
ghost use Rattle.logic.specs.Judging.{judge_number, judge_place};
ghost use Rattle.logic.specs.Words.{has};
ghost use Rattle.logic.specs.declared.fault.JudgeFault.TheVariants.{File};

use crate::sets::contains;
use fields::fault::FileFault;
use std::fmt;

/// Where a sentence holds, bit s for state s, and its depth.
#[derive(Clone, Copy, PartialEq, Eq, Debug)]
pub struct Verdict {
    pub set: u64,
    pub depth: u16,
}

impl Verdict {
    /// Whether the sentence holds in a state.
    pub fn holds_in(self, state: usize) -> bool
        ensures answer { result ≡ has self.set state }
    {
        state < 64 && contains(self.set, state)
    }
}

/// Why a sentence is not judged.
#[derive(Clone, Copy, PartialEq, Eq, Debug)]
pub enum JudgeFault {
    /// The source is void.
    Void,
    /// The sentence file has a fault.
    File(FileFault),
    /// There are fewer words than lines.
    Words,
}

impl From<FileFault> for JudgeFault {
    ghost from_gives = { λ e r. r ≡ File e };

    fn from(fault: FileFault) -> JudgeFault {
        JudgeFault::File(fault)
    }
}

impl JudgeFault {
    /// The fault's number: 11, 1 to 5, or 21.
    pub fn number(self) -> u8
        ensures answer { result ≡ judge_number self }
    {
        match self {
            JudgeFault::Void => 11,
            JudgeFault::File(fault) => fault.number(),
            JudgeFault::Words => 21,
        }
    }

    /// The place of a file's fault in its file.
    pub fn place(self) -> Option<usize>
        ensures answer { result ≡ judge_place self }
    {
        match self {
            JudgeFault::File(fault) => Some(fault.place()),
            JudgeFault::Void | JudgeFault::Words => None,
        }
    }
}

/// The fault's number, and its place where it has one.
impl fmt::Display for JudgeFault {
    ghost use Rattle.std.specs.Prelude.{Some};
    ghost use Rattle.logic.specs.Judging.{judge_text};

    ghost output = { λ fault. Some (judge_text fault) };

    fn fmt<W: fmt::Write>(&self, f: &mut fmt::Formatter<W>) -> fmt::Result {
        match self {
            JudgeFault::File(fault) => write!(f, "{fault}"),
            JudgeFault::Void | JudgeFault::Words => {
                let number = self.number();
                write!(f, "{number}")
            }
        }
    }
}
