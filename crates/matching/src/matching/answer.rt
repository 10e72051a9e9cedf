// What a match is answered.
use model::STATES;

/// Whether a step matches another one, and what shows it.
#[derive(Clone, Copy)]
pub enum Matching {
    /// They match: in row u and column v stands the weight that target u of the left step sends to target v of the right one.
    Matched([[u64; STATES]; STATES]),
    /// They have one action and do not match: in place u stands whether target u of the left step lies in the cut.
    Cut([bool; STATES]),
    /// They have different actions.
    Apart,
}
