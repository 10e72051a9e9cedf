// Sentences about the states of a model, when one step matches another, and what is proved of both whatever the model and
// however large the sentence.
#![tactic(auto)]

ghost use Rattle.theory.specs.Cases.{MatchingCases, RoundCases, TellingCases};
ghost use Rattle.theory.specs.Laws.{CutExact, DepthZeroConstant, LevelsExact, LinesMean, MatchExact, PartedExact, RoundsBounded, SettledExact, StagesExact, UnpartedExact};

/// A part of a step-line: a line, and the least share, k of m, of a step's weight that must lead to where that line holds.
/// The definitions take one with any numbers, not only such as fit these types.
#[derive(Clone, Copy)]
pub struct Part {
    pub line: u16,
    pub k: u32,
    pub m: u32,
}

/// Each line of a well-formed sentence holds where its kind says that it holds, over the lines that it names.
pub fn lines_mean()
    ensures { LinesMean }
{}

/// A sentence of depth 0 holds everywhere or nowhere.
pub fn depth_zero_is_constant()
    ensures { DepthZeroConstant }
{}

/// One step matches another exactly where no set of its targets weighs more than what it stands to.
pub fn match_is_exact()
    ensures { MatchExact }
{}

/// Where two steps do not match, one set of targets of greatest surplus lies in all the others: the cut.
pub fn cut_is_exact()
    ensures { CutExact }
{}

/// Two steps that match under three pairs of their targets, and under two of the three do not, with the cut that tells.
pub fn matching_cases()
    ensures { MatchingCases }
{}

/// Each stage of a lawful model is an equivalence on its states, inside the stages before it.
pub fn stages_are_exact()
    ensures { StagesExact }
{}

/// The levels, which say for each pair of states the round that parted it, hold the stages.
pub fn levels_are_exact()
    ensures { LevelsExact }
{}

/// After a round that parts nothing, the pairs that no round parted are those that a bisimulation relates.
pub fn settled_is_exact()
    ensures { SettledExact }
{}

/// As many rounds as there are states are enough.
pub fn rounds_are_bounded()
    ensures { RoundsBounded }
{}

/// Two states that a round parted are told apart by the sentence that is made from the levels. It is as deep as that round's
/// number, and none less deep tells them apart.
pub fn parted_is_exact()
    ensures { PartedExact }
{}

/// No sentence tells two states apart that as many rounds as it is deep leave together.
pub fn unparted_is_exact()
    ensures { UnpartedExact }
{}

/// Four models, which round parts which of their states, and when no round parts more.
pub fn round_cases()
    ensures { RoundCases }
{}

/// The sentence that tells a fair coin from an unfair one.
pub fn telling_cases()
    ensures { TellingCases }
{}
