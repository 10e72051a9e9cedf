// The fields of a sentence file: one for each line.
ghost use Rattle.logic.specs.Format.{allowed_line, due_line, kind_tag};

use fields::field::Rule;

/// The most lines of a sentence file.
pub const LINES: usize = 4095;

/// The kinds of lines.
#[derive(Clone, Copy, PartialEq, Eq, Debug)]
pub enum LineKind {
    Not = 0x11,
    All = 0x12,
    Any = 0x13,
    Step = 0x14,
}

/// Any kind of line may stand anywhere in a sentence file.
#[derive(Clone, Copy)]
pub struct SentenceField;

impl Rule for SentenceField {
    type Kind = LineKind;

    ghost due = { λ _. due_line };

    ghost allowed = { λ _. allowed_line };

    ghost tag_of = { kind_tag };

    fn kind(&self, tag: u8) -> Option<LineKind> {
        match tag {
            0x11 => Some(LineKind::Not),
            0x12 => Some(LineKind::All),
            0x13 => Some(LineKind::Any),
            0x14 => Some(LineKind::Step),
            _ => None,
        }
    }

    fn tag(kind: LineKind) -> u8 {
        // A cast is the one form that reads a discriminant.
        kind as u8
    }

    /// A not-line names one line, a step-line has an action and parts of ten bytes, the others name lines in any number; what
    /// these allow, a tag of no kind does too.
    fn allows(&self, tag: u8, length: usize) -> bool {
        match self.kind(tag) {
            Some(LineKind::Not) => length == 2,
            Some(LineKind::Step) => length % 10 == 1,
            Some(LineKind::All | LineKind::Any) | None => length % 2 == 0,
        }
    }
}
