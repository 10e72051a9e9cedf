// A line of a sentence over the bytes of its file: how it is read, and whether it may stand where it stands.
ghost use Rattle.std.specs.Prelude.{◌≡◌, ◌-◌, Ok, Err, MatchResult, slice_index_or};
ghost use Rattle.theory.specs.Sentences.{fits_after, one_of_first};
ghost use Rattle.logic.specs.File.{line_behind, line_of, step_line};
ghost use Rattle.logic.specs.Format.{kind_tag};
ghost use Rattle.logic.specs.Lines.{meant, sound_part};

use crate::format::{LINES, LineKind};
use crate::parts::Parts;
use fields::fault::FileFault;
use fields::field::Field;
use fields::values::{Numbers, Packing, Values};
use model::ACTIONS;
use theory::Part;

/// The largest m of a part.
const WHOLE: u32 = 1_000_000_000;

/// A line; the lines and the parts that it names are read off the bytes of its field.
#[derive(Clone, Copy)]
pub enum Line<'a> {
    Not(u16),
    All(Values<'a, Numbers>),
    Any(Values<'a, Numbers>),
    Step(u8, Values<'a, Parts>),
}

/// What belongs to a line, among what belongs to the lines so far. (No line that is judged names one that is not there.)
pub(crate) fn named<T: Copy>(values: &[T], line: u16, none: T) -> T
    ensures { result ≡ slice_index_or values.now (line - 1) none }
{
    values
        .get(usize::from(line).saturating_sub(1))
        .copied()
        .unwrap_or(none)
}

/// Whether a line is one of the first `before`.
fn is_earlier(line: u16, before: usize) -> bool
    ensures { result ≡ one_of_first before line }
{
    0 < line && usize::from(line) <= before
}

/// Whether a part names one of the first `before` lines, and its share is sound.
fn is_sound(part: Part, before: usize) -> bool
    ensures { result ≡ sound_part before part }
{
    is_earlier(part.line, before) && 0 < part.m && part.m <= WHOLE && part.k <= part.m
}

impl<'a> Line<'a> {
    /// The line of a field that stands behind `before` lines. The line's numbers are looked at first, then the number of
    /// lines.
    pub(crate) fn read(field: &Field<'a, LineKind>, before: usize) -> Result<Line<'a>, FileFault>
        ensures { MatchResult result
            (λ l. line_behind before field.now.place (line_of (kind_tag field.now.kind) field.now.value.now) ≡ Ok (meant l))
            (λ e. line_behind before field.now.place (line_of (kind_tag field.now.kind) field.now.value.now) ≡ Err e) }
    {
        let line = Line::from_field(field.kind, field.value);
        if !line.fits_after(before) {
            return Err(FileFault::Number(field.place));
        }
        if before >= LINES {
            return Err(FileFault::Limit(field.place));
        }
        Ok(line)
    }

    /// The line that a field of a kind gives.
    fn from_field(kind: LineKind, value: &'a [u8]) -> Line<'a>
        ensures { meant result ≡ line_of (kind_tag kind) value.now }
    {
        match kind {
            LineKind::Not => Line::Not(Numbers::split(value).map_or(0, |(line, _)| line)),
            LineKind::All => Line::All(Values::of(value)),
            LineKind::Any => Line::Any(Values::of(value)),
            LineKind::Step => Line::step_from(value),
        }
    }

    /// The step-line of an action and parts.
    fn step_from(value: &'a [u8]) -> Line<'a>
        ensures { meant result ≡ step_line value.now }
    {
        match value {
            [action, parts @ ..] => Line::Step(*action, Values::of(parts)),
            [] => Line::Step(0, Values::of(value)),
        }
    }

    /// Whether the line may stand behind `before` others.
    fn fits_after(self, before: usize) -> bool
        ensures { result ≡ fits_after before (meant self.entry) }
    {
        match self {
            Line::Not(line) => is_earlier(line, before),
            Line::All(mut lines) | Line::Any(mut lines) => {
                lines.all(|line| is_earlier(line, before))
            }
            Line::Step(action, mut parts) => {
                action < ACTIONS && parts.all(|part| is_sound(part, before))
            }
        }
    }
}
