// How one field of a file is read.
ghost use Rattle.std.specs.Prelude.{◌≡◌, ℕ, Bool, true, false, Ok, Err, IfOk, MatchOption, MatchResult};
ghost use Rattle.fields.specs.Fields.{as_read, field_of};

use crate::fault::{FieldFault, Flaw};

/// Which fields may stand at a place of a file: the kinds that are due there, by their tags, and the lengths that each
/// allows.
pub trait Rule {
    type Kind: Copy;

    ghost due: { Self → ℕ → Bool };

    ghost allowed: { Self → ℕ → ℕ → Bool };

    /// The tag of a kind.
    ghost tag_of: { Self.Kind → ℕ };

    /// The kind that a tag names, if one that is due has it.
    fn kind(&self, tag: u8) -> Option<Self::Kind>
        ensures { MatchOption result (due self.now tag ≡ false) (λ kind. (due self.now tag ≡ true) × (tag_of kind ≡ tag)) };

    /// The tag of a kind.
    fn tag(kind: Self::Kind) -> u8
        ensures { result ≡ tag_of kind };

    /// Whether a tag allows a length, be the tag due or not.
    fn allows(&self, tag: u8, length: usize) -> bool
        ensures { result ≡ allowed self.now tag length };
}

/// A field, with the place where it begins and what follows it.
#[derive(Clone, Copy)]
pub struct Field<'a, K> {
    pub kind: K,
    pub value: &'a [u8],
    pub rest: &'a [u8],
    pub place: usize,
}

// The bytes and their place are two parameters, as callers of this call have them; `file::Fields` keeps both together.
/// The field at the front of `bytes`, which stand at `place` in their file. Its head, tag, length and value are looked at
/// in this order, and the first flaw is the one that is answered.
pub fn read_field<'a, R: Rule>(
    rule: &R,
    bytes: &'a [u8],
    place: usize,
) -> Result<Field<'a, R::Kind>, FieldFault>
    ensures answer { MatchResult result
        (λ f. field_of (R.due rule.now) (R.allowed rule.now) place bytes.now
        ≡ Ok (as_read R.tag_of f))
        (λ e. field_of (R.due rule.now) (R.allowed rule.now) place bytes.now ≡ Err e) }
    ensures place { IfOk result (λ f. f.place ≡ place) }
{
    let [tag, high, low, rest @ ..] = bytes else {
        return Err(Flaw::Short.at(place));
    };
    let Some(kind) = rule.kind(*tag) else {
        return Err(Flaw::Tag.at(place));
    };
    let length = usize::from(u16::from_be_bytes([*high, *low]));
    if !rule.allows(*tag, length) {
        return Err(Flaw::Length.at(place));
    }
    let Some((value, rest)) = rest.split_at_checked(length) else {
        return Err(Flaw::Short.at(place));
    };
    Ok(Field {
        kind,
        value,
        rest,
        place,
    })
}
