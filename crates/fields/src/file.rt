// A file as its fields, each right behind the one before.
ghost use Rattle.std.specs.Prelude.{◌≡◌, ◌+◌, ◌^◌, ◌<◌, [], length, Err, MatchOption, MatchResult};
ghost use Rattle.std.specs.Iterator.{at_most};
ghost use Rattle.fields.specs.Fields.{Leads, as_read, field_of};

use crate::fault::FieldFault;
use crate::field::{Field, Rule, read_field};

/// The fields of a file that are still to come, up to the first that has a flaw.
#[derive(Drop)]
pub struct Fields<'a, R> {
    rule: R,
    rest: &'a [u8],
    place: usize,
    ghost inside: { place + length rest.now < 2 ^ 64 },
}

impl<'a, R: Rule> Fields<'a, R> {
    /// All fields of a file.
    pub fn of(rule: R, bytes: &'a [u8]) -> Self
        ensures rule { result.rule ≡ rule }
        ensures all { (result.rest.now ≡ bytes.now) × (result.place ≡ 0) }
    {
        Fields {
            rule,
            rest: bytes,
            place: 0,
        }
    }

    /// The next field, which is due: where the file ends before it, it is short. Behind a flaw nothing follows.
    pub fn due(&mut self) -> Result<Field<'a, R::Kind>, FieldFault>
        ensures answer { MatchResult result
            (λ f. Leads (R.due self.old.rule) (R.allowed self.old.rule) self.old.place self.old.rest.now
            (as_read R.tag_of f) self.new.place)
            (λ e. field_of (R.due self.old.rule) (R.allowed self.old.rule) self.old.place self.old.rest.now ≡ Err e) }
        ensures place { MatchResult result (λ f. (f.place ≡ self.old.place) × (self.new.rest.now ≡ f.rest.now)) (λ _. self.new.rest.now ≡ []) }
        ensures same { self.new.rule ≡ self.old.rule }
    {
        let field = read_field(&self.rule, self.rest, self.place);
        match &field {
            Ok(field) => {
                self.place += 3 + field.value.len();
                self.rest = field.rest;
            }
            Err(_) => self.rest = &[],
        }
        field
    }

    /// The fields that are left, by another rule.
    pub fn by<Q: Rule>(self, rule: Q) -> Fields<'a, Q>
    where
        R: Drop,
        ensures rule { result.rule ≡ rule }
        ensures left { (result.rest.now ≡ self.entry.rest.now) × (result.place ≡ self.entry.place) }
    {
        Fields {
            rule,
            rest: self.rest,
            place: self.place,
        }
    }
}

impl<'a, R: Rule + Drop> Iterator for Fields<'a, R> {
    type Item = Result<Field<'a, R::Kind>, FieldFault>;

    ghost next_gives = { λ s r t. MatchOption r (s.rest.now ≡ []) (λ x. (0 < length s.rest.now) × (t.rule ≡ s.rule) × MatchResult x
        (λ f. (f.place ≡ s.place) × (t.rest.now ≡ f.rest.now) × Leads (R.due s.rule) (R.allowed s.rule) s.place s.rest.now
        (as_read R.tag_of f) t.place)
        (λ e. field_of (R.due s.rule) (R.allowed s.rule) s.place s.rest.now ≡ Err e)) };

    ghost remaining = { λ s. at_most (length s.rest.now) };

    fn next(&mut self) -> Option<Self::Item> {
        if self.rest.is_empty() {
            None
        } else {
            Some(self.due())
        }
    }
}
