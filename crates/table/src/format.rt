// The fields of a model file: the number of states, and then the steps.
ghost use Rattle.table.specs.Format.{allowed_size, due_tag, model_tag};

use fields::field::Rule;

/// A field that is due in a model file: first the states, and after them steps alone.
#[derive(Clone, Copy)]
pub enum ModelField {
    States = 0x01,
    Step = 0x02,
}

/// What is due is the one kind of its own.
impl Rule for ModelField {
    type Kind = ModelField;

    ghost due = { due_tag };

    ghost allowed = { λ field _ size. allowed_size field size };

    ghost tag_of = { model_tag };

    fn kind(&self, tag: u8) -> Option<ModelField> {
        (tag == ModelField::tag(*self)).then_some(*self)
    }

    fn tag(kind: ModelField) -> u8 {
        // A cast is the one form that reads a discriminant.
        kind as u8
    }

    /// The states take one byte; a step takes two, and three for each of its 1 to 64 branches.
    fn allows(&self, _tag: u8, length: usize) -> bool {
        match self {
            ModelField::States => length == 1,
            ModelField::Step => 5 <= length && length <= 194 && (length - 2) % 3 == 0,
        }
    }
}
