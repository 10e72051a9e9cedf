// What can be wrong with a file of fields, and where.
ghost use Rattle.std.specs.Prelude.{◌≡◌};
ghost use Rattle.fields.specs.Faults.{flaw_number, number_of, place_of};
ghost use Rattle.fields.specs.declared.fault.FileFault.TheVariants.{Field};

use std::fmt;

/// What is wrong with a field as such.
#[derive(Clone, Copy, PartialEq, Eq, Debug)]
pub enum Flaw {
    /// Its head or its value runs past the end of the file, or it is due and missing.
    Short = 1,
    /// Its tag is unknown or out of place.
    Tag = 2,
    /// Its tag does not allow its length.
    Length = 3,
}

/// A field's flaw, with the place of its tag: the number of bytes before it in its file.
#[derive(Clone, Copy, PartialEq, Eq, Debug)]
pub struct FieldFault {
    pub flaw: Flaw,
    pub place: usize,
}

/// The first fault of a file: of a field as such, or of what its value says, with the place of its tag.
#[derive(Clone, Copy, PartialEq, Eq, Debug)]
pub enum FileFault {
    Field(FieldFault),
    /// A number outside its range or order.
    Number(usize),
    /// More of something than a file may hold.
    Limit(usize),
}

impl From<FieldFault> for FileFault {
    ghost from_gives = { λ e r. r ≡ Field e };

    fn from(field: FieldFault) -> FileFault {
        FileFault::Field(field)
    }
}

impl Flaw {
    /// The flaw of the field at a place.
    pub fn at(self, place: usize) -> FieldFault
        ensures { result ≡ record { flaw = self; place = place } }
    {
        FieldFault { flaw: self, place }
    }

    /// The flaw's number, 1 to 3.
    pub fn number(self) -> u8
        ensures answer { result ≡ flaw_number self }
    {
        // A cast is the one form that reads a discriminant.
        self as u8
    }
}

impl FileFault {
    /// The fault's number, 1 to 5.
    pub fn number(self) -> u8
        ensures answer { result ≡ number_of self }
    {
        match self {
            FileFault::Field(fault) => fault.flaw.number(),
            FileFault::Number(_) => 4,
            FileFault::Limit(_) => 5,
        }
    }

    /// Where the faulty field's tag stands, or the end of the file where a field is missing.
    pub fn place(self) -> usize
        ensures answer { result ≡ place_of self }
    {
        match self {
            FileFault::Field(fault) => fault.place,
            FileFault::Number(place) | FileFault::Limit(place) => place,
        }
    }
}

/// The fault's number and its place.
impl fmt::Display for FileFault {
    ghost use Rattle.std.specs.Prelude.{Some};
    ghost use Rattle.fields.specs.Faults.{fault_text};

    ghost output = { λ fault. Some (fault_text fault) };

    fn fmt<W: fmt::Write>(&self, f: &mut fmt::Formatter<W>) -> fmt::Result {
        let number = self.number();
        let place = self.place();
        write!(f, "{number} {place}")
    }
}
