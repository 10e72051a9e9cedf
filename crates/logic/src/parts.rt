// The parts of a step-line, as they lie in the bytes of its field.
ghost use Rattle.logic.specs.File.{parts_of};

use fields::values::Packing;
use theory::Part;

/// Parts of ten bytes each: two for the line, four for k and four for m, the high byte first.
#[derive(Clone, Copy)]
pub struct Parts;

impl Packing for Parts {
    type Item = Part;

    ghost held = { parts_of };

    fn split(bytes: &[u8]) -> Option<(Part, &[u8])> {
        let (line, rest) = bytes.split_first_chunk()?;
        let (k, rest) = rest.split_first_chunk()?;
        let (m, rest) = rest.split_first_chunk()?;
        let part = Part {
            line: u16::from_be_bytes(*line),
            k: u32::from_be_bytes(*k),
            m: u32::from_be_bytes(*m),
        };
        Some((part, rest))
    }
}
