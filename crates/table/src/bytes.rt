// The branches of a step, as a field holds them: the target in one byte, the weight in two.
ghost use Rattle.table.specs.File.{read_branches};

use fields::values::Packing;
use model::Branch;

/// How branches lie in bytes.
#[derive(Clone, Copy)]
pub(crate) struct Branches;

impl Packing for Branches {
    type Item = Branch;

    ghost held = { read_branches };

    fn split(bytes: &[u8]) -> Option<(Branch, &[u8])> {
        match bytes {
            [target, high, low, rest @ ..] => {
                let branch = Branch {
                    target: *target,
                    weight: u32::from(u16::from_be_bytes([*high, *low])),
                };
                Some((branch, rest))
            }
            _ => None,
        }
    }
}
