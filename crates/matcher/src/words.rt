// A relation that stands in words of bits.
ghost use Rattle.std.specs.Prelude.{◌/◌, ◌%◌, ◌^◌, ◌&&◌, ◌==◌, nat_lt, slice_index};

use matching::relation::Relation;
use model::STATES;

/// The relation in which u stands to v, both below 64, where bit v of word u is set.
#[derive(Clone, Copy)]
pub struct Words(pub [u64; STATES]);

impl Relation for Words {
    ghost pairs = { λ r u v. nat_lt u 64 && nat_lt v 64 && (slice_index r.0 u / 2 ^ v % 2 == 1) };

    fn relates(&self, u: usize, v: usize) -> bool {
        u < STATES && v < STATES && (self.0[u] >> v) & 1 == 1
    }
}
