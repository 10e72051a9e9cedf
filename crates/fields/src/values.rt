// The values that a field holds, one behind the other.
ghost use Rattle.std.specs.Prelude.{◌≡◌, ◌<◌, List, ℕ, [], ◌∷◌, length, MatchOption};
ghost use Rattle.std.specs.Iterator.{YieldsFirst, item_count};
ghost use Rattle.fields.specs.Bytes.{numbers};

use std::marker::PhantomData;

/// How values of one kind lie in bytes, one behind the other.
pub trait Packing {
    type Item;

    /// The values that some bytes hold.
    ghost held: { List ℕ → List Self.Item };

    /// The value at the front of some bytes, and the bytes behind it; none where they hold no whole value.
    fn split(bytes: &[u8]) -> Option<(Self::Item, &[u8])>
        ensures { MatchOption result (held bytes.now ≡ [])
            (λ front. (held bytes.now ≡ front.0 ∷ held front.1.now) × (length front.1.now < length bytes.now)) };
}

/// The values that some bytes hold, in their order.
#[derive(Clone, Copy)]
pub struct Values<'a, P> {
    bytes: &'a [u8],
    packing: PhantomData<P>,
}

impl<'a, P: Packing> Values<'a, P> {
    pub fn of(bytes: &'a [u8]) -> Self
        ensures { result.bytes.now ≡ bytes.now }
    {
        Values {
            bytes,
            packing: PhantomData,
        }
    }
}

impl<'a, P: Packing> Iterator for Values<'a, P> {
    type Item = P::Item;

    ghost next_gives = { YieldsFirst (λ s. P.held s.bytes.now) };

    ghost remaining = { item_count (λ s. P.held s.bytes.now) };

    fn next(&mut self) -> Option<P::Item> {
        let (value, rest) = P::split(self.bytes)?;
        self.bytes = rest;
        Some(value)
    }
}

/// Numbers of two bytes each, the high byte first.
#[derive(Clone, Copy)]
pub struct Numbers;

impl Packing for Numbers {
    type Item = u16;

    ghost held = { numbers };

    fn split(bytes: &[u8]) -> Option<(u16, &[u8])> {
        let (number, rest) = bytes.split_first_chunk()?;
        Some((u16::from_be_bytes(*number), rest))
    }
}
