// What a record holds beside the entries: the order, the block starts, the padding.
ghost use Rattle.std.specs.Prelude.{◌≡◌, ◌≤◌, ◌<◌, true, false, eqb, MatchResult};
ghost use Rattle.fields.specs.Bits.{bit_of};
ghost use Rattle.record.specs.Reading.{order_in, starts_in, pad_in};
ghost use Rattle.reading.specs.Lines.{start_by};

use crate::held::Held;
use numbers::{bits_at, byte_at};
use record::layout::{bit_count, byte_count};
use refusal::Refusal;
use words::{limit_of, weight};

// The order.
pub fn order_of(bytes: &[u8]) -> u32
    ensures { (result ≡ order_in (bit_of bytes.now)) × (result < 64) }
{
    (byte_at(bytes, 0) / 4) as u32
}

// 1 where vertex v starts a block, by the bits of the vertices from 2 on.
fn start_of(bits: u64, order: u32, v: u32) -> u32
    requires { (1 ≤ v) × (v ≤ order) × (order ≤ 32) }
    ensures { (result ≡ start_by bits order v) × (result ≤ 1) }
{
    if v == 1 {
        1
    } else {
        ((bits >> (order - v)) % 2) as u32
    }
}

impl Held<'_> {
    // The word of block starts.
    pub fn starts(self) -> u32
        ensures { result ≡ starts_in (bit_of self.entry.bytes.now) self.entry.order }
    {
        let bits = bits_at(self.bytes, 6, self.order - 1);
        let mut starts = 0;
        for v in 0..self.order {
            starts += weight(start_of(bits, self.order, v + 1), v);
        }
        starts
    }

    // The bits after the last entry, as one number.
    fn pad(self) -> u64
        ensures { result ≡ pad_in (bit_of self.entry.bytes.now) self.entry.order }
    {
        let taken = byte_count(self.order);
        let left = (8 * taken - bit_count(self.order)) as u32;
        byte_at(self.bytes, taken - 1) % limit_of(left)
    }

    // Refuses a pad bit that is 1.
    pub fn check_pad(self) -> Result<(), Refusal>
        ensures { MatchResult result (λ _. eqb (pad_in (bit_of self.entry.bytes.now) self.entry.order) 0 ≡ true) (λ e. (eqb (pad_in (bit_of self.entry.bytes.now) self.entry.order) 0 ≡ false) × (e ≡ Refusal.Pad)) }
    {
        if self.pad() == 0 {
            Ok(())
        } else {
            Err(Refusal::Pad)
        }
    }
}
