// The first refused entry.
ghost use Rattle.std.specs.Prelude.{◌≡◌, ◌+◌, ◌*◌, ◌≤◌, true, false, eqb, MatchResult};
ghost use Rattle.laws.specs.Num.{num};
ghost use Rattle.fields.specs.Bits.{bit_of};
ghost use Rattle.record.specs.Layout.{entry_place};
ghost use Rattle.record.specs.Reading.{refused_in};
ghost use Rattle.reading.specs.Refused.{NoneUpTo};

use crate::held::Held;
use numbers::bits_at;
use pairs::pair_count;
use refusal::Refusal;

impl Held<'_> {
    // The entries of so many pairs after the first m as one number, two bits each.
    fn entries_after(self, m: u32, count: u32) -> u64
        requires { (m ≤ 2048) × (count ≤ 31) }
        ensures { result ≡ num (bit_of self.entry.bytes.now) (entry_place self.entry.order (m + 1)) (2 * count) }
    {
        bits_at(self.bytes, (5 + self.order + 2 * m) as usize, 2 * count)
    }

    // How many of the first entries are surely not refused, many at a time: all of them where none is.
    fn clear_entries(self) -> u32
        ensures { NoneUpTo (bit_of self.entry.bytes.now) self.entry.order result }
    {
        let count = pair_count(self.order);
        let mut clear = 0;
        while clear < count {
            let more = (count - clear).min(31);
            let entries = self.entries_after(clear, more);
            if (entries & (entries >> 1) & 0x5555_5555_5555_5555) != 0 {
                return clear;
            }
            clear += more;
        }
        clear
    }

    // Refuses the first pair whose entry is 11.
    pub fn check_entries(self) -> Result<(), Refusal>
        ensures { MatchResult result (λ _. eqb (refused_in (bit_of self.entry.bytes.now) self.entry.order) 0 ≡ true) (λ e. (eqb (refused_in (bit_of self.entry.bytes.now) self.entry.order) 0 ≡ false) × (e ≡ Refusal.Entry (refused_in (bit_of self.entry.bytes.now) self.entry.order))) }
    {
        for m in self.clear_entries()..pair_count(self.order) {
            if self.entries_after(m, 1) == 3 {
                return Err(Refusal::Entry { pair: m + 1 });
            }
        }
        Ok(())
    }
}
