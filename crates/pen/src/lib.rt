// A pen that writes fields of bits, and stores eight bytes at a time.
// For the crates of this project; a caller has checked what a function asks of it.

#![tactic(auto)]

ghost use Rattle.std.specs.Prelude.{◌≡◌, ◌+◌, ◌*◌, ◌≤◌, ◌<◌, ◌^◌, length};
ghost use Rattle.pen.specs.Stored.{stored};

use words::limit_of;

// How many bytes are stored, how many bits wait, and these bits as a number.
#[derive(Clone, Copy)]
pub struct Pen {
    pub stored: usize,
    pub have: u32,
    pub kept: u64,
    pub ghost few: { have < 64 },
    pub ghost small: { kept < 2 ^ have },
}

// Stores the first bytes of a word of eight, the most significant first.
pub fn store(out: &mut [u8], at: usize, word: u64, count: usize)
    requires { (count ≤ 8) × (at + count ≤ length out.old) }
    ensures { out.new ≡ stored out.old at word count }
{
    for t in 0..count {
        out[at + t] = ((word >> (56 - 8 * t)) % 256) as u8;
    }
}

impl Pen {
    ghost use Rattle.pen.specs.Pushed.{IsPushed};

    // One more field of w bits. Eight bytes that are full are stored.
    pub fn push(self, out: &mut [u8], v: u64, w: u32) -> Pen
        requires { (w ≤ 62) × (v < 2 ^ w) × (8 * self.stored + self.have + w ≤ 8 * length out.old) }
        ensures { IsPushed out.old self v w out.new result }
    {
        let have = self.have + w;
        if have < 64 {
            return Pen {
                stored: self.stored,
                have,
                kept: (self.kept << w) + v,
            };
        }
        let over = have - 64;
        store(
            out,
            self.stored,
            (self.kept << (64 - self.have)) + (v >> over),
            8,
        );
        Pen {
            stored: self.stored + 8,
            have: over,
            kept: v % limit_of(over),
        }
    }
}
