// Masks of vertices: vertex v is bit v - 1.
ghost use Rattle.std.specs.Prelude.{◌≡◌, ◌+◌, ◌≤◌, ◌<◌};
ghost use Rattle.words.specs.Placed.{placed};
ghost use Rattle.rows.specs.Rows.{block_of};
ghost use Rattle.exploring.specs.Masks.{block_mask, MaskOf, Fresh};

use words::{lowest, power};

// The vertices from i + 1 up to the next start or to n, as a mask.
fn block_from(n: u32, starts: u32, i: u32) -> u32
    requires { (n ≤ 32) × (i < n) × Fresh starts i }
    ensures { result ≡ block_mask (block_of starts) n (i + 1) }
{
    let later = (starts >> i) >> 1;
    let more = lowest(later | power(n - i - 1));
    (0xFFFF_FFFF >> (31 - more)) << i
}

// The block of place i + 1 as a mask, from that of the place before it.
fn next_mask(n: u32, starts: u32, i: u32, mask: u32) -> u32
    requires { (n ≤ 32) × (i < n) × MaskOf starts n i mask }
    ensures { result ≡ block_mask (block_of starts) n (i + 1) }
{
    if i == 0 {
        return block_from(n, starts, i);
    }
    if (starts >> i) % 2 == 1 {
        return block_from(n, starts, i);
    }
    mask
}

// The block of each place of 1..n as a mask.
pub fn block_masks(n: u32, starts: u32) -> [u32; 32]
    requires { n ≤ 32 }
    ensures { result ≡ placed (block_mask (block_of starts) n) n }
{
    let mut out = [0u32; 32];
    let mut mask = 0;
    let mut i = 0;
    while i < n {
        mask = next_mask(n, starts, i, mask);
        let at = i as usize;
        out[at] = mask;
        i += 1;
    }
    out
}
