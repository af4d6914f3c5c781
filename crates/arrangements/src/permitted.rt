// Whether an arrangement keeps every vertex in its block.
ghost use Rattle.std.specs.Prelude.{◌≡◌, true, ◌≤◌};
ghost use Rattle.laws.specs.UpTo.{all_up_to};
ghost use Rattle.rows.specs.Rows.{block_of};
ghost use Rattle.arrangements.specs.Arrangement.{at, is_reordering, stays_in_block, is_permitted};

use crate::places::vertex_at;
use crate::reordering::is_reordering;

// The number of v's block.
pub fn block_of(starts: u32, v: u32) -> u32
    requires { v ≤ 32 }
    ensures { (result ≡ block_of starts v) × (result ≤ 32) }
{
    let mut blocks = 0;
    for i in 0..v {
        blocks += (starts >> i) % 2;
    }
    blocks
}

// Does place i hold a vertex of its own block?
fn stays_in_block(starts: u32, p: &[u8; 32], i: u32) -> bool
    requires { (1 ≤ i) × (i ≤ 32) × (at p.now i ≤ 32) }
    ensures { result ≡ stays_in_block starts p.now i }
{
    let there = block_of(starts, vertex_at(p, i));
    let here = block_of(starts, i);
    there == here
}

// Does each place of 1..n hold a vertex of its own block?
fn blocks_kept(n: u32, starts: u32, p: &[u8; 32]) -> bool
    requires { (n ≤ 32) × (is_reordering n p.now ≡ true) }
    ensures { result ≡ all_up_to (stays_in_block starts p.now) n }
{
    for i in 0..n {
        if !stays_in_block(starts, p, i + 1) {
            return false;
        }
    }
    true
}

// Is p a reordering of 1..n that keeps every vertex in its block?
pub fn is_permitted(n: u32, starts: u32, p: [u8; 32]) -> bool
    requires { n ≤ 32 }
    ensures { result ≡ is_permitted n starts p }
{
    is_reordering(n, p) && blocks_kept(n, starts, &p)
}
