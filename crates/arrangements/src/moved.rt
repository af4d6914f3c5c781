// Rows moved by an arrangement.
ghost use Rattle.std.specs.Prelude.{◌≡◌, true, ◌+◌, ◌-◌, ◌*◌, ◌≤◌, ◌<◌, ◌^◌};
ghost use Rattle.laws.specs.Bit.{bit};
ghost use Rattle.words.specs.Placed.{placed};
ghost use Rattle.arrangements.specs.Arrangement.{at, is_reordering, moved_row};

use crate::places::vertex_of;
use words::weight;

// The bit that w has at the vertex at place j + 1, put at place j of a word.
fn moved_weight(w: u32, n: u32, p: &[u8; 32], j: u32) -> u32
    requires { (n ≤ 32) × (is_reordering n p.now ≡ true) × (j < n) }
    ensures { result ≡ bit w (at p.now (j + 1) - 1) * 2 ^ j }
{
    let to = vertex_of(n, p, j + 1) - 1;
    weight((w >> to) % 2, j)
}

// Row i of the rows moved by p.
fn moved_row<'a>(rows: &'a [u32; 32], p: &'a [u8; 32], n: u32, i: u32) -> u32
    requires { (n ≤ 32) × (is_reordering n p.now ≡ true) × (1 ≤ i) × (i ≤ n) }
    ensures { result ≡ moved_row rows.now p.now n i }
{
    let from = (vertex_of(n, p, i) - 1) as usize;
    let w = rows[from];
    let mut row = 0;
    for j in 0..n {
        row += moved_weight(w, n, p, j);
    }
    row
}

// The rows moved by p.
pub fn moved_rows<'a>(rows: &'a [u32; 32], p: &'a [u8; 32], n: u32) -> [u32; 32]
    requires { (n ≤ 32) × (is_reordering n p.now ≡ true) }
    ensures { result ≡ placed (moved_row rows.now p.now n) n }
{
    let mut out = [0u32; 32];
    for i in 0..n {
        let at = i as usize;
        out[at] = moved_row(rows, p, n, i + 1);
    }
    out
}
