// Entries of rows, and how many bits of them are set.
ghost use Rattle.std.specs.Prelude.{◌≡◌, ◌≢◌, ◌≤◌, length};
ghost use Rattle.std.specs.Int.Count.{ones};
ghost use Rattle.laws.specs.UpTo.{sum_up_to};
ghost use Rattle.rows.specs.Rows.{entry_in, with_mark, ones_at};

use words::turned::Rows;
use words::with_bit;

// The entry of the rows at (i, j).
pub fn entry_in(rows: Rows, i: u32, j: u32) -> u32
    requires { (1 ≤ i) × (i ≤ 32) × (1 ≤ j) × (j ≤ 32) }
    ensures { (result ≡ entry_in rows.entry.edges.now rows.entry.unknowns.now i j) × (result ≤ 3) }
{
    let at = (i - 1) as usize;
    let e = rows.edges[at];
    let u = rows.unknowns[at];
    (e >> (j - 1)) % 2 + 2 * ((u >> (j - 1)) % 2)
}

// How many bits of w are set.
fn ones_of(w: u32) -> u32
    ensures { (result ≡ ones w) × (result ≤ 32) }
{
    u32::count_ones(w)
}

// How many bits of row i are set.
pub fn ones_at(rows: &[u32; 32], i: u32) -> u32
    requires { (1 ≤ i) × (i ≤ 32) }
    ensures { (result ≡ ones_at rows.now i) × (result ≤ 32) }
{
    let at = (i - 1) as usize;
    ones_of(rows[at])
}

// How many bits of the rows are set.
pub fn ones_in(rows: &[u32; 32]) -> u32
    ensures { (result ≡ sum_up_to (ones_at rows.now) 32) × (result ≤ 1024) }
{
    let mut sum = 0;
    for i in 0..32 {
        sum += ones_at(rows, i + 1);
    }
    sum
}

// Both symmetric bits of (i, j) made b.
pub fn mark(rows: &mut [u32; 32], i: u32, j: u32, b: u32)
    requires { (length rows.old ≡ 32) × (b ≤ 1) × (1 ≤ i) × (i ≤ 32) × (1 ≤ j) × (j ≤ 32) × (i ≢ j) }
    ensures { rows.new ≡ with_mark rows.old i j b }
{
    let s = (i - 1) as usize;
    let t = (j - 1) as usize;
    let w = with_bit(rows[s], j - 1, b);
    let x = with_bit(rows[t], i - 1, b);
    rows[s] = w;
    rows[t] = x;
}
