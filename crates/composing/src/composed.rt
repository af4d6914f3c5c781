// Composing and inverting arrangements that are known to be reorderings.
// For the crates of this project; a caller has checked what a function asks of it.
ghost use Rattle.std.specs.Prelude.{◌≡◌, true, ◌≤◌};
ghost use Rattle.arrangements.specs.Arrangement.{is_reordering};
ghost use Rattle.composing.specs.Composed.{through, composed, inverse};

use arrangements::places::vertex_of;

// The vertex that p has at the place that q has at i.
fn through_at<'a>(n: u32, p: &'a [u8; 32], q: &'a [u8; 32], i: u32) -> u8
    requires { (n ≤ 32) × (is_reordering n p.now ≡ true) × (is_reordering n q.now ≡ true) × (1 ≤ i) × (i ≤ n) }
    ensures { result ≡ through p.now q.now i }
{
    let k = (vertex_of(n, q, i) - 1) as usize;
    p[k]
}

// p composed with q.
pub fn composed_of<'a>(n: u32, p: &'a [u8; 32], q: &'a [u8; 32]) -> [u8; 32]
    requires { (n ≤ 32) × (is_reordering n p.now ≡ true) × (is_reordering n q.now ≡ true) }
    ensures { result ≡ composed n p.now q.now }
{
    let mut out = [0u8; 32];
    for i in 0..n {
        let at = i as usize;
        out[at] = through_at(n, p, q, i + 1);
    }
    out
}

// The inverse of p: each place is put at the vertex that stands there.
pub fn inverse_of(n: u32, p: &[u8; 32]) -> [u8; 32]
    requires { (n ≤ 32) × (is_reordering n p.now ≡ true) }
    ensures { result ≡ inverse n p.now }
{
    let mut out = [0u8; 32];
    for i in 0..n {
        let at = (vertex_of(n, p, i + 1) - 1) as usize;
        out[at] = (i + 1) as u8;
    }
    out
}
