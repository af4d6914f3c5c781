// Whether an arrangement uses each vertex once.
ghost use Rattle.std.specs.Prelude.{◌≡◌, ◌≤◌};
ghost use Rattle.arrangements.specs.Arrangement.{differs, is_new, place_fits, is_reordering};

use crate::places::vertex_at;

// Does p have at place i another vertex than at place j?
fn differ(p: &[u8; 32], i: u32, j: u32) -> bool
    requires { (1 ≤ i) × (i ≤ 32) × (1 ≤ j) × (j ≤ 32) }
    ensures { result ≡ differs p.now i j }
{
    vertex_at(p, j) != vertex_at(p, i)
}

// Is the vertex at place i at no earlier place?
fn is_new(p: &[u8; 32], i: u32) -> bool
    requires { (1 ≤ i) × (i ≤ 32) }
    ensures { result ≡ is_new p.now i }
{
    for j in 0..i - 1 {
        if !differ(p, i, j + 1) {
            return false;
        }
    }
    true
}

// Does place i hold a vertex that stands at no earlier place, or, after place n, zero?
fn place_fits(n: u32, p: &[u8; 32], i: u32) -> bool
    requires { (1 ≤ i) × (i ≤ 32) }
    ensures { result ≡ place_fits n p.now i }
{
    let v = vertex_at(p, i);
    if i <= n {
        if v < 1 {
            return false;
        }
        if n < v {
            return false;
        }
        return is_new(p, i);
    }
    v == 0
}

// Does p use each of 1..n once, with zeros after place n?
pub fn is_reordering(n: u32, p: [u8; 32]) -> bool
    ensures { result ≡ is_reordering n p }
{
    for i in 0..32 {
        if !place_fits(n, &p, i + 1) {
            return false;
        }
    }
    true
}
