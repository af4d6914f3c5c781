// The vertices at the places of an arrangement.
ghost use Rattle.std.specs.Prelude.{◌≡◌, true, ◌≤◌, ◌<◌};
ghost use Rattle.arrangements.specs.Arrangement.{at, is_reordering};

// The vertex at place i.
pub fn vertex_at(p: &[u8; 32], i: u32) -> u32
    requires { (1 ≤ i) × (i ≤ 32) }
    ensures { (result ≡ at p.now i) × (result < 256) }
{
    let k = (i - 1) as usize;
    u32::from(p[k])
}

// The vertex that a reordering of 1..n has at place i.
pub fn vertex_of(n: u32, p: &[u8; 32], i: u32) -> u32
    requires { (n ≤ 32) × (is_reordering n p.now ≡ true) × (1 ≤ i) × (i ≤ n) }
    ensures { (result ≡ at p.now i) × (1 ≤ result) × (result ≤ n) }
{
    vertex_at(p, i)
}
