// A vertex as a place of a path holds it.
ghost use Rattle.std.specs.Prelude.{◌≡◌, ◌+◌, ◌-◌, ◌^◌, ◌≤◌, ◌<◌};

use words::power;

// A place of the path as it is stored: the vertex at bit v.
pub fn stored(v: u32) -> u8
    requires { v < 32 }
    ensures { result ≡ v + 1 }
{
    (v + 1) as u8
}

// The weight of a stored vertex in a mask.
pub fn weight_of(v: u8) -> u32
    requires { (1 ≤ v) × (v ≤ 32) }
    ensures { result ≡ 2 ^ (v - 1) }
{
    power((v - 1) as u32)
}
