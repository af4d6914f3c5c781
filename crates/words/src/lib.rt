// Words of 32 bits, and rows of them turned over.
// For the crates of this project; a caller has checked what a function asks of it.

#![tactic(auto)]

pub mod turned;

ghost use Rattle.std.specs.Prelude.{◌≡◌, ◌-◌, ◌*◌, ◌≤◌, ◌<◌, ◌^◌};
ghost use Rattle.std.specs.Int.Bits.{bit_and};
ghost use Rattle.std.specs.Int.Count.{count_trailing_zeros};
ghost use Rattle.laws.specs.Bit.{with_bit};

// A word as a wider one.
pub fn wide(x: u32) -> u64
    ensures { result ≡ x }
{
    x as u64
}

// 2 to the k, as a number of 64 bits.
pub fn limit_of(k: u32) -> u64
    requires { k < 64 }
    ensures { (result ≡ 2 ^ k) × (1 ≤ result) }
{
    1u64 << k
}

// 2 to the k.
pub fn power(k: u32) -> u32
    requires { k < 32 }
    ensures { (result ≡ 2 ^ k) × (1 ≤ result) }
{
    1u32 << k
}

// The place of the lowest bit of a word.
pub fn lowest(w: u32) -> u32
    ensures { result ≡ count_trailing_zeros 32 w }
{
    u32::trailing_zeros(w)
}

// A word without the bits of another.
pub fn without(w: u32, other: u32) -> u32
    ensures { result ≡ w - bit_and w other }
{
    w - (w & other)
}

// The bit b at place k.
pub fn weight(b: u32, k: u32) -> u32
    requires { (b ≤ 1) × (k < 32) }
    ensures { result ≡ b * 2 ^ k }
{
    b << k
}

// w with bit k made b.
pub fn with_bit(w: u32, k: u32, b: u32) -> u32
    requires { (b ≤ 1) × (k < 32) }
    ensures { result ≡ with_bit w k b }
{
    w - weight((w >> k) % 2, k) + weight(b, k)
}
