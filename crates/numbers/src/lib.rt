// Numbers of up to 62 bits in the caller's bytes, taken eight bytes at a time.
// For the crates of this project; a caller has checked what a function asks of it.

#![tactic(auto)]

pub mod gathered;

ghost use Rattle.std.specs.Prelude.{◌≡◌, ◌+◌, ◌*◌, ◌≤◌, ◌<◌, length, get_or};
ghost use Rattle.laws.specs.Num.{num};
ghost use Rattle.fields.specs.Bits.{bit_of};

// Byte k, from 0, or 0 past the bytes.
pub fn byte_at(bytes: &[u8], k: usize) -> u64
    ensures { (result ≡ get_or bytes.now k 0) × (result < 256) }
{
    u64::from(bytes.get(k).copied().unwrap_or(0))
}

// The number that eight bytes make: the compiler loads it at once.
fn eight_at(bytes: &[u8], k: usize) -> u64
    requires { k + 8 ≤ length bytes.now }
    ensures { result ≡ num (bit_of bytes.now) (8 * k) 64 }
{
    u64::from_be_bytes([
        bytes[k],
        bytes[k + 1],
        bytes[k + 2],
        bytes[k + 3],
        bytes[k + 4],
        bytes[k + 5],
        bytes[k + 6],
        bytes[k + 7],
    ])
}

// The same of few bytes, with zeros past them.
fn few_at(bytes: &[u8], k: usize) -> u64
    requires { k ≤ 2500 }
    ensures { result ≡ num (bit_of bytes.now) (8 * k) 64 }
{
    let mut made = 0;
    for t in 0..8 {
        made = made * 256 + byte_at(bytes, k + t);
    }
    made
}

// The same where the bytes end before, with zeros past them: the last eight bytes, moved up.
fn last_at(bytes: &[u8], k: usize) -> u64
    requires { (k ≤ 2500) × (length bytes.now < k + 8) }
    ensures { result ≡ num (bit_of bytes.now) (8 * k) 64 }
{
    let given = bytes.len();
    if given < 8 {
        return few_at(bytes, k);
    }
    if given <= k {
        return 0;
    }
    eight_at(bytes, given - 8) << (8 * (k + 8 - given))
}

// The number that eight bytes make, as far as they are there.
fn word_at(bytes: &[u8], k: usize) -> u64
    requires { k ≤ 2500 }
    ensures { result ≡ num (bit_of bytes.now) (8 * k) 64 }
{
    if k + 8 <= bytes.len() {
        return eight_at(bytes, k);
    }
    last_at(bytes, k)
}

// The number that up to 62 bits from a place make.
pub fn bits_at(bytes: &[u8], place: usize, width: u32) -> u64
    requires { (width ≤ 62) × (place ≤ 20000) }
    ensures { result ≡ num (bit_of bytes.now) place width }
{
    let k = place / 8;
    let past = (place % 8) as u32;
    let whole = (word_at(bytes, k) << past) + (byte_at(bytes, k + 8) >> (8 - past));
    (whole / 2) >> (63 - width)
}
