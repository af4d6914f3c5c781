// The bits of the caller's bytes, most significant first, and the numbers that they make.
ghost use Rattle.std.specs.Prelude.{◌≡◌, ◌+◌, ◌≤◌, ◌<◌, ◌^◌};
ghost use Rattle.laws.specs.Num.{num};
ghost use Rattle.fields.specs.Bits.{bit_of};

// The bit that stands ahead bits after a place, 0 past the bytes.
pub fn bit_after(bytes: &[u8], place: usize, ahead: usize) -> u32
    requires { ahead < 2 ^ 32 }
    ensures { (result ≡ bit_of bytes.now (place + ahead)) × (result < 2) }
{
    let offset = place % 8 + ahead;
    let byte = place / 8 + offset / 8;
    if byte < bytes.len() {
        (u32::from(bytes[byte]) >> (7 - offset % 8)) % 2
    } else {
        0
    }
}

// The number that up to 7 bits from a place make.
pub fn number_at(bytes: &[u8], place: usize, width: usize) -> u32
    requires { width ≤ 7 }
    ensures { (result ≡ num (bit_of bytes.now) place width) × (result < 128) }
{
    let mut made = 0;
    for t in 0..width {
        made = 2 * made + bit_after(bytes, place, t);
    }
    made
}
