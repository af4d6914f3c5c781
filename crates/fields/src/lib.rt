// Fields of bits in the caller's bytes, the most significant bit of a byte first, and a reader that keeps its bit place.

#![tactic(auto)]

pub mod bits;
pub mod reader;

ghost use Rattle.std.specs.Prelude.{◌≡◌};
ghost use Rattle.fields.specs.Field.{field_answer};

use bits::number_at;
use refusal::Refusal;

// The 1 to 6 bits at a bit place, most significant first, as a number.
// Refuses 12 for another width, then 1 for a field that runs past the bytes, with the number of bytes.
pub fn field(bytes: &[u8], place: usize, width: u32) -> Result<u32, Refusal>
    ensures { result ≡ field_answer bytes.now place width }
{
    if !(1..=6).contains(&width) {
        return Err(Refusal::Width);
    }
    let last = place / 8 + (place % 8 + (width as usize - 1)) / 8;
    if last < bytes.len() {
        Ok(number_at(bytes, place, width as usize))
    } else {
        Err(Refusal::PastTheBytes { given: bytes.len() })
    }
}
