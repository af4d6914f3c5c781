// A record holds a graph in bits, the most significant of a byte first: 6 bits of order, a bit for each vertex from 2
// on that says whether it starts a block, 2 bits for each pair in row order, and zero bits to the end of the byte.

#![tactic(auto)]

pub mod layout;

ghost use Rattle.std.specs.Prelude.{◌≡◌};
ghost use Rattle.record.specs.Answers.{size_answer};

use layout::byte_count;
use pairs::vertices::order_fits;
use refusal::Refusal;

// How many bytes the record of a graph of this order takes. Refuses 2 for an order outside 1..32, with the order.
pub fn size(order: u32) -> Result<usize, Refusal>
    ensures { result ≡ size_answer order }
{
    if order_fits(order) {
        Ok(byte_count(order))
    } else {
        Err(Refusal::Order { order })
    }
}
