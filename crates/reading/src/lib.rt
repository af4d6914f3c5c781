// Reading records: how many bytes one takes, its graph, and the bytes that follow it.

#![tactic(auto)]

mod held;
mod lines;
mod parts;
mod refused;

ghost use Rattle.std.specs.Prelude.{◌≡◌, ◌≤◌, true, false, leb, length, MatchResult};
ghost use Rattle.fields.specs.Bits.{bit_of};
ghost use Rattle.record.specs.Reading.{order_in, graph_in};
ghost use Rattle.record.specs.Answers.{record_at, read_answer, rest_of, rest_place};
ghost use Rattle.refusal.specs.Numbers.{value_told};

use graph::Graph;
use held::Held;
use parts::order_of;
use record::size;
use refusal::Refusal;
use words::turned::mirror;

// Refuses fewer bytes than are needed.
fn check_given(bytes: &[u8], needed: usize) -> Result<(), Refusal>
    ensures { MatchResult result (λ _. leb needed (length bytes.now) ≡ true) (λ e. (leb needed (length bytes.now) ≡ false) × (e ≡ Refusal.PastTheBytes (length bytes.now))) }
{
    if needed <= bytes.len() {
        Ok(())
    } else {
        Err(Refusal::PastTheBytes { given: bytes.len() })
    }
}

// How many bytes the record at the start of these takes, or why it is refused, as reading refuses.
pub fn record_at(bytes: &[u8]) -> Result<usize, Refusal>
    ensures { (result ≡ record_at bytes.now) × (value_told 0 result ≤ length bytes.now) }
{
    check_given(bytes, 1)?;
    let order = order_of(bytes);
    let whole = size(order)?;
    check_given(bytes, whole)?;
    let held = Held { bytes, order };
    held.check_entries()?;
    held.check_pad()?;
    Ok(whole)
}

// The graph of a record that was checked.
#[inline(never)]
fn graph_of(bytes: &[u8]) -> Graph
    requires { (1 ≤ order_in (bit_of bytes.now)) × (order_in (bit_of bytes.now) ≤ 32) }
    ensures { result ≡ graph_in (bit_of bytes.now) }
{
    let order = order_of(bytes);
    let held = Held { bytes, order };
    let mut unknowns = [0u32; 32];
    let mut edges = [0u32; 32];
    held.fill_lines(&mut unknowns, &mut edges);
    mirror(&mut edges, &mut unknowns);
    let starts = held.starts();
    Graph {
        order,
        edges,
        unknowns,
        starts,
    }
}

// The graph whose record these bytes begin with.
// Refuses 1 for no byte, with the number of bytes; 2 for an order outside 1..32, with the order; 1 for a record that runs
// past the bytes, with their number; 3 for an entry 11, with the number of the first such pair; 4 for a pad bit 1.
pub fn read(bytes: &[u8]) -> Result<Graph, Refusal>
    ensures { result ≡ read_answer bytes.now }
{
    record_at(bytes)?;
    Ok(graph_of(bytes))
}

// The part of these same bytes that follows the record at their start, all of them where reading it refuses.
pub fn rest(bytes: &[u8]) -> &[u8]
    ensures { (result.now ≡ rest_of bytes.now) × (result.ref_ptr ≡ rest_place bytes.entry) }
{
    let taken = record_at(bytes).unwrap_or(0);
    &bytes[taken..]
}
