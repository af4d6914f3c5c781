// Writing the record of a graph.

#![tactic(auto)]

mod put;

ghost use Rattle.std.specs.Prelude.{◌≡◌};
ghost use Rattle.graph.specs.Lent.{lent};
ghost use Rattle.record.specs.Answers.{write_answer, buffer_after};

use graph::{Graph, LentGraph};
use put::put;
use record::layout::byte_count;
use refusal::Refusal;

// Writes the record of a graph whose rows are lent as `write` does. They are only read, and no graph is made of them.
pub fn write_rows(graph: LentGraph, out: &mut [u8]) -> Result<usize, Refusal>
    ensures { (result ≡ write_answer (lent graph.entry) out.old) × (out.new ≡ buffer_after (lent graph.entry) out.old) }
{
    let formed = graph.formed()?;
    let size = byte_count(graph.order);
    if out.len() < size {
        return Err(Refusal::OutputRoom);
    }
    put(formed, out);
    Ok(size)
}

// Writes the record of a graph at the start of out, and nothing after it.
// Refuses 8 for a graph that is not well formed, then 6 for a buffer below the record, each with out as it was.
pub fn write(graph: &Graph, out: &mut [u8]) -> Result<usize, Refusal>
    ensures { (result ≡ write_answer graph.now out.old) × (out.new ≡ buffer_after graph.now out.old) }
{
    write_rows(graph.lend(), out)
}
