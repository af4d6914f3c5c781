// The checker as C, C++ and Rust link it. Each call works on memory that the caller lends for the call, and keeps nothing.
// An answer is one number: bits 0..31 the steps, or the place of a refusal; 32..37 the row and 38..43 the column of the
// winning pair; 44..52 how many literals were written; 56..63 the code: 0 none, 1 smaller, 2 cut, 128 and the number of a
// refusal.

#![tactic(auto)]

ghost use Rattle.std.specs.Prelude.{◌≡◌, length};
ghost use Rattle.record.specs.Answers.{record_at, write_answer, buffer_after};
ghost use Rattle.judging.specs.Answer.{judge_answer, judge_buffer};
ghost use Rattle.packing.specs.Packing.{packed, counted};
ghost use Rattle.packing.specs.Telling.{arranged_after};
ghost use Rattle.cafruzek.specs.Answers.{judge_record, judge_record_buffer};
ghost use Rattle.graph.specs.Graph.{graph_of};
ghost use Rattle.graph.specs.Lent.{lent};

use graph::{FormedGraph, LentGraph};
use packing::{counted, refused, tell};
use search::{judge_formed, judge_rows};
use words::turned::Rows;

// The graph of these rows.
fn lent<'a>(order: u32, edges: &'a [u32; 32], unknowns: &'a [u32; 32], starts: u32) -> LentGraph<'a>
    ensures { lent result ≡ graph_of order edges.now unknowns.now starts }
{
    LentGraph {
        order,
        rows: Rows { edges, unknowns },
        starts,
    }
}

// Judges the graph of the record that the bytes begin with, by rows in mode 1 and by columns in mode 2; bytes after it are
// ignored. A reading that is refused is the answer. "Smaller" writes the clause at the start of literals and the
// certificate to arrangement; no other answer changes anything.
#[unsafe(no_mangle)]
pub extern "C" fn cafruzek_judge_record<'a, 'b, 'c>(
    bytes: &'a [u8],
    mode: u32,
    budget: u32,
    literals: &'b mut [i32],
    arrangement: &'c mut [u8; 32],
) -> u64
    ensures { (result ≡ packed (judge_record mode bytes.now budget (length literals.old))) × (literals.new ≡ judge_record_buffer mode bytes.now budget literals.old) × (arrangement.new ≡ arranged_after (judge_record mode bytes.now budget (length literals.old)) arrangement.old) }
{
    let graph = match reading::read(bytes) {
        Ok(graph) => graph,
        Err(refusal) => return refused(refusal.number(), refusal.place()),
    };
    let formed = FormedGraph {
        graph: graph.lend(),
    };
    tell(judge_formed(formed, mode, budget, literals), arrangement)
}

// Judges the graph value of these rows. It writes as cafruzek_judge_record does.
#[unsafe(no_mangle)]
pub extern "C" fn cafruzek_judge_rows<'a, 'b, 'c>(
    order: u32,
    edges: &'a [u32; 32],
    unknowns: &'a [u32; 32],
    starts: u32,
    mode: u32,
    budget: u32,
    literals: &'b mut [i32],
    arrangement: &'c mut [u8; 32],
) -> u64
    ensures { (result ≡ packed (judge_answer mode (graph_of order edges.now unknowns.now starts) budget (length literals.old))) × (literals.new ≡ judge_buffer mode (graph_of order edges.now unknowns.now starts) budget literals.old) × (arrangement.new ≡ arranged_after (judge_answer mode (graph_of order edges.now unknowns.now starts) budget (length literals.old)) arrangement.old) }
{
    let graph = lent(order, edges, unknowns, starts);
    tell(judge_rows(graph, mode, budget, literals), arrangement)
}

// Answers how many bytes the record that the bytes begin with takes, or the refusal, as reading refuses.
#[unsafe(no_mangle)]
pub extern "C" fn cafruzek_record_size(bytes: &[u8]) -> u64
    ensures { result ≡ counted (record_at bytes.now) }
{
    counted(reading::record_at(bytes))
}

// Writes the record of the graph value of these rows at the start of out, and nothing after it, and answers how many
// bytes that is. A refusal changes nothing.
#[unsafe(no_mangle)]
pub extern "C" fn cafruzek_write_record<'a, 'b>(
    order: u32,
    edges: &'a [u32; 32],
    unknowns: &'a [u32; 32],
    starts: u32,
    out: &'b mut [u8],
) -> u64
    ensures { (result ≡ counted (write_answer (graph_of order edges.now unknowns.now starts) out.old)) × (out.new ≡ buffer_after (graph_of order edges.now unknowns.now starts) out.old) }
{
    let done = writing::write_rows(lent(order, edges, unknowns, starts), out);
    counted(done)
}
