// The record of a graph, written part by part.
ghost use Rattle.std.specs.Prelude.{◌≡◌, ◌++◌, ◌+◌, ◌-◌, ◌*◌, ◌≤◌, ◌<◌, length, drop};
ghost use Rattle.rows.specs.Rows.{start_at};
ghost use Rattle.graph.specs.Lent.{lent};
ghost use Rattle.laws.specs.Bit.{bit};
ghost use Rattle.laws.specs.Num.{num};
ghost use Rattle.record.specs.Layout.{bit_count, byte_count, cell};
ghost use Rattle.record.specs.Writing.{record_of};
ghost use Rattle.writing.specs.Reached.{Reached};
ghost use Rattle.writing.specs.Along.{along};

use graph::{FormedGraph, LentGraph};
use pen::{Pen, store};

// 1 where vertex v starts a block.
fn start_of(starts: u32, v: u32) -> u64
    requires { (1 ≤ v) × (v ≤ 32) }
    ensures { (result ≡ start_at starts v) × (result < 2) }
{
    u64::from((starts >> (v - 1)) % 2)
}

// The starts of the vertices from 2 on as one number.
fn starts_of(starts: u32, order: u32) -> u64
    requires { (1 ≤ order) × (order ≤ 32) }
    ensures { result ≡ num (start_at starts) 2 (order - 1) }
{
    let mut made = 0;
    for t in 0..order - 1 {
        made = 2 * made + start_of(starts, 2 + t);
    }
    made
}

// The entry at column j of a row of edges and a row of unknowns.
fn entry_of(e: u32, u: u32, j: u32) -> u64
    requires { (1 ≤ j) × (j ≤ 32) }
    ensures { (result ≡ bit e (j - 1) + 2 * bit u (j - 1)) × (result ≤ 3) }
{
    u64::from((e >> (j - 1)) % 2 + 2 * ((u >> (j - 1)) % 2))
}

// The entries of so many columns after column i as one number.
fn entries_of(e: u32, u: u32, i: u32, count: u32) -> u64
    requires { (i + count ≤ 32) × (count ≤ 31) }
    ensures { result ≡ along e u i count }
{
    let mut made = 0;
    for t in 0..count {
        made = 4 * made + entry_of(e, u, i + t + 1);
    }
    made
}

// The entries of all rows.
fn put_rows(graph: LentGraph, out: &mut [u8], pen: Pen) -> Pen
    requires { (1 ≤ graph.order) × (graph.order ≤ 32) × Reached (lent graph) out.old out.old pen (cell graph.order 1 2) }
    ensures { Reached (lent graph.entry) out.old out.new result (bit_count graph.entry.order) × (pen.stored ≤ result.stored) }
{
    let LentGraph { order, rows, .. } = graph;
    let mut at = pen;
    for i in 1..order {
        let k = (i - 1) as usize;
        let entries = entries_of(rows.edges[k], rows.unknowns[k], i, order - i);
        at = at.push(out, entries, 2 * (order - i));
    }
    at
}

// Writes the record of the graph at the start of out.
pub fn put(formed: FormedGraph, out: &mut [u8])
    requires { byte_count formed.graph.order ≤ length out.old }
    ensures { out.new ≡ record_of (lent formed.entry.graph) ++ drop (byte_count formed.entry.graph.order) out.old }
{
    let LentGraph { order, starts, .. } = formed.graph;
    let ordered = Pen {
        stored: 0,
        have: 6,
        kept: u64::from(order),
    };
    let bits = starts_of(starts, order);
    let started = ordered.push(out, bits, order - 1);
    let done = put_rows(formed.graph, out, started);
    let word = (done.kept << (63 - done.have)) * 2;
    store(out, done.stored, word, ((done.have + 7) / 8) as usize);
}
