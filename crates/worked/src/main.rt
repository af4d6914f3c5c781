// Runs the worked graphs of the rules, and each refusal of a library, and writes what came of it. The cases are a table
// on standard input, a row for each: the letter of its kind; from column 2 on, in hexadecimal, how many bytes its
// record has, from column 5 on the first six of them, with zeros after, and from column 18 on a budget; from column 27
// on other numbers, each a digit: the mode of a judgement, or what else its kind has, with an arrangement from column 28
// on; from column 32 on its name. A digit is 0 to 9, then a for 10 and so on.

#![tactic(auto)]

use graph::Graph;
use input::read_full;
use judging::Judged;
use refusal::{Refusal, told};
use show::{byte, from_column, text};
use std::io;
use std::io::Print;
use tables::{byte_at, digit_at, for_each_row, hex_at};
use text::parts::first;

// ---- what a row holds

fn bytes(row: &[u8]) -> [u8; 130] {
    let mut whole = [0u8; 130];
    for k in 0..6u32 {
        whole[k as usize] = byte_at(row, 5 + 2 * k);
    }
    whole
}

fn budget(row: &[u8]) -> u32 {
    (hex_at(row, 18, 8) % 4294967296) as u32
}

fn vertex(row: &[u8], column: usize) -> u8 {
    digit_at(row, column) as u8
}

// The vertices at places 1 to 3.
fn arrangement(row: &[u8]) -> [u8; 32] {
    let mut p = [0u8; 32];
    p[0] = vertex(row, 28);
    p[1] = vertex(row, 29);
    p[2] = vertex(row, 30);
    p
}

// ---- judging and writing

// The line of the listing for a judged graph.
fn show(to: &impl Print, order: u32, judged: Judged, literals: &[i32]) -> io::Result<()> {
    let mut out = [0u8; 4096];
    let used = line::line(&mut out, 1, order, judged, literals);
    text(to, b" ")?;
    text(to, &out[..used])
}

fn judge(to: &impl Print, graph: Graph, mode: u32, budget: u32) -> io::Result<()> {
    let mut literals = [0i32; 496];
    let judged = search::judge(&graph, mode, budget, &mut literals);
    show(to, graph.order, judged, &literals)
}

// Judging with room for 495 literals.
fn judge_cramped(to: &impl Print, graph: Graph, mode: u32, budget: u32) -> io::Result<()> {
    let mut few = [0i32; 495];
    let judged = search::judge(&graph, mode, budget, &mut few);
    show(to, graph.order, judged, &few)
}

// Judging without a block start.
fn malformed(to: &impl Print, mut graph: Graph, mode: u32) -> io::Result<()> {
    graph.starts = 0;
    judge(to, graph, mode, 1000000)
}

// The record of one or two bytes that writing gives.
fn write(to: &impl Print, graph: Graph) -> io::Result<()> {
    let mut out = [0u8; 129];
    let written = writing::write(&graph, &mut out).unwrap_or_default();
    text(to, b" record")?;
    byte(to, out[0])?;
    if 1 < written {
        byte(to, out[1])?;
    }
    text(to, b"\n")
}

// ---- refusals

// The refusal of an answer, or zeros.
fn show_told<T>(to: &impl Print, answer: &Result<T, Refusal>) -> io::Result<()> {
    let (number, place) = told(answer);
    println!(to; " refusal {number}, place {place}")
}

fn read(to: &impl Print, bytes: &[u8]) -> io::Result<()> {
    show_told(to, &reading::read(bytes))
}

fn field(to: &impl Print, bytes: &[u8], place: u32, width: u32) -> io::Result<()> {
    show_told(to, &fields::field(bytes, place as usize, width))
}

// Writing into one byte.
fn write_cramped(to: &impl Print, graph: Graph) -> io::Result<()> {
    let mut out = [0u8; 1];
    show_told(to, &writing::write(&graph, &mut out))
}

fn entry(to: &impl Print, graph: Graph, i: u32, j: u32) -> io::Result<()> {
    show_told(to, &graph.read(i, j))
}

fn degree(to: &impl Print, graph: Graph, v: u32) -> io::Result<()> {
    show_told(to, &graph.count_at(v))
}

fn set(to: &impl Print, graph: Graph, i: u32, j: u32, value: u32) -> io::Result<()> {
    let answer = graph.set(i, j, value);
    show_told(to, &answer.map_err(|unset| unset.refusal))
}

fn relabel(to: &impl Print, graph: Graph, p: [u8; 32]) -> io::Result<()> {
    show_told(to, &graph.relabel(p))
}

fn compose(to: &impl Print, order: u32, p: [u8; 32]) -> io::Result<()> {
    show_told(to, &composing::compose(order, p, p))
}

fn invert(to: &impl Print, order: u32, p: [u8; 32]) -> io::Result<()> {
    show_told(to, &composing::invert(order, p))
}

// ---- the cases

// The cases that have a graph.
fn case_of(to: &impl Print, row: &[u8], kind: u8, graph: Graph) -> io::Result<()> {
    match kind {
        b'j' => judge(to, graph, digit_at(row, 27), budget(row)),
        b'k' => judge_cramped(to, graph, digit_at(row, 27), budget(row)),
        b'm' => malformed(to, graph, digit_at(row, 27)),
        b'w' => write(to, graph),
        b'o' => write_cramped(to, graph),
        b'e' => entry(to, graph, digit_at(row, 27), digit_at(row, 28)),
        b'd' => degree(to, graph, digit_at(row, 27)),
        b's' => set(
            to,
            graph,
            digit_at(row, 27),
            digit_at(row, 28),
            digit_at(row, 29),
        ),
        _ => relabel(to, graph, arrangement(row)),
    }
}

fn case(to: &impl Print, row: &[u8]) -> io::Result<()> {
    if row.is_empty() {
        return Ok(());
    }
    from_column(to, row, 32)?;
    text(to, b":")?;
    let whole = bytes(row);
    let given = first(&whole, hex_at(row, 2, 2) as usize);
    let kind = row[0];
    match kind {
        b'r' => read(to, given),
        b'f' => field(to, given, digit_at(row, 27), digit_at(row, 28)),
        b'c' => compose(to, digit_at(row, 27), arrangement(row)),
        b'i' => invert(to, digit_at(row, 27), arrangement(row)),
        _ => case_of(to, row, kind, reading::read(given).unwrap_or_default()),
    }
}

fn main(rt: HostRuntime) -> io::Result<()> {
    let mut table = [0u8; 65536];
    let given = read_full(&mut rt.reader(), &mut table)?;
    for_each_row(&table[..given], |row| case(&rt, row))
}
