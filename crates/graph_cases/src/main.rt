// Shows the refusals of graph and of composing in the order of their checks: a line for each case, good and bad input
// side by side, with the refusal's number, its place and the values beside it. The cases are a table on standard input,
// a row for each: the letter of its kind; from column 2 on the graph by its order, its starts and the first three rows
// of edges and of unknowns; from column 11 on the other numbers; from column 20 on its name. A number is a digit: 0 to
// 9, then a for 10 and so on.

#![tactic(auto)]

use graph::{Graph, Totals};
use input::read_full;
use refusal::{Refusal, told};
use show::{from_column, text};
use std::io;
use std::io::Print;
use tables::{digit_at, for_each_row};

// ---- what a row holds

fn graph(row: &[u8]) -> Graph {
    let mut g = Graph {
        order: digit_at(row, 2),
        edges: [0u32; 32],
        unknowns: [0u32; 32],
        starts: digit_at(row, 3),
    };
    g.edges[0] = digit_at(row, 4);
    g.edges[1] = digit_at(row, 5);
    g.edges[2] = digit_at(row, 6);
    g.unknowns[0] = digit_at(row, 7);
    g.unknowns[1] = digit_at(row, 8);
    g.unknowns[2] = digit_at(row, 9);
    g
}

fn vertex(row: &[u8], column: usize) -> u8 {
    digit_at(row, column) as u8
}

// The vertices at places 1 to 4, from a column on.
fn arrangement(row: &[u8], column: u32) -> [u8; 32] {
    let at = column as usize;
    let mut p = [0u8; 32];
    p[0] = vertex(row, at);
    p[1] = vertex(row, at + 1);
    p[2] = vertex(row, at + 2);
    p[3] = vertex(row, at + 3);
    p
}

// ---- what is printed

// The number and the place of an answer's refusal, or zeros.
fn show_told<T>(to: &impl Print, answer: &Result<T, Refusal>) -> io::Result<()> {
    let (number, place) = told(answer);
    print!(to; " refusal {number}, place {place}")
}

// Rows 1, 2 and 3 of a graph of order 3.
fn show_graph(to: &impl Print, graph: Graph) -> io::Result<()> {
    let [e, f, g, ..] = graph.edges;
    let [u, v, w, ..] = graph.unknowns;
    print!(to; ", order {}, starts {}", graph.order, graph.starts)?;
    println!(to; ", edges {e} {f} {g}, unknowns {u} {v} {w}")
}

// Places 1 to 4.
fn show_arrangement(to: &impl Print, answer: Result<[u8; 32], Refusal>) -> io::Result<()> {
    show_told(to, &answer)?;
    let [a, b, c, d, ..] = answer.unwrap_or_default();
    println!(to; ", vertices {a} {b} {c} {d}")
}

// ---- the kinds of case

fn formed(to: &impl Print, row: &[u8]) -> io::Result<()> {
    if graph(row).is_well_formed() {
        println!(to; " well formed")
    } else {
        println!(to; " not well formed")
    }
}

fn read(to: &impl Print, row: &[u8]) -> io::Result<()> {
    let answer = graph(row).read(digit_at(row, 11), digit_at(row, 12));
    show_told(to, &answer)?;
    println!(to; ", value {}", answer.unwrap_or_default())
}

fn set(to: &impl Print, row: &[u8]) -> io::Result<()> {
    let answer = graph(row).set(digit_at(row, 11), digit_at(row, 12), digit_at(row, 13));
    show_told(to, &answer.map_err(|unset| unset.refusal))?;
    match answer {
        Ok(graph) => show_graph(to, graph),
        Err(unset) => show_graph(to, unset.graph),
    }
}

fn count(to: &impl Print, row: &[u8]) -> io::Result<()> {
    let answer = graph(row).count();
    show_told(to, &answer)?;
    let Totals {
        edges,
        non_edges,
        unknowns,
    } = answer.unwrap_or_default();
    println!(to; ", edges {edges}, non-edges {non_edges}, unknowns {unknowns}")
}

fn count_at(to: &impl Print, row: &[u8]) -> io::Result<()> {
    let answer = graph(row).count_at(digit_at(row, 11));
    show_told(to, &answer)?;
    println!(to; ", edges {}", answer.unwrap_or_default())
}

fn relabel(to: &impl Print, row: &[u8]) -> io::Result<()> {
    let answer = graph(row).relabel(arrangement(row, 11));
    show_told(to, &answer)?;
    show_graph(to, answer.unwrap_or_default())
}

fn compose(to: &impl Print, row: &[u8]) -> io::Result<()> {
    show_arrangement(
        to,
        composing::compose(digit_at(row, 2), arrangement(row, 11), arrangement(row, 15)),
    )
}

fn invert(to: &impl Print, row: &[u8]) -> io::Result<()> {
    show_arrangement(
        to,
        composing::invert(digit_at(row, 2), arrangement(row, 11)),
    )
}

fn case(to: &impl Print, row: &[u8]) -> io::Result<()> {
    if row.len() == 0 {
        return Ok(());
    }
    from_column(to, row, 20)?;
    text(to, b":")?;
    let kind = row[0];
    match kind {
        b'f' => formed(to, row),
        b'r' => read(to, row),
        b's' => set(to, row),
        b't' => count(to, row),
        b'd' => count_at(to, row),
        b'l' => relabel(to, row),
        b'c' => compose(to, row),
        _ => invert(to, row),
    }
}

// ---- the cases

fn main(rt: HostRuntime) -> io::Result<()> {
    let mut table = [0u8; 65536];
    let given = read_full(&mut rt.reader(), &mut table)?;
    for_each_row(&table[..given], |row| case(&rt, row))
}
