// Runs worked records and fields, and writes a line for what each call gives. The cases are a table on standard input,
// a row for each, with its numbers in hexadecimal: the letter of its kind; from column 2 on how many bytes it is given,
// and from column 6 on the first five of them, with zeros after; from column 17 on a place, an order or a room; at
// column 34 a width; from column 36 on its name.

#![tactic(auto)]

use graph::Graph;
use input::read_full;
use refusal::{Refusal, told};
use show::{byte, from_column, text};
use std::io;
use std::io::Print;
use tables::{byte_at, digit_at, for_each_row, hex_at};
use text::parts::first;

// ---- what a row holds

fn bytes(row: &[u8]) -> [u8; 130] {
    let mut whole = [0u8; 130];
    for k in 0..5u32 {
        whole[k as usize] = byte_at(row, 6 + 2 * k);
    }
    whole
}

// ---- the kinds of case

// The number and the place of an answer's refusal, or zeros.
fn show_told<T>(to: &impl Print, answer: &Result<T, Refusal>) -> io::Result<()> {
    let (number, place) = told(answer);
    print!(to; " refusal {number} place {place}")
}

// The first row stands for the graph's rows.
fn show_rows(to: &impl Print, edges: u32, unknowns: u32, rest: usize) -> io::Result<()> {
    println!(to; " edges {edges} unknowns {unknowns} rest {rest}")
}

fn read(to: &impl Print, bytes: &[u8]) -> io::Result<()> {
    let answer = reading::read(bytes);
    show_told(to, &answer)?;
    let g = answer.unwrap_or_default();
    print!(to; " order {} starts {}", g.order, g.starts)?;
    show_rows(to, g.edges[0], g.unknowns[0], reading::rest(bytes).len())
}

fn field(to: &impl Print, bytes: &[u8], place: usize, width: u32) -> io::Result<()> {
    let answer = fields::field(bytes, place, width);
    show_told(to, &answer)?;
    println!(to; " value {}", answer.unwrap_or_default())
}

fn size(to: &impl Print, order: u32) -> io::Result<()> {
    let answer = record::size(order);
    show_told(to, &answer)?;
    println!(to; " bytes {}", answer.unwrap_or_default())
}

// What writing a graph into the first bytes of a buffer of four gives, and the four bytes afterwards.
fn write(to: &impl Print, graph: Graph, room: usize) -> io::Result<()> {
    if 4 < room {
        return Ok(());
    }
    let mut out = [0xffu8; 4];
    let answer = writing::write(&graph, &mut out[..room]);
    show_told(to, &answer)?;
    print!(to; " written {} buffer", answer.unwrap_or_default())?;
    for b in out {
        byte(to, b)?;
    }
    text(to, b"\n")
}

fn show(to: &impl Print, kind: u8, bytes: &[u8], number: u64, width: u32) -> io::Result<()> {
    match kind {
        b'r' => read(to, bytes),
        b'f' => field(to, bytes, number as usize, width),
        b's' => size(to, (number % 256) as u32),
        _ => write(
            to,
            reading::read(bytes).unwrap_or_default(),
            number as usize,
        ),
    }
}

fn case(to: &impl Print, row: &[u8]) -> io::Result<()> {
    if row.is_empty() {
        return Ok(());
    }
    from_column(to, row, 36)?;
    text(to, b":")?;
    let whole = bytes(row);
    let given = first(&whole, hex_at(row, 2, 3) as usize);
    show(to, row[0], given, hex_at(row, 17, 16), digit_at(row, 34))
}

// ---- the cases

fn main(rt: HostRuntime) -> io::Result<()> {
    let mut table = [0u8; 65536];
    let given = read_full(&mut rt.reader(), &mut table)?;
    for_each_row(&table[..given], |row| case(&rt, row))
}
