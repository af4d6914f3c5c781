// Reads the fields of a record through a reader, two at a time, to its end and past it, and writes a line for each two.

#![tactic(auto)]

use fields::reader::take_two;
use refusal::{Refusal, told};
use std::io;
use std::io::Print;

// The number and the place of a refusal, or zeros, and the value, or 0.
fn show_field(to: &impl Print, width: u32, found: Result<u32, Refusal>) -> io::Result<()> {
    let (number, place) = told(&found);
    let value = found.unwrap_or_default();
    print!(to; "; width {width}: refusal {number} place {place} value {value}")
}

// Two fields that a reader at this bit place takes. Gives the reader's place after them.
fn show_two(
    to: &impl Print,
    bytes: &[u8],
    place: usize,
    first: u32,
    second: u32,
) -> io::Result<usize> {
    let two = take_two(bytes, place, first, second);
    print!(to; "reader at {place} of {} bytes", bytes.len())?;
    show_field(to, first, two.first)?;
    show_field(to, second, two.second)?;
    println!(to; "; reader at {}", two.next)?;
    Ok(two.next)
}

fn main(rt: HostRuntime) -> io::Result<()> {
    let to = &rt;
    // order 3, vertex 3 starts a block, entries edge, unknown, non-edge; widths 0 and 7 are tried on the way
    let record = b"\x0d\x60";
    let starts = show_two(to, record, 0, 6, 0)?;
    let entries = show_two(to, record, starts, 1, 1)?;
    let second = show_two(to, record, entries, 7, 2)?;
    let pad = show_two(to, record, second, 2, 2)?;
    let end = show_two(to, record, pad, 2, 1)?;
    let past = show_two(to, record, end, 6, 1)?;
    show_two(to, record, past, 0, 7)?;

    // across the bytes' border; past the end and then up to it; from past the end
    show_two(to, record, 4, 6, 6)?;
    show_two(to, record, 12, 6, 4)?;
    show_two(to, record, 17, 1, 0)?;
    show_two(to, record, 18446744073709551615, 6, 7)?;
    show_two(to, b"", 0, 1, 0)?;
    Ok(())
}
