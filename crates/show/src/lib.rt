// What the programs that show cases print with: text, and numbers between its parts. None says more than that a write failed.

#![tactic(auto)]

use std::io;
use std::io::Print;

// These bytes.
pub fn text(out: &impl Print, words: &[u8]) -> io::Result<()> {
    out.write_all(words)
}

// A byte as two digits, after a space.
pub fn byte(out: &impl Print, b: u8) -> io::Result<()> {
    print!(out; " {b:02x}")
}

// A row of a table from a column on.
pub fn from_column(out: &impl Print, row: &[u8], column: usize) -> io::Result<()> {
    text(out, row.get(column..).unwrap_or(&[]))
}
