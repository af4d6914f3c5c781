// Tables of text: rows that end with a line's end, with digits at their columns.

#![tactic(auto)]

ghost use Rattle.std.specs.Prelude.{◌≡◌, ◌+◌, ◌%◌, ◌<◌, ◌==◌, drop};
ghost use Rattle.std.specs.Fn.{FnReturnsAt};
ghost use Rattle.std.specs.List.{position};
ghost use Rattle.tables.specs.Table.{row_length, rows, EachRowGives, digit_value, digit_at, hex_from};

use std::io;

// Where the first line's end stands.
fn line_end(bytes: &[u8]) -> Option<usize>
    ensures { result ≡ position (λ b. b == 10) bytes.now }
{
    bytes.iter().position(|&b| b == b'\n')
}

// Where the row that starts at a place ends: at the next line's end, or with the table.
#[tactic(auto, using(crate::proofs::Tables::row_is))]
pub fn row_end(table: &[u8], from: usize) -> usize
    ensures { result ≡ from + row_length (drop from table.now) }
{
    let rows = table.get(from..).unwrap_or(&[]);
    from + line_end(rows).unwrap_or(rows.len())
}

// Does something with each row, one after the other, and stops with the first error.
pub fn for_each_row<F: Fn(&[u8]) -> io::Result<()>>(table: &[u8], case: F) -> io::Result<()>
    requires { F.IsAlwaysCallable case }
    ensures { EachRowGives (FnReturnsAt F.Fn case) (rows table.now) result }
{
    let mut at = 0;
    loop {
        let end = row_end(table, at);
        if table.len() <= end {
            return Ok(());
        }
        case(&table[at..end])?;
        at = end + 1;
    }
}

// The value of a digit: 0 to 9, then a for 10, b for 11 and so on.
#[tactic(auto, unfolding(crate::specs::Table::digit_value, laws::specs::Test::pick))]
fn digit(b: u8) -> u32
    ensures { (result ≡ digit_value b) × (result < 256) }
{
    match b {
        0..b'0' => 0,
        b'0'..b'a' => u32::from(b - b'0'),
        b'a'.. => u32::from(b - b'a') + 10,
    }
}

// The digit at a column of a row, from 0.
#[tactic(auto, unfolding(crate::specs::Table::digit_at))]
pub fn digit_at(row: &[u8], column: usize) -> u32
    ensures { (result ≡ digit_at row.now column) × (result < 256) }
{
    digit(row.get(column).copied().unwrap_or(0))
}

// The number of this many hexadecimal digits from a column on. Of more than 16 the last ones count.
pub fn hex_at(row: &[u8], column: u32, digits: u32) -> u64
    ensures { result ≡ hex_from row.now column digits 0 }
{
    let mut value = 0u64;
    for i in 0..digits {
        let next = digit_at(row, column as usize + i as usize) % 16;
        value = value % 0x1000_0000_0000_0000 * 16 + u64::from(next);
    }
    value
}

// The byte of two hexadecimal digits from a column on.
pub fn byte_at(row: &[u8], column: u32) -> u8
    ensures { result ≡ hex_from row.now column 2 0 % 256 }
{
    (hex_at(row, column, 2) % 256) as u8
}
