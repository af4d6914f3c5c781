// Where the parts of a record stand and how long it is, for an order in range.
ghost use Rattle.std.specs.Prelude.{◌≡◌, ◌+◌, ◌*◌, ◌≤◌};
ghost use Rattle.record.specs.Layout.{cell, bit_count, byte_count};

use pairs::{pair_count, product};

// How many bits come before the padding.
pub fn bit_count(order: u32) -> usize
    requires { (1 ≤ order) × (order ≤ 32) }
    ensures { (result ≡ bit_count order) × (result ≤ 5000) }
{
    (6 + (order - 1) + 2 * pair_count(order)) as usize
}

// How many bytes there are in all.
pub fn byte_count(order: u32) -> usize
    requires { (1 ≤ order) × (order ≤ 32) }
    ensures { (result ≡ byte_count order) × (result ≤ 1000) }
{
    (bit_count(order) + 7) / 8
}

// The place of the first entry of row i.
pub fn line_place(order: u32, i: u32) -> usize
    requires { (1 ≤ i) × (i ≤ order) × (order ≤ 32) }
    ensures { (result ≡ cell order i (i + 1)) × (result ≤ 10000) }
{
    (6 + (order - 1) + 2 * (product(i - 1, 2 * order - i) / 2)) as usize
}
