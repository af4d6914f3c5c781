// The pairs i < j in row order: how many there are, and the number of each. What is defined of them stands in specs/, and the
// laws in proofs/. Those of this file are for the crates of this project; a caller has checked what a function asks of it.

#![tactic(auto)]

pub mod vertices;

ghost use Rattle.std.specs.Prelude.{◌≡◌, ◌*◌, ◌≤◌};
ghost use Rattle.pairs.specs.Pairs.{pair_count, number};

// The product of two small numbers.
pub fn product(a: u32, b: u32) -> u32
    requires { (a ≤ 64) × (b ≤ 64) }
    ensures { (result ≡ a * b) × (result ≤ 4096) }
{
    a * b
}

// How many pairs there are.
pub fn pair_count(order: u32) -> u32
    requires { (1 ≤ order) × (order ≤ 32) }
    ensures { (result ≡ pair_count order) × (result ≤ 2048) }
{
    product(order, order - 1) / 2
}

// The number of the pair (i, j).
pub fn number_of(order: u32, i: u32, j: u32) -> u32
    requires { (1 ≤ i) × (i ≤ j) × (j ≤ order) × (order ≤ 32) }
    ensures { (result ≡ number order i j) × (result ≤ 4096) }
{
    product(i - 1, 2 * order - i) / 2 + (j - i)
}
