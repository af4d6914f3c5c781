// Whether rows and block starts are those of a graph.
ghost use Rattle.std.specs.Prelude.{◌≡◌, ◌-◌, ◌≤◌, ◌^◌, leb};
ghost use Rattle.laws.specs.UpTo.{all_up_to};
ghost use Rattle.laws.specs.Test.{pick};
ghost use Rattle.rows.specs.Fits.{row_fits, starts_fit};
ghost use Rattle.rows.specs.Standing.{fault, row_fault, row_stands};

use words::turned::{Rows, transposed_of};
use words::{limit_of, power, wide, without};

// What row i is a part of: the vertices up to the order, and none past it.
fn row_limit(order: u32, i: u32) -> u32
    requires { order ≤ 32 }
    ensures { result ≡ 2 ^ pick (leb i order) order 0 - 1 }
{
    if i <= order {
        return (limit_of(order) - 1) as u32;
    }
    0
}

// The bits in which the row e of edges or the row u of unknowns is not its column, that both have, that stand on the
// diagonal, or that lie outside.
fn fault_of(e: u32, u: u32, f: u32, v: u32, diagonal: u32, inside: u32) -> u32
    ensures { result ≡ fault e u f v diagonal inside }
{
    let some = e | u;
    (e ^ f) | (u ^ v) | (e & u) | (some & diagonal) | without(some, inside)
}

// The faults of row i, beside the columns.
fn row_fault(order: u32, rows: Rows, columns: Rows, i: u32) -> u32
    requires { (order ≤ 32) × (1 ≤ i) × (i ≤ 32) }
    ensures { result ≡ row_fault order rows.entry.edges.now rows.entry.unknowns.now columns.entry.edges.now columns.entry.unknowns.now i }
{
    let k = (i - 1) as usize;
    let diagonal = power(i - 1);
    let inside = row_limit(order, i);
    fault_of(
        rows.edges[k],
        rows.unknowns[k],
        columns.edges[k],
        columns.unknowns[k],
        diagonal,
        inside,
    )
}

// Is no row at fault?
fn rows_stand(order: u32, rows: Rows, columns: Rows) -> bool
    requires { order ≤ 32 }
    ensures { result ≡ all_up_to (row_stands order rows.entry.edges.now rows.entry.unknowns.now columns.entry.edges.now columns.entry.unknowns.now) 32 }
{
    let mut faults = 0u32;
    for i in 0..32 {
        faults |= row_fault(order, rows, columns, i + 1);
    }
    faults == 0
}

// Does every row fit?
pub fn rows_fit(order: u32, rows: Rows) -> bool
    requires { order ≤ 32 }
    ensures { result ≡ all_up_to (row_fits order rows.entry.edges.now rows.entry.unknowns.now) 32 }
{
    let columns = transposed_of(rows);
    rows_stand(order, rows, columns.lend())
}

// Does vertex 1 start a block, and lies no start past the order?
pub fn starts_fit(order: u32, starts: u32) -> bool
    requires { order ≤ 32 }
    ensures { result ≡ starts_fit order starts }
{
    if starts % 2 == 1 {
        return wide(starts) < limit_of(order);
    }
    false
}
