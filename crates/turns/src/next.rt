// The pair that is compared after another one, in the order that a mode names.
ghost use Rattle.std.specs.Prelude.{◌≡◌, ◌≤◌, ◌<◌, IfSome};
ghost use Rattle.pairs.specs.Pairs.{pair};
ghost use Rattle.turns.specs.Next.{rows_after, columns_after, pairs_after, starting_at, spot_pair};

use crate::spot::Spot;

// The next pair by rows.
fn next_by_rows(n: u32, at: Spot) -> Option<Spot>
    requires { (at.column ≤ n) × (n ≤ 32) }
    ensures { (rows_after n (pair at.row at.column) ≡ starting_at (rows_after n) (spot_pair result)) × IfSome result (λ s. s.column ≤ n) }
{
    let Spot { row, column } = at;
    if column < n {
        return Some(Spot {
            row,
            column: column + 1,
        });
    }
    if row + 1 < n {
        return Some(Spot {
            row: row + 1,
            column: row + 2,
        });
    }
    None
}

// The next pair by columns.
fn next_by_columns(n: u32, at: Spot) -> Option<Spot>
    requires { (at.column ≤ n) × (n ≤ 32) }
    ensures { (columns_after n (pair at.row at.column) ≡ starting_at (columns_after n) (spot_pair result)) × IfSome result (λ s. s.column ≤ n) }
{
    let Spot { row, column } = at;
    if row + 1 < column {
        return Some(Spot {
            row: row + 1,
            column,
        });
    }
    if column < n {
        return Some(Spot {
            row: 1,
            column: column + 1,
        });
    }
    None
}

// The pair that is compared after another one, if any.
pub fn next_pair(mode: u32, n: u32, at: Spot) -> Option<Spot>
    requires { (at.column ≤ n) × (n ≤ 32) }
    ensures { (pairs_after mode n (pair at.row at.column) ≡ starting_at (pairs_after mode n) (spot_pair result)) × IfSome result (λ s. s.column ≤ n) }
{
    if mode == 2 {
        return next_by_columns(n, at);
    }
    next_by_rows(n, at)
}
