// A vertex tried at a place, in the order that a mode names.
ghost use Rattle.std.specs.Prelude.{◌≡◌, ◌+◌, ◌-◌, ◌≤◌, ◌<◌, eqb};
ghost use Rattle.laws.specs.Test.{pick};
ghost use Rattle.laws.specs.Bit.{bit};
ghost use Rattle.arrangements.specs.Arrangement.{at};
ghost use Rattle.pairs.specs.Pairs.{from_row};
ghost use Rattle.pairs.specs.Columns.{down_column};
ghost use Rattle.plain.specs.Before.{row_before};
ghost use Rattle.turns.specs.Turn.{turn_code};
ghost use Rattle.turns.specs.Turns.{turn_at, walk_code, Within, Places};
ghost use Rattle.stops.specs.Stops.{one_at};
ghost use Rattle.stops.specs.Tried.{tried_by};
ghost use Rattle.column_walks.specs.Columns.{turn_in_column, tried_down};

use crate::column::column_walk;
use stops::tried::tried;
use turns::turn::Turn;
use turns::walked::Path;

// How the beginning of length k is judged by columns, by the walk down column k.
fn tried_down(path: Path, n: u32, used: u32, k: u32) -> Turn
    requires { (1 ≤ k) × (k ≤ n) × (n ≤ 32) × Within k path.vertices.now }
    ensures { turn_code result ≡ tried_down (walk_code (turn_in_column path.entry.rows.edges.now path.entry.rows.unknowns.now path.entry.vertices.now path.entry.places.now used) (down_column k (k - 1))) k n }
{
    if k < n {
        return column_walk(path, used, k);
    }
    let turn = column_walk(path, used, n);
    if turn.is_open() {
        return Turn::Lost;
    }
    turn
}

// How the beginning is judged that ends at place k with the vertex at bit v: by rows as `tried` judges it, where the vertices
// before it are in use, and by columns as its own column does, with it.
pub fn tried_in(
    mode: u32,
    path: Path,
    n: u32,
    ones: u32,
    doubts: u32,
    stops: u32,
    used: u32,
    with: u32,
    v: u32,
    k: u32,
) -> Turn
    requires { (n ≤ 32) × (v < 32) × (1 ≤ k) × (k ≤ n) × Within k path.vertices.now × (n ≤ k → Places n path.vertices.now path.places.now) }
    ensures { turn_code result ≡ pick (eqb mode 2) (tried_down (walk_code (turn_in_column path.entry.rows.edges.now path.entry.rows.unknowns.now path.entry.vertices.now path.entry.places.now with) (down_column k (k - 1))) k n) (tried_by (bit stops v) (one_at ones doubts used (at path.entry.vertices.now 1) k) (walk_code (turn_at row_before path.entry.rows.edges.now path.entry.rows.unknowns.now path.entry.vertices.now path.entry.places.now) (from_row 2 (n - 2))) k n) }
{
    if mode == 2 {
        return tried_down(path, n, with, k);
    }
    tried(path, n, ones, doubts, stops, used, v, k)
}
