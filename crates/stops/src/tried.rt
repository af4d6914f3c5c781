// A vertex tried at a place.
ghost use Rattle.std.specs.Prelude.{◌≡◌, ◌+◌, ◌-◌, ◌≤◌, ◌<◌};
ghost use Rattle.laws.specs.Bit.{bit};
ghost use Rattle.arrangements.specs.Arrangement.{at};
ghost use Rattle.pairs.specs.Pairs.{from_row};
ghost use Rattle.plain.specs.Before.{row_before};
ghost use Rattle.turns.specs.Turn.{turn_code};
ghost use Rattle.turns.specs.Turns.{turn_at, walk_code, Places};
ghost use Rattle.stops.specs.Stops.{one_at};
ghost use Rattle.stops.specs.Tried.{tried_by};

use crate::stops::one_at;
use arrangements::places::vertex_at;
use row_walks::later::rows_walk;
use turns::turn::Turn;
use turns::walked::Path;

// How the beginning is judged that ends at place k with the vertex at bit v, by the stops of that place and the edges and
// unknowns of row 1.
pub fn tried(
    path: Path,
    n: u32,
    ones: u32,
    doubts: u32,
    stops: u32,
    used: u32,
    v: u32,
    k: u32,
) -> Turn
    requires { (n ≤ 32) × (v < 32) × (1 ≤ k) × (k ≤ 32) × (n ≤ k → Places n path.vertices.now path.places.now) }
    ensures { turn_code result ≡ tried_by (bit stops v) (one_at ones doubts used (at path.entry.vertices.now 1) k) (walk_code (turn_at row_before path.entry.rows.edges.now path.entry.rows.unknowns.now path.entry.vertices.now path.entry.places.now) (from_row 2 (n - 2))) k n }
{
    if (stops >> v) % 2 == 1 {
        let first = vertex_at(path.vertices, 1);
        if one_at(ones, doubts, used, first, k) == 1 {
            return Turn::Won;
        }
        return Turn::Lost;
    }
    if k < n {
        return Turn::Open;
    }
    if rows_walk(path, n).is_won() {
        return Turn::Won;
    }
    Turn::Lost
}
