// The walk down one column.
ghost use Rattle.std.specs.Prelude.{◌≡◌, ◌-◌, ◌≤◌, ◌<◌};
ghost use Rattle.laws.specs.Bit.{bit};
ghost use Rattle.arrangements.specs.Arrangement.{at};
ghost use Rattle.pairs.specs.Pairs.{pair};
ghost use Rattle.pairs.specs.Columns.{down_column};
ghost use Rattle.plain.specs.Plain.{pair_of_two};
ghost use Rattle.plain.specs.Before.{column_before};
ghost use Rattle.turns.specs.Turn.{turn_code};
ghost use Rattle.turns.specs.Turns.{count_by, walk_code, Within};
ghost use Rattle.column_walks.specs.Columns.{place_held, turn_down, turn_in_column};

use arrangements::places::vertex_at;
use turns::before::comes_before;
use turns::turn::Turn;
use turns::walked::{Path, count_there, row_of, turn_by};

// The place of vertex v, or 0 where it is not in use.
fn place_held(places: &[u8; 32], used: u32, v: u32) -> u32
    requires { (1 ≤ v) × (v ≤ 32) }
    ensures { result ≡ place_held used places.now v }
{
    if (used >> (v - 1)) % 2 == 1 {
        return vertex_at(places, v);
    }
    0
}

// Does the pair of s and t, of which one may be 0, come before (i, k)?
fn is_sourced(s: u32, t: u32, i: u32, k: u32) -> bool
    ensures { result ≡ column_before (pair_of_two s t) (pair i k) }
{
    if s == 0 {
        return false;
    }
    if t == 0 {
        return false;
    }
    comes_before(2, s, t, i, k)
}

// 1 where the entry at row i of column k counts as an edge, by the edges and unknowns of row k, the places of the vertices in
// use, and the place t of vertex k.
fn count_down<'a>(
    ones: u32,
    doubts: u32,
    places: &'a [u8; 32],
    used: u32,
    i: u32,
    k: u32,
    t: u32,
) -> u32
    requires { (1 ≤ i) × (i ≤ 32) }
    ensures { result ≡ count_by (bit ones (i - 1)) (bit doubts (i - 1)) (column_before (pair_of_two (place_held used places.now i) t) (pair i k)) }
{
    if (doubts >> (i - 1)) % 2 == 0 {
        return (ones >> (i - 1)) % 2;
    }
    if is_sourced(place_held(places, used, i), t, i, k) {
        return 1;
    }
    0
}

// What the pair (i, k) does where v stands at place k and vertex k at place t, by the edges and unknowns of row k and of row v.
fn turn_down(
    ones: u32,
    doubts: u32,
    marks: u32,
    hidden: u32,
    path: Path,
    used: u32,
    i: u32,
    k: u32,
    v: u32,
    t: u32,
) -> Turn
    requires { (1 ≤ i) × (i ≤ 32) × (1 ≤ at path.vertices.now i) × (at path.vertices.now i ≤ 32) × (1 ≤ v) }
    ensures { turn_code result ≡ turn_down ones doubts marks hidden i k (at path.entry.vertices.now i) v (place_held used path.entry.places.now i) t }
{
    let u = vertex_at(path.vertices, i);
    let a = count_down(ones, doubts, path.places, used, i, k, t);
    let b = count_there(2, marks, hidden, i, k, v, u);
    turn_by(a, b, i, k, u, v)
}

// What the pair (i, k) does under the path, where the mask has the vertices in use.
fn column_turn(path: Path, used: u32, i: u32, k: u32) -> Turn
    requires { (1 ≤ i) × (i < k) × (k ≤ 32) × Within k path.vertices.now }
    ensures { turn_code result ≡ turn_in_column path.entry.rows.edges.now path.entry.rows.unknowns.now path.entry.vertices.now path.entry.places.now used (pair i k) }
{
    let rows = path.rows;
    let v = vertex_at(path.vertices, k);
    let ones = row_of(rows.edges, k);
    let doubts = row_of(rows.unknowns, k);
    let marks = row_of(rows.edges, v);
    let hidden = row_of(rows.unknowns, v);
    let t = place_held(path.places, used, k);
    turn_down(ones, doubts, marks, hidden, path, used, i, k, v, t)
}

// The walk down column k, where the mask has the vertices at the places up to k.
pub fn column_walk(path: Path, used: u32, k: u32) -> Turn
    requires { (1 ≤ k) × (k ≤ 32) × Within k path.vertices.now }
    ensures { turn_code result ≡ walk_code (turn_in_column path.entry.rows.edges.now path.entry.rows.unknowns.now path.entry.vertices.now path.entry.places.now used) (down_column k (k - 1)) }
{
    for i in 1..k {
        let turn = column_turn(path, used, i, k);
        if !turn.is_open() {
            return turn;
        }
    }
    Turn::Open
}
