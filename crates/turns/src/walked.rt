// What a pair does under a path.
ghost use Rattle.std.specs.Prelude.{◌≡◌, not, ◌-◌, ◌^◌, ◌≤◌, ◌<◌};
ghost use Rattle.laws.specs.Bit.{bit};
ghost use Rattle.words.specs.Placed.{row};
ghost use Rattle.arrangements.specs.Arrangement.{at};
ghost use Rattle.pairs.specs.Pairs.{pair};
ghost use Rattle.plain.specs.Plain.{same_pair, pair_of_two};
ghost use Rattle.plain.specs.Before.{before_in};
ghost use Rattle.turns.specs.Turn.{turn_code};
ghost use Rattle.turns.specs.Turns.{count_by, turn_by, turn_of, turn_at, Places};

use crate::before::comes_before;
use crate::turn::Turn;
use arrangements::places::vertex_at;
use words::turned::Rows;

// A path through a graph: the graph's rows, the vertex at each place, and the place of each vertex.
#[derive(Clone, Copy)]
pub struct Path<'a> {
    pub rows: Rows<'a>,
    pub vertices: &'a [u8; 32],
    pub places: &'a [u8; 32],
}

// Row i of the rows.
pub fn row_of(rows: &[u32; 32], i: u32) -> u32
    requires { (1 ≤ i) × (i ≤ 32) }
    ensures { result ≡ row rows.now i }
{
    rows[i as usize - 1]
}

// Is {u, v} the pair (i, j)?
pub fn is_own(i: u32, j: u32, u: u32, v: u32) -> bool
    ensures { result ≡ same_pair (pair_of_two u v) (pair i j) }
{
    if u < v {
        if u == i {
            return v == j;
        }
        return false;
    }
    if v == i {
        return u == j;
    }
    false
}

// 1 where the entry at column j of row i counts as an edge, by the row's edges and unknowns and the places of vertices.
fn count_here<'a>(mode: u32, ones: u32, doubts: u32, places: &'a [u8; 32], i: u32, j: u32) -> u32
    requires { (1 ≤ i) × (i ≤ 32) × (1 ≤ j) × (j ≤ 32) × (1 ≤ at places.now i) × (1 ≤ at places.now j) }
    ensures { result ≡ count_by (bit ones (j - 1)) (bit doubts (j - 1)) (before_in mode (pair_of_two (at places.now i) (at places.now j)) (pair i j)) }
{
    if (doubts >> (j - 1)) % 2 == 0 {
        return (ones >> (j - 1)) % 2;
    }
    let s = vertex_at(places, i);
    let t = vertex_at(places, j);
    if comes_before(mode, s, t, i, j) {
        return 1;
    }
    0
}

// 1 where the entry of v in the row of u counts as an edge at the pair (i, j) whose image it is, by that row's edges and unknowns.
pub fn count_there(mode: u32, marks: u32, hidden: u32, i: u32, j: u32, u: u32, v: u32) -> u32
    requires { (1 ≤ u) × (1 ≤ v) × (v ≤ 32) }
    ensures { result ≡ count_by (bit marks (v - 1)) (bit hidden (v - 1)) (not (before_in mode (pair_of_two u v) (pair i j))) }
{
    if (hidden >> (v - 1)) % 2 == 0 {
        return (marks >> (v - 1)) % 2;
    }
    if comes_before(mode, u, v, i, j) {
        return 0;
    }
    1
}

// What the pair (i, j) does where u and v stand there, its entry counts as a and that of its image as b.
pub fn turn_by(a: u32, b: u32, i: u32, j: u32, u: u32, v: u32) -> Turn
    ensures { turn_code result ≡ turn_by a b (same_pair (pair_of_two u v) (pair i j)) }
{
    if a == b {
        return Turn::Open;
    }
    if a == 1 {
        return Turn::Won;
    }
    if is_own(i, j, u, v) {
        return Turn::Open;
    }
    Turn::Lost
}

// The same by a bit of each word.
pub fn bits_turn(ones: u32, marks: u32, i: u32, j: u32, u: u32, v: u32) -> Turn
    requires { (1 ≤ j) × (j ≤ 32) × (1 ≤ v) × (v ≤ 32) }
    ensures { turn_code result ≡ turn_by (bit ones (j - 1)) (bit marks (v - 1)) (same_pair (pair_of_two u v) (pair i j)) }
{
    let a = ones >> (j - 1);
    if (a ^ (marks >> (v - 1))) % 2 == 0 {
        return Turn::Open;
    }
    if a % 2 == 1 {
        return Turn::Won;
    }
    if is_own(i, j, u, v) {
        return Turn::Open;
    }
    Turn::Lost
}

// The same by the edges and unknowns of row i and of row u.
fn turn_of<'a>(
    mode: u32,
    ones: u32,
    doubts: u32,
    marks: u32,
    hidden: u32,
    places: &'a [u8; 32],
    i: u32,
    j: u32,
    u: u32,
    v: u32,
) -> Turn
    requires { (1 ≤ i) × (i ≤ 32) × (1 ≤ j) × (j ≤ 32) × (1 ≤ at places.now i) × (1 ≤ at places.now j) × (1 ≤ u) × (1 ≤ v) × (v ≤ 32) }
    ensures { turn_code result ≡ turn_of (before_in mode) ones doubts marks hidden i j u v (at places.now i) (at places.now j) }
{
    let a = count_here(mode, ones, doubts, places, i, j);
    let b = count_there(mode, marks, hidden, i, j, u, v);
    turn_by(a, b, i, j, u, v)
}

// What the pair (i, j) does under the path.
pub fn pair_turn(mode: u32, path: Path, n: u32, i: u32, j: u32) -> Turn
    requires { (n ≤ 32) × Places n path.vertices.now path.places.now × (1 ≤ i) × (i < j) × (j ≤ n) }
    ensures { turn_code result ≡ turn_at (before_in mode) path.entry.rows.edges.now path.entry.rows.unknowns.now path.entry.vertices.now path.entry.places.now (pair i j) }
{
    let Path {
        rows,
        vertices,
        places,
    } = path;
    let u = vertex_at(vertices, i);
    let v = vertex_at(vertices, j);
    let ones = row_of(rows.edges, i);
    let doubts = row_of(rows.unknowns, i);
    let marks = row_of(rows.edges, u);
    let hidden = row_of(rows.unknowns, u);
    turn_of(mode, ones, doubts, marks, hidden, places, i, j, u, v)
}
