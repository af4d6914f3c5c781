// The walk along one row.
ghost use Rattle.std.specs.Prelude.{◌≡◌, true, List, ℕ, ◌+◌, ◌-◌, ◌≤◌, ◌<◌};
ghost use Rattle.laws.specs.Test.{pick};
ghost use Rattle.arrangements.specs.Arrangement.{at};
ghost use Rattle.pairs.specs.Pairs.{along_row};
ghost use Rattle.plain.specs.Before.{row_before};
ghost use Rattle.turns.specs.Turn.{turn_code};
ghost use Rattle.turns.specs.Turns.{turn_at, walk_code, Within, Places};
ghost use Rattle.row_walks.specs.RowWords.{turn_with, turn_fixed, counted_by, sources_by, unmet_by, Later, Alike};

use arrangements::places::vertex_at;
use turns::turn::Turn;
use turns::walked::{Path, bits_turn, row_of};
use words::{power, without};

// Is row i alike all along? So it is where nothing is unknown after place i and at later vertices, and it has no edge after place i
// and no later vertex a mark, or each has one.
fn is_alike(n: u32, i: u32, ones: u32, doubts: u32, marks: u32, hidden: u32, later: u32) -> bool
    requires { (1 ≤ i) × (i < n) × (n ≤ 32) }
    ensures { result ≡ true → Alike n i ones doubts marks hidden later }
{
    if ((doubts >> i) | (hidden & later)) != 0 {
        return false;
    }
    let after = ones >> i;
    let marked = marks & later;
    if after == 0 {
        return marked == 0;
    }
    if marked == later {
        return after == (0xFFFF_FFFF >> (32 - n)) >> i;
    }
    false
}

// One of two words.
fn chosen(test: bool, x: u32, y: u32) -> u32
    ensures { result ≡ pick test x y }
{
    if test {
        return x;
    }
    y
}

// The walk along the pairs of row i where vertex i stands at place i, by the row's edges and unknowns.
fn fixed_walk(ones: u32, doubts: u32, path: Path, n: u32, i: u32) -> Turn
    requires { (n ≤ 32) × (1 ≤ i) × (i < n) × Within n path.vertices.now }
    ensures { turn_code result ≡ walk_code (turn_fixed ones doubts path.entry.vertices.now path.entry.places.now) (along_row i (i + 1) (n + 1 - (i + 1))) }
{
    let full = ones | doubts;
    let sure = without(ones, doubts);
    for j in i + 1..n + 1 {
        let v = vertex_at(path.vertices, j);
        if v == j {
            continue;
        }
        let t = vertex_at(path.places, j);
        let here = chosen(t < j, full, sure);
        let there = chosen(v < j, sure, full);
        let turn = bits_turn(here, there, i, j, i, v);
        if !turn.is_open() {
            return turn;
        }
    }
    Turn::Open
}

// The walk along the pairs of row i, where the words tell of each place and of each vertex at a place how its entry counts.
pub fn words_walk(ones: u32, marks: u32, vertices: &[u8; 32], n: u32, i: u32) -> Turn
    requires { (n ≤ 32) × (1 ≤ i) × (i < n) × Within n vertices.now }
    ensures { turn_code result ≡ walk_code (turn_with ones marks vertices.now) (along_row i (i + 1) (n + 1 - (i + 1))) }
{
    let u = vertex_at(vertices, i);
    for j in i + 1..n + 1 {
        let v = vertex_at(vertices, j);
        let turn = bits_turn(ones, marks, i, j, u, v);
        if !turn.is_open() {
            return turn;
        }
    }
    Turn::Open
}

// How entries count as one word: their edges, and of the unknown ones those in the mask.
fn counted(edges: u32, unknowns: u32, mask: u32) -> u32
    ensures { result ≡ counted_by edges unknowns mask }
{
    without(edges, unknowns) | (unknowns & mask)
}

// The columns j for which (i, j) is the image of an earlier pair, where u stands at place i, vertex i at place s, and the mask has
// the vertices at later places.
fn sources(i: u32, u: u32, s: u32, later: u32) -> u32
    requires { (1 ≤ u) × (u ≤ 32) }
    ensures { result ≡ sources_by i u s later }
{
    if s < i {
        return 0xFFFF_FFFF;
    }
    let weight = power(u - 1);
    let earlier = without(0xFFFF_FFFF, later | weight);
    if s < u {
        return earlier | weight;
    }
    earlier
}

// The vertices whose pair with u does not come before the pair of row i whose image it is.
fn unmet(i: u32, u: u32, s: u32) -> u32
    requires { (1 ≤ i) × (i ≤ 32) }
    ensures { result ≡ unmet_by i u s }
{
    if u < i {
        return 0;
    }
    let weight = power(i - 1);
    if u < s {
        return without(0xFFFF_FFFF, (weight - 1) | weight);
    }
    without(0xFFFF_FFFF, weight - 1)
}

// The walk along row i, where the mask has the vertices at later places.
pub fn row_walk(path: Path, n: u32, i: u32, later: u32) -> Turn
    requires { (n ≤ 32) × (1 ≤ i) × (i < n) × Places n path.vertices.now path.places.now × Later n i path.vertices.now later }
    ensures { turn_code result ≡ walk_code (turn_at row_before path.entry.rows.edges.now path.entry.rows.unknowns.now path.entry.vertices.now path.entry.places.now) (along_row i (i + 1) (n + 1 - (i + 1))) }
{
    let Path { rows, vertices, .. } = path;
    let u = vertex_at(vertices, i);
    let ones = row_of(rows.edges, i);
    let doubts = row_of(rows.unknowns, i);
    if u == i {
        return fixed_walk(ones, doubts, path, n, i);
    }
    let s = vertex_at(path.places, i);
    let here = counted(ones, doubts, sources(i, u, s, later));
    let there = counted(
        row_of(rows.edges, u),
        row_of(rows.unknowns, u),
        unmet(i, u, s),
    );
    words_walk(here, there, vertices, n, i)
}

// Does row i go on all along, with nothing unknown in it?
pub fn is_passed(path: Path, n: u32, i: u32, later: u32) -> bool
    requires { (n ≤ 32) × (1 ≤ i) × (i < n) × Within n path.vertices.now × Later n i path.vertices.now later }
    ensures { result ≡ true → (places : List ℕ) → 0 ≡ walk_code (turn_at row_before path.entry.rows.edges.now path.entry.rows.unknowns.now path.entry.vertices.now places) (along_row i (i + 1) (n + 1 - (i + 1))) }
{
    let Path { rows, vertices, .. } = path;
    let u = vertex_at(vertices, i);
    let ones = row_of(rows.edges, i);
    let doubts = row_of(rows.unknowns, i);
    let marks = row_of(rows.edges, u);
    let hidden = row_of(rows.unknowns, u);
    is_alike(n, i, ones, doubts, marks, hidden, later)
}
