// The walk along the rows after the first.
ghost use Rattle.std.specs.Prelude.{◌≡◌, ◌+◌, ◌-◌, ◌^◌, ◌≤◌, ◌<◌};
ghost use Rattle.std.specs.Int.Bits.{bit_and};
ghost use Rattle.arrangements.specs.Arrangement.{at};
ghost use Rattle.pairs.specs.Pairs.{along_row, from_row};
ghost use Rattle.plain.specs.Before.{row_before};
ghost use Rattle.turns.specs.Turn.{turn_code};
ghost use Rattle.turns.specs.Turns.{turn_at, walk_code, Arranged, Places};
ghost use Rattle.row_walks.specs.RowWords.{Later};

use crate::row::{is_passed, row_walk, words_walk};
use arrangements::places::vertex_at;
use turns::turn::Turn;
use turns::walked::{Path, row_of};
use words::{power, without};

// The mask without the vertex at place i.
fn without_place(mask: u32, vertices: &[u8; 32], i: u32) -> u32
    requires { (1 ≤ i) × (i ≤ 32) × (1 ≤ at vertices.now i) × (at vertices.now i ≤ 32) }
    ensures { result ≡ mask - bit_and mask (2 ^ (at vertices.now i - 1)) }
{
    without(mask, power(vertex_at(vertices, i) - 1))
}

// The vertices after place 2.
fn after_second(vertices: &[u8; 32], n: u32) -> u32
    requires { (3 ≤ n) × (n ≤ 32) × Arranged n vertices.now }
    ensures { Later n 2 vertices.now result }
{
    let first = without_place(0xFFFF_FFFF >> (32 - n), vertices, 1);
    without_place(first, vertices, 2)
}

// The walk along row 2.
fn second_row(path: Path, n: u32) -> Turn
    requires { (3 ≤ n) × (n ≤ 32) × Places n path.vertices.now path.places.now }
    ensures { turn_code result ≡ walk_code (turn_at row_before path.entry.rows.edges.now path.entry.rows.unknowns.now path.entry.vertices.now path.entry.places.now) (along_row 2 3 (n + 1 - 3)) }
{
    let Path { rows, vertices, .. } = path;
    let u = vertex_at(vertices, 2);
    if (row_of(rows.unknowns, 2) | row_of(rows.unknowns, u)) != 0 {
        return row_walk(path, n, 2, after_second(vertices, n));
    }
    let ones = row_of(rows.edges, 2);
    let marks = row_of(rows.edges, u);
    if ((ones >> 2) | marks) == 0 {
        return Turn::Open;
    }
    words_walk(ones, marks, vertices, n, 2)
}

// The walk along the rows after the second. A row that is alike is passed at once.
fn later_rows(path: Path, n: u32) -> Turn
    requires { (3 ≤ n) × (n ≤ 32) × Places n path.vertices.now path.places.now }
    ensures { turn_code result ≡ walk_code (turn_at row_before path.entry.rows.edges.now path.entry.rows.unknowns.now path.entry.vertices.now path.entry.places.now) (from_row 3 (n - 3)) }
{
    let mut later = after_second(path.vertices, n);
    for i in 3..n {
        later = without_place(later, path.vertices, i);
        if is_passed(path, n, i, later) {
            continue;
        }
        let turn = row_walk(path, n, i, later);
        if !turn.is_open() {
            return turn;
        }
    }
    Turn::Open
}

// The walk along the rows after the first. Most walks end in the second.
pub fn rows_walk(path: Path, n: u32) -> Turn
    requires { (n ≤ 32) × Places n path.vertices.now path.places.now }
    ensures { turn_code result ≡ walk_code (turn_at row_before path.entry.rows.edges.now path.entry.rows.unknowns.now path.entry.vertices.now path.entry.places.now) (from_row 2 (n - 2)) }
{
    if n < 3 {
        return Turn::Open;
    }
    let turn = second_row(path, n);
    if turn.is_open() {
        return later_rows(path, n);
    }
    turn
}
