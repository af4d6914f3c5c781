// The columns of a row at which something may be written.
ghost use Rattle.std.specs.Prelude.{◌≡◌, Bool, true, ◌+◌, ◌-◌, ◌^◌, ◌≤◌, ◌<◌};
ghost use Rattle.arrangements.specs.Arrangement.{Reordering, is_reordering};
ghost use Rattle.composing.specs.Composed.{inverse};
ghost use Rattle.pairs.specs.Pairs.{pair};
ghost use Rattle.plain.specs.Before.{row_before, column_before, before_in};
ghost use Rattle.turns.specs.Turns.{Within};
ghost use Rattle.kinds.specs.Kinds.{kind_at, place_before, FirstIn, MaskedBy, Firsts, SourcesBy, Ahead};

use crate::kind::Win;
use arrangements::places::vertex_of;
use turns::path::weight_of;
use turns::spot::Spot;
use turns::walked::{Path, row_of};
use words::without;

// The vertices at the first places of the path.
fn first_places(vertices: &[u8; 32], upto: u32) -> u32
    requires { (upto ≤ 32) × Within upto vertices.now }
    ensures { FirstIn upto vertices.now result }
{
    let mut mask = 0;
    for i in 0..upto as usize {
        mask |= weight_of(vertices[i]);
    }
    mask
}

// The place before the winning pair's row, by columns before its column.
fn place_before(mode: u32, row: u32, column: u32) -> u32
    requires { (1 ≤ row) × (row < column) }
    ensures { result ≡ place_before mode row column }
{
    if mode == 2 {
        return column - 1;
    }
    row - 1
}

// The vertices at the places up to that one, up to the winning pair's row, and up to its column, as masks.
#[derive(Clone, Copy)]
pub struct Masks {
    pub less: u32,
    pub at: u32,
    pub up: u32,
}

// These masks for the winning pair (row, column).
pub fn masks_of(win: Win) -> Masks
    requires { (win.order ≤ 32) × Reordering win.order win.path.vertices.now × (win.at.column ≤ win.order) }
    ensures { MaskedBy win.entry.mode win.entry.order win.entry.at.row win.entry.at.column (inverse win.entry.order win.entry.path.vertices.now) result.less result.at result.up }
{
    let vertices = win.path.vertices;
    let Spot { row, column } = win.at;
    Masks {
        less: first_places(vertices, place_before(win.mode, row, column)),
        at: first_places(vertices, row),
        up: first_places(vertices, column),
    }
}

// The columns at which row i is reached by rows.
fn firsts_by_rows(i: u32, row: u32, column: u32) -> u32
    requires { (1 ≤ row) × (row < column) × (column ≤ 32) }
    ensures { Firsts row_before (pair row column) i result }
{
    if i < row {
        return 0xFFFF_FFFF;
    }
    if i == row {
        return 0xFFFF_FFFF >> (32 - column);
    }
    0
}

// And by columns.
fn firsts_by_columns(i: u32, row: u32, column: u32) -> u32
    requires { (1 ≤ row) × (row < column) × (column ≤ 32) }
    ensures { Firsts column_before (pair row column) i result }
{
    if i <= row {
        return 0xFFFF_FFFF >> (32 - column);
    }
    0xFFFF_FFFF >> (33 - column)
}

// In the order of the mode.
fn firsts(mode: u32, i: u32, row: u32, column: u32) -> u32
    requires { (1 ≤ row) × (row < column) × (column ≤ 32) }
    ensures { Firsts (before_in mode) (pair row column) i result }
{
    if mode == 2 {
        return firsts_by_columns(i, row, column);
    }
    firsts_by_rows(i, row, column)
}

// The vertices whose pair with one that stands at u is the image of a pair that is reached by rows, by those at the places
// before the winning pair's row, up to it, and up to its column.
fn sources_by_rows(row: u32, column: u32, u: u32, masks: Masks) -> u32
    requires { (1 ≤ row) × (row < column) }
    ensures { SourcesBy row_before (row - 1) row column u masks.less masks.at masks.up result }
{
    if u < row {
        return 0xFFFF_FFFF;
    }
    if u == row {
        return masks.up;
    }
    if u <= column {
        return masks.at;
    }
    masks.less
}

// And by columns, by those at the places before its column, up to its row, and up to its column.
fn sources_by_columns(row: u32, column: u32, u: u32, masks: Masks) -> u32
    requires { (1 ≤ row) × (row < column) }
    ensures { SourcesBy column_before (column - 1) row column u masks.less masks.at masks.up result }
{
    if u <= row {
        return masks.up;
    }
    if u < column {
        return masks.less;
    }
    if u == column {
        return masks.at;
    }
    0
}

// In the order of the mode.
fn sources(mode: u32, row: u32, column: u32, u: u32, masks: Masks) -> u32
    requires { (1 ≤ row) × (row < column) }
    ensures { SourcesBy (before_in mode) (place_before mode row column) row column u masks.less masks.at masks.up result }
{
    if mode == 2 {
        return sources_by_columns(row, column, u, masks);
    }
    sources_by_rows(row, column, u, masks)
}

// The columns after i at which row i may be written, column i + 1 as the lowest bit: those reached that have an edge, and
// those whose source is reached that have none, less the unknown ones.
pub fn columns_of(win: Win, masks: Masks, i: u32) -> u32
    requires { (win.order ≤ 32) × (is_reordering win.order win.path.places.now ≡ true) × (win.at.column ≤ win.order) × MaskedBy win.mode win.order win.at.row win.at.column win.path.places.now masks.less masks.at masks.up × (1 ≤ i) × (i < win.order) }
    ensures { (result < 2 ^ (win.entry.order + 1 - (i + 1))) × ((pair_out image_out : Bool) → Ahead (kind_at (before_in win.entry.mode) win.entry.path.rows.edges.now win.entry.path.rows.unknowns.now win.entry.path.places.now (pair win.entry.at.row win.entry.at.column) pair_out image_out) win.entry.order i (i + 1) result) }
{
    let n = win.order;
    let Path { rows, places, .. } = win.path;
    let Spot { row, column } = win.at;
    let u = vertex_of(n, places, i);
    let first = firsts(win.mode, i, row, column);
    let source = sources(win.mode, row, column, u, masks);
    let ones = row_of(rows.edges, i);
    let columns = without(
        (first & ones) | without(source, ones),
        row_of(rows.unknowns, i),
    );
    (columns & (0xFFFF_FFFF >> (32 - n))) >> i
}
