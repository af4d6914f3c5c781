// What is written for a pair.
ghost use Rattle.std.specs.Prelude.{◌≡◌, true, ◌≤◌, ◌<◌, eqb};
ghost use Rattle.laws.specs.Test.{both};
ghost use Rattle.needed.specs.Settled.{up_to};
ghost use Rattle.arrangements.specs.Arrangement.{is_reordering};
ghost use Rattle.pairs.specs.Pairs.{pair};
ghost use Rattle.plain.specs.Before.{before_in};
ghost use Rattle.plain.specs.Plain.{pair_of_two};
ghost use Rattle.kinds.specs.Kind.{kind_code};
ghost use Rattle.kinds.specs.Kinds.{kind_at};

use arrangements::places::vertex_of;
use rows::entries::entry_in;
use turns::before::{comes_before, is_before};
use turns::spot::Spot;
use turns::walked::Path;

// What is left out at the winning pair: what stands there itself, or at its image.
#[derive(Clone, Copy)]
pub struct Without {
    pub pair: bool,
    pub image: bool,
}

// What is written for a pair: nothing, "not" the pair, or the pair.
#[derive(Clone, Copy)]
pub enum Kind {
    Nothing,
    Not,
    Pair,
}

impl Kind {
    // Is nothing written?
    pub fn is_nothing(self) -> bool
        ensures { result ≡ eqb (kind_code self) 0 }
    {
        matches!(self, Kind::Nothing)
    }
}

// A path over all vertices, so many, that wins at a pair in the order that a mode names.
#[derive(Clone, Copy)]
pub struct Win<'a> {
    pub mode: u32,
    pub order: u32,
    pub path: Path<'a>,
    pub at: Spot,
}

// Does (i, j) come before the winning pair, or is it that pair and that is not left out?
fn is_reached(mode: u32, i: u32, j: u32, at: Spot, without: bool) -> bool
    requires { (1 ≤ i) × (1 ≤ j) }
    ensures { result ≡ up_to (before_in mode) without (pair at.row at.column) (pair i j) }
{
    if without {
        return is_before(mode, i, j, at.row, at.column);
    }
    !is_before(mode, at.row, at.column, i, j)
}

// The same for the pair of u and v.
pub fn is_reached_of(mode: u32, u: u32, v: u32, at: Spot, without: bool) -> bool
    requires { (1 ≤ u) × (1 ≤ v) }
    ensures { result ≡ up_to (before_in mode) without (pair at.row at.column) (pair_of_two u v) }
{
    if u < v {
        return is_reached(mode, u, v, at, without);
    }
    is_reached(mode, v, u, at, without)
}

// Does (i, j) come before the pair of u and v?
pub fn goes_before(mode: u32, i: u32, j: u32, u: u32, v: u32) -> bool
    requires { (1 ≤ i) × (1 ≤ j) }
    ensures { result ≡ before_in mode (pair i j) (pair_of_two u v) }
{
    if u < v {
        return is_before(mode, i, j, u, v);
    }
    is_before(mode, i, j, v, u)
}

// Does (i, j) come before the pair of u and v, whose image it is, and is it reached?
fn is_met_in_place(mode: u32, i: u32, j: u32, u: u32, v: u32, at: Spot, without: bool) -> bool
    requires { (1 ≤ i) × (1 ≤ j) }
    ensures { result ≡ both (before_in mode (pair i j) (pair_of_two u v)) (up_to (before_in mode) without (pair at.row at.column) (pair i j)) }
{
    goes_before(mode, i, j, u, v) && is_reached(mode, i, j, at, without)
}

// Does the pair of u and v, whose image is (i, j), come before it, and is it reached?
fn is_met_as_image(mode: u32, i: u32, j: u32, u: u32, v: u32, at: Spot, without: bool) -> bool
    requires { (1 ≤ u) × (1 ≤ v) }
    ensures { result ≡ both (before_in mode (pair_of_two u v) (pair i j)) (up_to (before_in mode) without (pair at.row at.column) (pair_of_two u v)) }
{
    comes_before(mode, u, v, i, j) && is_reached_of(mode, u, v, at, without)
}

// What is written for the pair (i, j).
#[inline(always)]
pub fn kind_at(win: Win, without: Without, i: u32, j: u32) -> Kind
    requires { (win.order ≤ 32) × (is_reordering win.order win.path.places.now ≡ true) × (1 ≤ i) × (i < j) × (j ≤ win.order) }
    ensures { kind_code result ≡ kind_at (before_in win.entry.mode) win.entry.path.rows.edges.now win.entry.path.rows.unknowns.now win.entry.path.places.now (pair win.entry.at.row win.entry.at.column) without.pair without.image (pair i j) }
{
    let Win {
        mode,
        order,
        path,
        at,
    } = win;
    let a = entry_in(path.rows, i, j);
    let u = vertex_of(order, path.places, i);
    let v = vertex_of(order, path.places, j);
    if a == 1 {
        if is_met_in_place(mode, i, j, u, v, at, without.pair) {
            return Kind::Not;
        }
        return Kind::Nothing;
    }
    if a == 0 {
        if is_met_as_image(mode, i, j, u, v, at, without.image) {
            return Kind::Pair;
        }
        return Kind::Nothing;
    }
    Kind::Nothing
}
