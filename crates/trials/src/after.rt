// The walk on after the winning pair, where only the entries that stay are known.
ghost use Rattle.std.specs.Prelude.{◌≡◌, ◌≤◌, ◌<◌, eqb};
ghost use Rattle.needed.specs.Settled.{up_to};
ghost use Rattle.pairs.specs.Pairs.{pair};
ghost use Rattle.plain.specs.Before.{before_in};
ghost use Rattle.plain.specs.Plain.{pair_of_two};
ghost use Rattle.turns.specs.Turn.{turn_code};
ghost use Rattle.turns.specs.Turns.{walk_code, Places};
ghost use Rattle.turns.specs.Next.{pairs_after};
ghost use Rattle.trials.specs.After.{count_after, turn_after};

use arrangements::places::vertex_at;
use kinds::kind::{Win, Without, is_reached_of};
use rows::entries::entry_in;
use turns::before::comes_before;
use turns::next::next_pair;
use turns::spot::Spot;
use turns::turn::Turn;
use turns::walked::{Path, is_own, turn_by};

// How an entry counts at the pair here, where the pair of s and t meets it too: as the value, unless that pair comes first;
// then as the opposite, unless the entry is the value and stays, as that pair is reached.
#[inline(always)]
fn count_after(
    value: u32,
    entry: u32,
    mode: u32,
    at: Spot,
    without: bool,
    here: Spot,
    s: u32,
    t: u32,
) -> u32
    requires { (value ≤ 1) × (1 ≤ s) × (1 ≤ t) }
    ensures { result ≡ count_after value entry (before_in mode (pair_of_two s t) (pair here.row here.column)) (up_to (before_in mode) without (pair at.row at.column) (pair_of_two s t)) }
{
    if comes_before(mode, s, t, here.row, here.column) {
        if is_reached_of(mode, s, t, at, without) {
            if entry == value {
                return value;
            }
            return 1 - value;
        }
        return 1 - value;
    }
    value
}

// What a pair does under the path. One that is its own image is passed at once: most are.
fn turn_after(win: &Win, without: Without, here: Spot) -> Turn
    requires { (win.now.order ≤ 32) × Places win.now.order win.now.path.vertices.now win.now.path.places.now × (here.column ≤ win.now.order) }
    ensures { turn_code result ≡ turn_after (before_in win.now.mode) win.now.path.rows.edges.now win.now.path.rows.unknowns.now win.now.path.vertices.now win.now.path.places.now (pair win.now.at.row win.now.at.column) without.pair without.image (pair here.row here.column) }
{
    let Win { mode, path, at, .. } = *win;
    let Path {
        rows,
        vertices,
        places,
    } = path;
    let i = here.row;
    let j = here.column;
    let u = vertex_at(vertices, i);
    let v = vertex_at(vertices, j);
    if is_own(i, j, u, v) {
        return Turn::Open;
    }
    let s = vertex_at(places, i);
    let t = vertex_at(places, j);
    let own = entry_in(rows, i, j);
    let other = entry_in(rows, u, v);
    let a = count_after(0, own, mode, at, without.image, here, s, t);
    let b = count_after(1, other, mode, at, without.pair, here, u, v);
    turn_by(a, b, i, j, u, v)
}

// Is the walk won after the winning pair?
pub fn wins_after(win: &Win, without: Without) -> bool
    requires { (win.now.order ≤ 32) × Places win.now.order win.now.path.vertices.now win.now.path.places.now × (win.now.at.column ≤ win.now.order) }
    ensures { result ≡ eqb (walk_code (turn_after (before_in win.now.mode) win.now.path.rows.edges.now win.now.path.rows.unknowns.now win.now.path.vertices.now win.now.path.places.now (pair win.now.at.row win.now.at.column) without.pair without.image) (pairs_after win.now.mode win.now.order (pair win.now.at.row win.now.at.column))) 2 }
{
    let mut next = next_pair(win.mode, win.order, win.at);
    while let Some(here) = next {
        let turn = turn_after(win, without, here);
        if !turn.is_open() {
            return turn.is_won();
        }
        next = next_pair(win.mode, win.order, here);
    }
    false
}
