// What can be dropped at the winning pair of a certificate.
// For the crates of this project; a caller has checked what a function asks of it.

#![tactic(auto)]

ghost use Rattle.std.specs.Prelude.{◌≡◌, ◌≢◌, true, false, ◌≤◌};
ghost use Rattle.plain.specs.Plain.{pair_of_two};
ghost use Rattle.plain.specs.Before.{before_in};
ghost use Rattle.arrangements.specs.Arrangement.{is_reordering};
ghost use Rattle.pairs.specs.Pairs.{pair};
ghost use Rattle.kinds.specs.Kind.{kind_code};
ghost use Rattle.kinds.specs.Kinds.{kind_at};
ghost use Rattle.dropped.specs.Dropping.{WinsAt, graph_in, image_may, pair_may, GoneAt};

use arrangements::places::vertex_at;
use kinds::kind::{Kind, Win, Without, goes_before, kind_at};
use trials::after::wins_after;

// What is written for the pair of u and v where nothing is left out at the winning pair.
fn kind_of_two(win: Win, u: u32, v: u32) -> Kind
    requires { (win.order ≤ 32) × (is_reordering win.order win.path.places.now ≡ true) × (1 ≤ u) × (u ≤ win.order) × (1 ≤ v) × (v ≤ win.order) × (u ≢ v) }
    ensures { kind_code result ≡ kind_at (before_in win.entry.mode) win.entry.path.rows.edges.now win.entry.path.rows.unknowns.now win.entry.path.places.now (pair win.entry.at.row win.entry.at.column) false false (pair_of_two u v) }
{
    let none = Without {
        pair: false,
        image: false,
    };
    if u < v {
        return kind_at(win, none, u, v);
    }
    kind_at(win, none, v, u)
}

// May what stands at the image of the winning pair be dropped? So it may where it is needed up to there and the walk on
// without it is won.
fn image_may(win: Win, starts: u32) -> bool
    requires { WinsAt win.mode (graph_in win starts) win.path.vertices.now win.path.places.now (pair win.at.row win.at.column) }
    ensures { result ≡ image_may win.entry.mode (graph_in win.entry starts) win.entry.path.vertices.now win.entry.path.places.now (pair win.entry.at.row win.entry.at.column) }
{
    let u = vertex_at(win.path.vertices, win.at.row);
    let v = vertex_at(win.path.vertices, win.at.column);
    if kind_of_two(win, u, v).is_nothing() {
        return false;
    }
    let without = Without {
        pair: false,
        image: true,
    };
    wins_after(&win, without)
}

// And what stands at the winning pair itself?
fn pair_may(win: Win, starts: u32) -> bool
    requires { WinsAt win.mode (graph_in win starts) win.path.vertices.now win.path.places.now (pair win.at.row win.at.column) }
    ensures { result ≡ pair_may win.entry.mode (graph_in win.entry starts) win.entry.path.vertices.now win.entry.path.places.now (pair win.entry.at.row win.entry.at.column) }
{
    if kind_of_two(win, win.at.row, win.at.column).is_nothing() {
        return false;
    }
    let without = Without {
        pair: true,
        image: false,
    };
    wins_after(&win, without)
}

// What goes at the winning pair: of it and its image the one with the higher row number is tried first, and the other only
// where that one stays.
pub fn what_goes(win: Win, starts: u32) -> Without
    requires { WinsAt win.mode (graph_in win starts) win.path.vertices.now win.path.places.now (pair win.at.row win.at.column) }
    ensures { GoneAt win.entry.mode (graph_in win.entry starts) win.entry.path.vertices.now win.entry.path.places.now (pair win.entry.at.row win.entry.at.column) result.pair result.image }
{
    let u = vertex_at(win.path.vertices, win.at.row);
    let v = vertex_at(win.path.vertices, win.at.column);
    if goes_before(1, win.at.row, win.at.column, u, v) {
        if image_may(win, starts) {
            return Without {
                pair: false,
                image: true,
            };
        }
        let pair = pair_may(win, starts);
        return Without { pair, image: false };
    }
    if pair_may(win, starts) {
        return Without {
            pair: true,
            image: false,
        };
    }
    let image = image_may(win, starts);
    Without { pair: false, image }
}
