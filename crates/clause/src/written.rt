// The clause of a certificate, written in one pass over the pairs by rising number.
ghost use Rattle.std.specs.Prelude.{◌≡◌, true, ◌++◌, ◌+◌, ◌-◌, ◌^◌, ◌≤◌, ◌<◌, length, drop};
ghost use Rattle.walk.specs.Walk.{won};
ghost use Rattle.arrangements.specs.Arrangement.{Reordering, is_reordering, is_permitted};
ghost use Rattle.composing.specs.Composed.{inverse};
ghost use Rattle.graph.specs.WellFormed.{well_formed};
ghost use Rattle.pairs.specs.Pairs.{pair, pairs, pair_count, number, along_row};
ghost use Rattle.plain.specs.Before.{before_in};
ghost use Rattle.judging.specs.Judging.{walk_all, clause_of};
ghost use Rattle.clause.specs.Clauses.{written_for, written_along, Wrote};
ghost use Rattle.kinds.specs.Kind.{kind_code};
ghost use Rattle.kinds.specs.Kinds.{kind_at, Ahead};
ghost use Rattle.dropped.specs.Dropping.{graph_in};

use dropped::what_goes;
use kinds::columns::{columns_of, masks_of};
use kinds::kind::{Kind, Win, Without, kind_at};
use pairs::number_of;
use words::lowest;

// Writes m after the first count literals, as its kind says, and answers how many there are then.
fn put(literals: &mut [i32], count: usize, m: u32, kind: Kind) -> usize
    requires { (count < length literals.old) × (m ≤ 496) }
    ensures { Wrote (written_for (kind_code kind) m) literals.old count literals.new result }
{
    match kind {
        Kind::Nothing => count,
        Kind::Not => {
            literals[count] = -(m as i32);
            count + 1
        }
        Kind::Pair => {
            literals[count] = m as i32;
            count + 1
        }
    }
}

// Writes what the kinds of row i say after the first count literals, where no other column than those of the mask is
// written, and answers how many literals there are then.
fn write_row(
    win: Win,
    without: Without,
    i: u32,
    columns: u32,
    count: usize,
    literals: &mut [i32],
) -> usize
    requires { (win.order ≤ 32) × (is_reordering win.order win.path.places.now ≡ true) × (1 ≤ i) × (i < win.order) × (count < number win.order i (i + 1)) × (pair_count win.order ≤ length literals.old) × (columns < 2 ^ (win.order + 1 - (i + 1))) × Ahead (kind_at (before_in win.mode) win.path.rows.edges.now win.path.rows.unknowns.now win.path.places.now (pair win.at.row win.at.column) without.pair without.image) win.order i (i + 1) columns }
    ensures { Wrote (written_along (kind_at (before_in win.entry.mode) win.entry.path.rows.edges.now win.entry.path.rows.unknowns.now win.entry.path.places.now (pair win.entry.at.row win.entry.at.column) without.pair without.image) (number win.entry.order i (i + 1) - 1) (along_row i (i + 1) (win.entry.order + 1 - (i + 1)))) literals.old count literals.new result }
{
    let mut left = columns;
    let mut j = i + 1;
    let mut m = number_of(win.order, i, j);
    let mut written = count;
    while left != 0 {
        let k = lowest(left);
        j += k;
        m += k;
        let kind = kind_at(win, without, i, j);
        written = put(literals, written, m, kind);
        left = (left >> k) >> 1;
        j += 1;
        m += 1;
    }
    written
}

// Writes what each pair's kind says at the start of the buffer, by rising number, and answers how many literals there are.
fn write_pairs(win: Win, without: Without, literals: &mut [i32]) -> usize
    requires { (win.order ≤ 32) × Reordering win.order win.path.vertices.now × (win.path.places.now ≡ inverse win.order win.path.vertices.now) × (win.at.column ≤ win.order) × (pair_count win.order ≤ length literals.old) }
    ensures { Wrote (written_along (kind_at (before_in win.entry.mode) win.entry.path.rows.edges.now win.entry.path.rows.unknowns.now win.entry.path.places.now (pair win.entry.at.row win.entry.at.column) without.pair without.image) 0 (pairs win.entry.order)) literals.old 0 literals.new result }
{
    let masks = masks_of(win);
    let mut count = 0;
    for i in 1..win.order {
        let columns = columns_of(win, masks, i);
        count = write_row(win, without, i, columns, count, literals);
    }
    count
}

// Writes the clause of the win at the start of the buffer, and answers how many literals it has. Of what is met only the
// needed is written, and of that the winning pair's own, or its image's, may be dropped.
pub fn write_clause(win: Win, starts: u32, literals: &mut [i32]) -> usize
    requires { (well_formed (graph_in win starts) ≡ true) × (is_permitted win.order starts win.path.vertices.now ≡ true) × (win.path.places.now ≡ inverse win.order win.path.vertices.now) × (walk_all win.mode (graph_in win starts) win.path.vertices.now ≡ won (pair win.at.row win.at.column)) × (pair_count win.order ≤ length literals.old) }
    ensures { (result ≡ length (clause_of win.entry.mode (graph_in win.entry starts) win.entry.path.vertices.now)) × (literals.new ≡ clause_of win.entry.mode (graph_in win.entry starts) win.entry.path.vertices.now ++ drop (length (clause_of win.entry.mode (graph_in win.entry starts) win.entry.path.vertices.now)) literals.old) }
{
    write_pairs(win, what_goes(win, starts), literals)
}
