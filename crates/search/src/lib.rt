// Judging a partially drawn graph: does some permitted renumbering make every full drawing of it smaller in dictionary order?

#![tactic(auto)]

ghost use Rattle.std.specs.Prelude.{◌≡◌, true, ◌++◌, ◌-◌, ◌≤◌, ◌<◌, length, take, drop, replicate, MatchResult};
ghost use Rattle.beginnings.specs.Beginning.{Beginning};
ghost use Rattle.beginnings.specs.Search.{won};
ghost use Rattle.words.specs.Placed.{placed};
ghost use Rattle.rows.specs.Rows.{block_of};
ghost use Rattle.pairs.specs.Pairs.{pair_count};
ghost use Rattle.refusal.specs.Numbers.{number_of, place_of};
ghost use Rattle.graph.specs.Lent.{lent};
ghost use Rattle.arrangements.specs.Arrangement.{is_permitted};
ghost use Rattle.judging.specs.Judging.{walk_all, judged, found, clause_of, certificate_of};
ghost use Rattle.search.specs.Won.{IsWon};
ghost use Rattle.exploring.specs.Masks.{block_mask};
ghost use Rattle.judging.specs.declared.Verdict.TheVariants.{Refused};
ghost use Rattle.judging.specs.Answer.{without, smaller, answer_for, at_start, is_mode, judge_answer, judge_buffer};

use clause::certificate::{complete, winning};
use clause::written::write_clause;
use composing::composed::inverse_of;
use exploring::explore::{Explored, explore};
use exploring::masks::block_masks;
use graph::{FormedGraph, Graph, LentGraph};
use judging::{Judged, Verdict};
use kinds::kind::Win;
use pairs::pair_count;
use refusal::Refusal;
use turns::spot::Spot;
use turns::walked::Path;

// A verdict with nothing beside it.
fn bare(verdict: Verdict) -> Judged
    ensures { result ≡ without verdict }
{
    Judged {
        verdict,
        arrangement: [0; 32],
        literals: 0,
    }
}

// A refusal as it is told.
fn refused(why: Refusal) -> Judged
    ensures { result ≡ without (Refused (number_of why) (place_of why)) }
{
    bare(Verdict::Refused {
        number: why.number(),
        place: why.place(),
    })
}

// Is it 1, by rows, or 2, by columns?
fn is_mode(mode: u32) -> bool
    ensures { result ≡ is_mode mode }
{
    mode == 1 || mode == 2
}

// Refuses a buffer that does not hold a literal for each pair.
fn check_room(n: u32, room: usize) -> Result<(), Refusal>
    requires { (1 ≤ n) × (n ≤ 32) }
    ensures { MatchResult result (λ _. pair_count n ≤ room) (λ e. (room < pair_count n) × (e ≡ Refusal.LiteralRoom)) }
{
    if pair_count(n) as usize <= room {
        Ok(())
    } else {
        Err(Refusal::LiteralRoom)
    }
}

// The answer for a permitted arrangement whose walk is won: its winning pair, and the clause written.
fn tell_smaller(
    mode: u32,
    formed: FormedGraph,
    arrangement: &[u8; 32],
    steps: u32,
    literals: &mut [i32],
) -> Judged
    requires { (pair_count formed.graph.order ≤ length literals.old) × (is_permitted formed.graph.order formed.graph.starts arrangement.now ≡ true) × IsWon (walk_all mode (lent formed.graph) arrangement.now) }
    ensures { (result ≡ smaller mode (lent formed.entry.graph) arrangement.now steps) × (literals.new ≡ clause_of mode (lent formed.entry.graph) arrangement.now ++ drop (length (clause_of mode (lent formed.entry.graph) arrangement.now)) literals.old) }
{
    let LentGraph {
        order,
        rows,
        starts,
    } = formed.graph;
    let places = inverse_of(order, arrangement);
    let path = Path {
        rows,
        vertices: arrangement,
        places: &places,
    };
    let Some(at) = winning(mode, path, order) else {
        unreachable!()
    };
    let Spot { row, column } = at;
    let win = Win {
        mode,
        order,
        path,
        at,
    };
    let count = write_clause(win, starts, literals);
    Judged {
        verdict: Verdict::Smaller { row, column, steps },
        arrangement: *arrangement,
        literals: count,
    }
}

// The answer where the path's first places are the first won beginning: its certificate, and the clause written.
fn certify(
    mode: u32,
    formed: FormedGraph,
    blocks: &[u32; 32],
    path: &mut [u8; 32],
    depth: u32,
    steps: u32,
    literals: &mut [i32],
) -> Judged
    requires { (pair_count formed.graph.order ≤ length literals.old) × (blocks.now ≡ placed (block_mask (block_of formed.graph.starts) formed.graph.order) formed.graph.order) × (depth ≤ formed.graph.order) × Beginning formed.graph.order (block_of formed.graph.starts) (take depth path.old) × (judged mode (lent formed.graph) (take depth path.old) ≡ won) × (drop formed.graph.order path.old ≡ replicate (32 - formed.graph.order) 0) }
    ensures { (result ≡ smaller mode (lent formed.entry.graph) (certificate_of (lent formed.entry.graph) (take depth path.old)) steps) × (literals.new ≡ clause_of mode (lent formed.entry.graph) (certificate_of (lent formed.entry.graph) (take depth path.old)) ++ drop (length (clause_of mode (lent formed.entry.graph) (certificate_of (lent formed.entry.graph) (take depth path.old)))) literals.old) }
{
    complete(formed.graph.order, formed.graph.starts, blocks, depth, path);
    tell_smaller(mode, formed, path, steps, literals)
}

// The answer for a buffer with room.
fn judge_with_room(mode: u32, formed: FormedGraph, budget: u32, literals: &mut [i32]) -> Judged
    requires { pair_count formed.graph.order ≤ length literals.old }
    ensures { (result ≡ answer_for mode (lent formed.entry.graph) budget (found mode (lent formed.entry.graph) budget)) × (literals.new ≡ at_start result.verdict (clause_of mode (lent formed.entry.graph) result.arrangement) literals.old) }
{
    let blocks = block_masks(formed.graph.order, formed.graph.starts);
    let mut path = [0; 32];
    let end = explore(mode, formed, &blocks, budget, &mut path);
    match end {
        Explored::Won { steps, depth } => {
            certify(mode, formed, &blocks, &mut path, depth, steps, literals)
        }
        Explored::Nothing { steps } => bare(Verdict::Nothing { steps }),
        Explored::Cut => bare(Verdict::Cut { steps: budget }),
    }
}

// The answer for a known mode.
fn judge_known(mode: u32, formed: FormedGraph, budget: u32, literals: &mut [i32]) -> Judged
    requires { is_mode mode ≡ true }
    ensures { (result ≡ judge_answer mode (lent formed.entry.graph) budget (length literals.old)) × (literals.new ≡ judge_buffer mode (lent formed.entry.graph) budget literals.old) }
{
    match check_room(formed.graph.order, literals.len()) {
        Ok(()) => judge_with_room(mode, formed, budget, literals),
        Err(why) => refused(why),
    }
}

// Judges a graph as `judge` does, where it is known to be well formed.
pub fn judge_formed(formed: FormedGraph, mode: u32, budget: u32, literals: &mut [i32]) -> Judged
    ensures { (result ≡ judge_answer mode (lent formed.entry.graph) budget (length literals.old)) × (literals.new ≡ judge_buffer mode (lent formed.entry.graph) budget literals.old) }
{
    if is_mode(mode) {
        return judge_known(mode, formed, budget, literals);
    }
    refused(Refusal::Mode)
}

// Judges a graph whose rows are lent as `judge` does. They are only read, and no graph is made of them.
pub fn judge_rows(graph: LentGraph, mode: u32, budget: u32, literals: &mut [i32]) -> Judged
    ensures { (result ≡ judge_answer mode (lent graph.entry) budget (length literals.old)) × (literals.new ≡ judge_buffer mode (lent graph.entry) budget literals.old) }
{
    if !is_mode(mode) {
        return refused(Refusal::Mode);
    }
    match graph.formed() {
        Ok(formed) => judge_known(mode, formed, budget, literals),
        Err(why) => refused(why),
    }
}

// Judges the graph within the budget, by rows in mode 1 and by columns in mode 2. A clause is written at the buffer's start
// where the verdict is Smaller; every other answer leaves the buffer. The buffer needs room for a literal for each pair.
pub fn judge(graph: &Graph, mode: u32, budget: u32, literals: &mut [i32]) -> Judged
    ensures { (result ≡ judge_answer mode graph.now budget (length literals.old)) × (literals.new ≡ judge_buffer mode graph.now budget literals.old) }
{
    judge_rows(graph.lend(), mode, budget, literals)
}
