// The first certificate: the won beginning completed, and its winning pair.
ghost use Rattle.std.specs.Prelude.{◌≡◌, ◌-◌, ◌≤◌, length, take, drop, replicate, IfSome};
ghost use Rattle.beginnings.specs.Beginning.{Beginning};
ghost use Rattle.beginnings.specs.Certificate.{completed};
ghost use Rattle.words.specs.Placed.{placed};
ghost use Rattle.rows.specs.Rows.{block_of};
ghost use Rattle.plain.specs.Plain.{compared_in};
ghost use Rattle.plain.specs.Before.{before_in};
ghost use Rattle.judging.specs.Judging.{padded};
ghost use Rattle.stops.specs.Used.{used_mask};
ghost use Rattle.exploring.specs.Masks.{block_mask};
ghost use Rattle.turns.specs.Turns.{turn_at, first_pair, Places};
ghost use Rattle.turns.specs.Next.{spot_pair};

use turns::next::next_pair;
use turns::path::{stored, weight_of};
use turns::spot::Spot;
use turns::walked::{Path, pair_turn};
use words::{lowest, power, without};

// The vertices of the path's first places as a mask.
fn used_mask(path: &[u8; 32], n: u32, starts: u32, depth: u32) -> u32
    requires { (length path.now ≡ 32) × (n ≤ 32) × Beginning n (block_of starts) (take depth path.now) × (length (take depth path.now) ≡ depth) }
    ensures { result ≡ used_mask (take depth path.now) }
{
    let mut used = 0;
    for i in 0..depth as usize {
        used += weight_of(path[i]);
    }
    used
}

// Fills the places after the first `depth` up to n, each with the lowest unused vertex of its block.
pub fn complete(n: u32, starts: u32, blocks: &[u32; 32], depth: u32, path: &mut [u8; 32])
    requires { (length path.old ≡ 32) × (n ≤ 32) × (length (take depth path.old) ≡ depth) × Beginning n (block_of starts) (take depth path.old) × (drop n path.old ≡ replicate (32 - n) 0) × (blocks.now ≡ placed (block_mask (block_of starts) n) n) }
    ensures { path.new ≡ padded (completed n (block_of starts) (n - depth) (take depth path.old)) }
{
    let mut used = used_mask(path, n, starts, depth);
    for d in depth as usize..n as usize {
        let v = lowest(without(blocks[d], used));
        path[d] = stored(v);
        used += power(v);
    }
}

// The winning pair of a path whose walk is won: the first that does not go on, if any.
pub fn winning(mode: u32, path: Path, n: u32) -> Option<Spot>
    requires { (n ≤ 32) × Places n path.vertices.now path.places.now }
    ensures { (spot_pair result ≡ first_pair (turn_at (before_in mode) path.entry.rows.edges.now path.entry.rows.unknowns.now path.entry.vertices.now path.entry.places.now) (compared_in mode n)) × IfSome result (λ s. s.column ≤ n) }
{
    if n < 2 {
        return None;
    }
    let mut next = Some(Spot { row: 1, column: 2 });
    while let Some(at) = next {
        let turn = pair_turn(mode, path, n, at.row, at.column);
        if !turn.is_open() {
            return Some(at);
        }
        next = next_pair(mode, n, at);
    }
    None
}
