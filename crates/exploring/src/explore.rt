// The search through beginnings in dictionary order.
ghost use Rattle.std.specs.Prelude.{◌≡◌, true, ◌+◌, ◌≤◌, ◌<◌, ◌≢◌, length, get_or, drop};
ghost use Rattle.words.specs.Placed.{placed};
ghost use Rattle.rows.specs.Rows.{block_of};
ghost use Rattle.graph.specs.Lent.{lent};
ghost use Rattle.judging.specs.Judging.{found};
ghost use Rattle.stops.specs.Stops.{Stopped};
ghost use Rattle.exploring.specs.Masks.{block_mask};
ghost use Rattle.exploring.specs.Found.{found_by, depth_of};

use arrangements::places::vertex_at;
use column_walks::tried::tried_in;
use graph::FormedGraph;
use stops::stops::set_stops;
use turns::path::{stored, weight_of};
use turns::turn::Turn;
use turns::walked::{Path, row_of};
use words::turned::Rows;
use words::{lowest, power, without};

// How a search ended.
#[derive(Clone, Copy)]
pub enum Explored {
    // No beginning is won.
    Nothing { steps: u32 },
    // The path's first places are the first won beginning.
    Won { steps: u32, depth: u32 },
    // The budget was used up first.
    Cut,
}

// Makes the stops that are needed after a vertex is chosen at a depth. By columns there are none.
fn renew_stops(
    mode: u32,
    rows: Rows,
    n: u32,
    depth: usize,
    used: u32,
    u: u32,
    stops: &mut [u32; 32],
)
    requires { (n ≤ 32) × (depth + 1 < n) × (1 ≤ u) × (u ≤ 32) × (length stops.old ≡ 32) × (mode ≢ 2 → get_or stops.old 0 0 ≡ 0) }
    ensures { (mode ≢ 2 → Stopped rows.entry.edges.now rows.entry.unknowns.now n depth used u stops.old stops.new) × (length stops.new ≡ 32) }
{
    if mode == 2 {
        return;
    }
    set_stops(rows, n, depth, used, u, stops);
}

// Tries the beginnings in dictionary order, one a turn, up to the first won one or the budget. Afterwards the path's first
// places are that beginning, and the places after n are as they were.
pub fn explore(
    mode: u32,
    formed: FormedGraph,
    blocks: &[u32; 32],
    budget: u32,
    path: &mut [u8; 32],
) -> Explored
    requires { (length path.old ≡ 32) × (blocks.now ≡ placed (block_mask (block_of formed.graph.starts) formed.graph.order) formed.graph.order) }
    ensures { (found_by result path.new ≡ found mode (lent formed.entry.graph) budget) × (drop formed.entry.graph.order path.new ≡ drop formed.entry.graph.order path.old) × (depth_of result ≤ formed.entry.graph.order) }
{
    let n = formed.graph.order;
    let rows = formed.graph.rows;
    let ones = row_of(rows.edges, 1);
    let doubts = row_of(rows.unknowns, 1);
    let mut untried = [0; 32];
    let mut stops = [0; 32];
    let mut places = [0; 32];
    let mut left = blocks[0];
    let mut used = 0;
    let mut depth = 0usize;
    let mut steps = 0;
    loop {
        if left == 0 {
            if depth == 0 {
                return Explored::Nothing { steps };
            }
            depth -= 1;
            used -= weight_of(path[depth]);
            left = untried[depth];
        } else {
            if steps == budget {
                return Explored::Cut;
            }
            let v = lowest(left);
            let weight = power(v);
            let with = used + weight;
            left -= weight;
            path[depth] = stored(v);
            places[v as usize] = stored(depth as u32);
            steps += 1;
            let k = depth as u32 + 1;
            let tried = Path {
                rows,
                vertices: path,
                places: &places,
            };
            let stop = stops[depth];
            match tried_in(mode, tried, n, ones, doubts, stop, used, with, v, k) {
                Turn::Won => return Explored::Won { steps, depth: k },
                Turn::Lost => {}
                Turn::Open => {
                    used = with;
                    renew_stops(mode, rows, n, depth, used, vertex_at(path, 1), &mut stops);
                    untried[depth] = left;
                    depth += 1;
                    left = without(blocks[depth], used);
                }
            }
        }
    }
}
