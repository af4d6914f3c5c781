// Row 1 by masks: for each place after the first, the vertices that decide its pair with place 1, where u stands at place 1.
ghost use Rattle.std.specs.Prelude.{◌≡◌, ◌+◌, ◌≤◌, ◌<◌, length, get_or};
ghost use Rattle.stops.specs.Stops.{own_mask, passed_mask, marks_at, one_at, stops_by, Made, Stopped};

use turns::walked::row_of;
use words::turned::Rows;
use words::{power, without};

// The vertex that makes (1, k) its own image.
fn own_mask(u: u32, k: u32) -> u32
    requires { (1 ≤ k) × (k ≤ 32) }
    ensures { result ≡ own_mask u k }
{
    if u == 1 {
        return power(k - 1);
    }
    if u == k {
        return 1;
    }
    0
}

// The vertices whose pair with u comes before (1, k).
fn passed_mask(u: u32, k: u32) -> u32
    requires { (1 ≤ k) × (k ≤ 32) }
    ensures { result ≡ passed_mask u k }
{
    if u == 1 {
        return power(k - 1) - 1;
    }
    if u < k {
        return 1;
    }
    0
}

// The vertices whose pair with u counts as an edge as the image of (1, k), by the edges and unknowns of row u.
fn marks_at(marks: u32, hidden: u32, u: u32, k: u32) -> u32
    requires { (1 ≤ k) × (k ≤ 32) }
    ensures { result ≡ marks_at marks hidden u k }
{
    marks | without(hidden, passed_mask(u, k))
}

// 1 where (1, k) counts as an edge, by the edges and unknowns of row 1 and the vertices in use.
pub fn one_at(ones: u32, doubts: u32, used: u32, u: u32, k: u32) -> u32
    requires { (1 ≤ k) × (k ≤ 32) }
    ensures { (result ≡ one_at ones doubts used u k) × (result ≤ 1) }
{
    if (doubts >> (k - 1)) % 2 == 0 {
        return (ones >> (k - 1)) % 2;
    }
    if u == 1 {
        return (used >> (k - 1)) % 2;
    }
    if u == k {
        return used % 2;
    }
    0
}

// The vertices that decide (1, k), by whether it counts as an edge and by the marks.
fn stops_by(one: u32, marks: u32, u: u32, k: u32) -> u32
    requires { (1 ≤ k) × (k ≤ 32) }
    ensures { result ≡ stops_by one marks u k }
{
    if one == 1 {
        return without(0xFFFF_FFFF, marks);
    }
    without(marks, own_mask(u, k))
}

// The same by the edges and unknowns of row 1 and of row u.
fn stops_of(ones: u32, doubts: u32, marks: u32, hidden: u32, used: u32, u: u32, k: u32) -> u32
    requires { (1 ≤ k) × (k ≤ 32) }
    ensures { result ≡ stops_by (one_at ones doubts used u k) (marks_at marks hidden u k) u k }
{
    let one = one_at(ones, doubts, used, u, k);
    stops_by(one, marks_at(marks, hidden, u, k), u, k)
}

// Makes the stops of every place, where u is the first vertex and alone in use.
fn first_stops(rows: Rows, n: u32, used: u32, u: u32, stops: &mut [u32; 32])
    requires { (n ≤ 32) × (1 ≤ u) × (u ≤ 32) × (length stops.old ≡ 32) × (get_or stops.old 0 0 ≡ 0) }
    ensures { Made rows.entry.edges.now rows.entry.unknowns.now used u n stops.new }
{
    let ones = row_of(rows.edges, 1);
    let doubts = row_of(rows.unknowns, 1);
    let marks = row_of(rows.edges, u);
    let hidden = row_of(rows.unknowns, u);
    for i in 1..n {
        stops[i as usize] = stops_of(ones, doubts, marks, hidden, used, u, i + 1);
    }
}

// Makes the stops that are needed after a vertex is chosen at a depth.
pub fn set_stops(rows: Rows, n: u32, depth: usize, used: u32, u: u32, stops: &mut [u32; 32])
    requires { (n ≤ 32) × (depth + 1 < n) × (1 ≤ u) × (u ≤ 32) × (length stops.old ≡ 32) × (get_or stops.old 0 0 ≡ 0) }
    ensures { Stopped rows.entry.edges.now rows.entry.unknowns.now n depth used u stops.old stops.new × (length stops.new ≡ 32) }
{
    if depth == 0 {
        first_stops(rows, n, used, u, stops);
        return;
    }
    let next = depth + 1;
    let doubts = row_of(rows.unknowns, 1);
    if (doubts >> next as u32) % 2 == 1 {
        let ones = row_of(rows.edges, 1);
        let marks = row_of(rows.edges, u);
        let hidden = row_of(rows.unknowns, u);
        stops[next] = stops_of(ones, doubts, marks, hidden, used, u, next as u32 + 1);
    }
}
