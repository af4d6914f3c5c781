// Judges every fully drawn graph of small orders in one block, and writes how many of each order are judged "none" and
// how many of these are connected.

#![tactic(auto)]

ghost use Rattle.std.specs.Prelude.{◌≡◌, ◌≤◌, ◌<◌, length};

use graph::Graph;
use judging::Verdict;
use rows::entries::mark;
use std::io;
use std::io::Print;

// How many graphs are judged "none", and how many of these are connected.
#[derive(Clone, Copy)]
struct Tally {
    smallest: u32,
    connected: u32,
}

// Gives the pairs of a row the bits of a code for entries, the lowest first, and answers the bits that are left.
fn draw_row(edges: &mut [u32; 32], order: u32, i: u32, code: u32) -> u32
    requires { (length edges.old ≡ 32) × (order ≤ 32) × (1 ≤ i) × (i < order) }
    ensures { length edges.new ≡ 32 }
{
    let mut rest = code;
    let mut j = i + 1;
    while j <= order {
        mark(edges, i, j, rest % 2);
        rest /= 2;
        j += 1;
    }
    rest
}

// The graph whose pairs in row order have the bits of a code for entries, the lowest first.
fn drawn(order: u32, code: u32) -> Graph
    requires { order ≤ 32 }
    ensures { result.order ≡ order }
{
    let mut edges = [0u32; 32];
    let mut rest = code;
    let mut i = 1;
    while i < order {
        rest = draw_row(&mut edges, order, i, rest);
        i += 1;
    }
    Graph {
        order,
        edges,
        unknowns: [0u32; 32],
        starts: 1,
    }
}

// Is the graph judged "none"?
fn is_smallest(graph: Graph) -> bool {
    let mut literals = [0i32; 496];
    let judged = search::judge(&graph, 1, u32::MAX, &mut literals);
    let verdict = judged.verdict;
    match verdict {
        Verdict::Nothing { steps: _ } => true,
        Verdict::Smaller {
            row: _,
            column: _,
            steps: _,
        } => false,
        Verdict::Cut { steps: _ } => false,
        Verdict::Refused {
            number: _,
            place: _,
        } => false,
    }
}

// The vertices of a row where its own vertex is reached, else none.
fn neighbours(row: u32, i: u32, reached: u32) -> u32
    requires { i < 32 }
{
    if (reached >> i) % 2 == 1 {
        return row;
    }
    0
}

// The reached vertices and all their neighbours.
fn spread(edges: [u32; 32], order: u32, reached: u32) -> u32
    requires { order ≤ 32 }
{
    let mut more = reached;
    let mut i = 0;
    while i < order {
        let at = i as usize;
        more |= neighbours(edges[at], i, reached);
        i += 1;
    }
    more
}

// Does a path lead from vertex 1 to every vertex?
fn is_connected(graph: Graph) -> bool
    requires { graph.order ≤ 32 }
{
    let edges = graph.edges;
    let order = graph.order;
    let mut reached = 1;
    let mut i = 0;
    while i < order {
        reached = spread(edges, order, reached);
        i += 1;
    }
    u32::count_ones(reached) == order
}

// 1 where a graph counts, else 0.
fn one_if(counts: bool) -> u32
    ensures { result ≤ 1 }
{
    if counts {
        return 1;
    }
    0
}

// What the graph with a code adds.
fn tally_of(order: u32, code: u32) -> Tally
    requires { order ≤ 32 }
    ensures { (result.smallest ≤ 1) × (result.connected ≤ 1) }
{
    if is_smallest(drawn(order, code)) {
        return Tally {
            smallest: 1,
            connected: one_if(is_connected(drawn(order, code))),
        };
    }
    Tally {
        smallest: 0,
        connected: 0,
    }
}

// What all graphs of an order come to.
fn tally_all(order: u32, codes: u32) -> Tally
    requires { order ≤ 32 }
{
    let mut smallest = 0;
    let mut connected = 0;
    let mut code = 0;
    while code < codes {
        let one = tally_of(order, code);
        smallest += one.smallest;
        connected += one.connected;
        code += 1;
    }
    Tally {
        smallest,
        connected,
    }
}

// The line of an order, which has so many graphs.
fn show(to: &impl Print, order: u32, codes: u32) -> io::Result<()>
    requires { order ≤ 32 }
{
    let all = tally_all(order, codes);
    let smallest = all.smallest;
    let connected = all.connected;
    println!(to;
        "order {order}: {smallest} of {codes} graphs are judged none, {connected} of these are connected"
    )
}

fn main(rt: HostRuntime) -> io::Result<()> {
    show(&rt, 1, 1)?;
    show(&rt, 2, 2)?;
    show(&rt, 3, 8)?;
    show(&rt, 4, 64)?;
    show(&rt, 5, 1024)?;
    show(&rt, 6, 32768)?;
    show(&rt, 7, 2097152)
}
