// Graph values, their entries, blocks and counts. Vertices are numbered from 1.

#![tactic(auto)]

ghost use Rattle.std.specs.Prelude.{◌≡◌, ◌≤◌, ◌<◌, true, false, length, Err, MatchResult};
ghost use Rattle.pairs.specs.Vertices.{is_pair, is_vertex};
ghost use Rattle.arrangements.specs.Arrangement.{is_permitted};
ghost use Rattle.graph.specs.Lent.{lent};
ghost use Rattle.graph.specs.WellFormed.{well_formed};
ghost use Rattle.graph.specs.Answers.{no_graph, unset, totals_of, read_answer, set_answer, count_answer, degree_answer, relabel_answer};

use arrangements::moved::moved_rows;
use arrangements::permitted::is_permitted;
use pairs::vertices::{is_pair, is_vertex, order_fits};
use refusal::Refusal;
use rows::entries::{entry_in, mark, ones_at, ones_in};
use rows::fits::{rows_fit, starts_fit};
use words::turned::Rows;

// A partially drawn graph. The row of vertex i stands at index i - 1, and vertex j is its bit j - 1; an entry is 1 where
// its bit is set in edges, unknown where it is set in unknowns. In starts, bit v - 1 is set where vertex v starts a block.
#[derive(Clone, Copy)]
pub struct Graph {
    pub order: u32,
    pub edges: [u32; 32],
    pub unknowns: [u32; 32],
    pub starts: u32,
}

// A graph whose rows are lent.
#[derive(Clone, Copy)]
pub struct LentGraph<'a> {
    pub rows: Rows<'a>,
    pub order: u32,
    pub starts: u32,
}

// A graph that is well formed, its rows lent.
#[derive(Clone, Copy)]
pub struct FormedGraph<'a> {
    pub graph: LentGraph<'a>,
    ghost formed: { well_formed (lent graph) ≡ true },
}

// Why an entry was not set, and the graph as it came.
#[derive(Clone, Copy)]
pub struct Unset {
    pub refusal: Refusal,
    pub graph: Graph,
}

// How many pairs are edges, non-edges and unknown.
#[derive(Clone, Copy, Default)]
pub struct Totals {
    pub edges: u32,
    pub non_edges: u32,
    pub unknowns: u32,
}

impl Graph {
    // The graph of order 0, all zeros.
    pub fn none() -> Graph
        ensures { result ≡ no_graph }
    {
        Graph {
            order: 0,
            edges: [0; 32],
            unknowns: [0; 32],
            starts: 0,
        }
    }

    // Lends the rows.
    pub fn lend(&self) -> LentGraph<'_>
        ensures { lent result ≡ self.now }
    {
        LentGraph {
            order: self.order,
            rows: Rows {
                edges: &self.edges,
                unknowns: &self.unknowns,
            },
            starts: self.starts,
        }
    }

    // Is the order in range, the rows symmetric with nothing on the diagonal or past the order, no entry both known and
    // unknown, does vertex 1 start a block, and lies no start past the order?
    pub fn is_well_formed(&self) -> bool
        ensures { result ≡ well_formed self.now }
    {
        self.lend().is_well_formed()
    }

    // The entry at (i, j): 0 non-edge, 1 edge, 2 unknown.
    pub fn read(&self, i: u32, j: u32) -> Result<u32, Refusal>
        ensures { result ≡ read_answer self.now i j }
    {
        self.lend().formed()?;
        check_pair(self.order, i, j)?;
        Ok(entry_in(self.lend().rows, i, j))
    }

    // The graph with the entry at (i, j), in both halves, made value; or the refusal with the graph as it came.
    pub fn set(mut self, i: u32, j: u32, value: u32) -> Result<Graph, Unset>
        ensures { result ≡ set_answer self i j value }
    {
        if let Err(refusal) = check_setting(&self, i, j, value) {
            return Err(Unset {
                refusal,
                graph: self,
            });
        }
        mark(&mut self.edges, i, j, value % 2);
        mark(&mut self.unknowns, i, j, value / 2);
        Ok(self)
    }

    // How many pairs are edges, non-edges and unknown.
    pub fn count(&self) -> Result<Totals, Refusal>
        ensures { result ≡ count_answer self.now }
    {
        Ok(self.lend().formed()?.totals())
    }

    // How many edges vertex v has.
    pub fn count_at(&self, v: u32) -> Result<u32, Refusal>
        ensures { result ≡ degree_answer self.now v }
    {
        self.lend().formed()?;
        check_vertex(self.order, v)?;
        Ok(ones_at(&self.edges, v))
    }

    // The graph relabelled by p, with the same blocks.
    pub fn relabel(&self, p: [u8; 32]) -> Result<Graph, Refusal>
        ensures { result ≡ relabel_answer self.now p }
    {
        self.lend().formed()?;
        let order = self.order;
        let starts = self.starts;
        check_permitted(order, starts, p)?;
        Ok(Graph {
            order,
            edges: moved_rows(&self.edges, &p, order),
            unknowns: moved_rows(&self.unknowns, &p, order),
            starts,
        })
    }
}

// What stands for a refused graph.
impl Default for Graph {
    ghost is_default = { λ g. g ≡ no_graph };

    fn default() -> Graph {
        Graph::none()
    }
}

// Refuses what is no two vertices.
fn check_pair(order: u32, i: u32, j: u32) -> Result<(), Refusal>
    ensures { MatchResult result (λ _. is_pair order i j ≡ true) (λ e. (is_pair order i j ≡ false) × (e ≡ Refusal.Vertex)) }
{
    if is_pair(order, i, j) {
        Ok(())
    } else {
        Err(Refusal::Vertex)
    }
}

// Refuses what is no vertex.
fn check_vertex(order: u32, v: u32) -> Result<(), Refusal>
    ensures { MatchResult result (λ _. is_vertex order v ≡ true) (λ e. (is_vertex order v ≡ false) × (e ≡ Refusal.Vertex)) }
{
    if is_vertex(order, v) {
        Ok(())
    } else {
        Err(Refusal::Vertex)
    }
}

// Refuses what is no entry.
fn check_value(value: u32) -> Result<(), Refusal>
    ensures { MatchResult result (λ _. value ≤ 2) (λ e. (2 < value) × (e ≡ Refusal.Value)) }
{
    if value <= 2 {
        Ok(())
    } else {
        Err(Refusal::Value)
    }
}

// Refuses an arrangement that is not permitted.
fn check_permitted(order: u32, starts: u32, p: [u8; 32]) -> Result<(), Refusal>
    requires { order ≤ 32 }
    ensures { MatchResult result (λ _. is_permitted order starts p ≡ true) (λ e. (is_permitted order starts p ≡ false) × (e ≡ Refusal.Arrangement)) }
{
    if is_permitted(order, starts, p) {
        Ok(())
    } else {
        Err(Refusal::Arrangement)
    }
}

// Refuses what can't be set.
fn check_setting(graph: &Graph, i: u32, j: u32, value: u32) -> Result<(), Refusal>
    ensures { MatchResult result (λ _. (well_formed graph.now ≡ true) × (is_pair graph.now.order i j ≡ true) × (value ≤ 2)) (λ e. Err (unset e graph.now) ≡ set_answer graph.now i j value) }
{
    graph.lend().formed()?;
    check_pair(graph.order, i, j)?;
    check_value(value)
}

// Says that an array of rows has them all, which a reference in a struct does not tell.
fn whole(rows: [u32; 32])
    ensures { length rows ≡ 32 }
{}

impl<'a> LentGraph<'a> {
    // Is the graph value well formed?
    pub fn is_well_formed(self) -> bool
        ensures { result ≡ well_formed (lent self.entry) }
    {
        if !order_fits(self.order) {
            return false;
        }
        whole(*self.rows.edges);
        whole(*self.rows.unknowns);
        starts_fit(self.order, self.starts) && rows_fit(self.order, self.rows)
    }

    // The graph as one that is well formed.
    pub fn formed(self) -> Result<FormedGraph<'a>, Refusal>
        ensures { MatchResult result (λ f. f.graph ≡ self.entry) (λ e. (well_formed (lent self.entry) ≡ false) × (e ≡ Refusal.Malformed)) }
    {
        if self.is_well_formed() {
            Ok(FormedGraph { graph: self })
        } else {
            Err(Refusal::Malformed)
        }
    }
}

impl FormedGraph<'_> {
    // How many pairs are edges, non-edges and unknown.
    fn totals(self) -> Totals
        ensures { result ≡ totals_of (lent self.entry.graph) }
    {
        let LentGraph { order, rows, .. } = self.graph;
        let edges = ones_in(rows.edges) / 2;
        let unknowns = ones_in(rows.unknowns) / 2;
        let pairs = order * (order - 1) / 2;
        Totals {
            edges,
            non_edges: pairs - edges - unknowns,
            unknowns,
        }
    }
}
