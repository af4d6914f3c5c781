// Rows turned over: columns for rows, and both halves from one.
ghost use Rattle.std.specs.Prelude.{◌≡◌, ◌<◌};
ghost use Rattle.words.specs.Placed.{placed};
ghost use Rattle.words.specs.Stage.{lower, upper, staged, transposed, in_both_halves};

// Rows of edges and rows of unknowns.
#[derive(Clone, Copy)]
pub struct Matrices {
    pub edges: [u32; 32],
    pub unknowns: [u32; 32],
}

// The same, lent.
#[derive(Clone, Copy)]
pub struct Rows<'a> {
    pub edges: &'a [u32; 32],
    pub unknowns: &'a [u32; 32],
}

impl Matrices {
    // Lends the rows.
    pub fn lend(&self) -> Rows<'_>
        ensures { (result.edges.now ≡ self.now.edges) × (result.unknowns.now ≡ self.now.unknowns) }
    {
        Rows {
            edges: &self.edges,
            unknowns: &self.unknowns,
        }
    }
}

// The halves of a and of b that m marks, side by side.
fn lower_of(a: u32, b: u32, s: u32, m: u32) -> u32
    requires { s < 32 }
    ensures { result ≡ lower s m a b }
{
    (a & m) | ((b & m) << s)
}

// The halves of a and of b that c marks, side by side.
fn upper_of(a: u32, b: u32, s: u32, m: u32, c: u32) -> u32
    requires { s < 32 }
    ensures { result ≡ upper s m c a b }
{
    ((a >> s) & m) | (b & c)
}

// One stage: a bit of the column changes places with the highest bit of the row, and the row's bits move up.
fn stage(rows: Rows, s: u32, m: u32, c: u32) -> Matrices
    requires { s < 32 }
    ensures { (result.edges ≡ placed (staged s m c rows.entry.edges.now) 32) × (result.unknowns ≡ placed (staged s m c rows.entry.unknowns.now) 32) }
{
    let mut es = [0u32; 32];
    let mut us = [0u32; 32];
    for i in 0usize..16 {
        let a = rows.edges[i];
        let b = rows.edges[i + 16];
        es[2 * i] = lower_of(a, b, s, m);
        es[2 * i + 1] = upper_of(a, b, s, m, c);
        let d = rows.unknowns[i];
        let e = rows.unknowns[i + 16];
        us[2 * i] = lower_of(d, e, s, m);
        us[2 * i + 1] = upper_of(d, e, s, m, c);
    }
    Matrices {
        edges: es,
        unknowns: us,
    }
}

// The rows transposed.
pub fn transposed_of(rows: Rows) -> Matrices
    ensures { (result.edges ≡ transposed rows.entry.edges.now) × (result.unknowns ≡ transposed rows.entry.unknowns.now) }
{
    let a = stage(rows, 16, 0x0000ffff, 0xffff0000);
    let b = stage(a.lend(), 8, 0x00ff00ff, 0xff00ff00);
    let c = stage(b.lend(), 4, 0x0f0f0f0f, 0xf0f0f0f0);
    let d = stage(c.lend(), 2, 0x33333333, 0xcccccccc);
    stage(d.lend(), 1, 0x55555555, 0xaaaaaaaa)
}

// Rows that are given above the diagonal, with their columns.
fn joined<'a>(rows: &'a [u32; 32], columns: &'a [u32; 32]) -> [u32; 32]
    requires { columns.now ≡ transposed rows.now }
    ensures { result ≡ placed (in_both_halves rows.now) 32 }
{
    let mut out = [0u32; 32];
    for i in 0usize..32 {
        out[i] = rows[i] | columns[i];
    }
    out
}

// Puts rows that are given above the diagonal into both halves.
pub fn mirror<'a, 'b>(edges: &'a mut [u32; 32], unknowns: &'b mut [u32; 32])
    ensures { (edges.new ≡ placed (in_both_halves edges.old) 32) × (unknowns.new ≡ placed (in_both_halves unknowns.old) 32) }
{
    let columns = transposed_of(Rows { edges, unknowns });
    let es = joined(edges, &columns.edges);
    *edges = es;
    let us = joined(unknowns, &columns.unknowns);
    *unknowns = us;
}
