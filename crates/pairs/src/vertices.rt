// Orders, vertices and pairs of vertices, as a caller may give them: is a number one?
ghost use Rattle.std.specs.Prelude.{◌≡◌};
ghost use Rattle.pairs.specs.Vertices.{order_fits, is_vertex, is_pair};

// Is it an order that a graph may have?
pub fn order_fits(order: u32) -> bool
    ensures { result ≡ order_fits order }
{
    if order < 1 {
        return false;
    }
    order <= 32
}

// Is v a vertex of a graph of order n?
pub fn is_vertex(n: u32, v: u32) -> bool
    ensures { result ≡ is_vertex n v }
{
    if v < 1 {
        return false;
    }
    v <= n
}

// Are i and j two vertices of a graph of order n?
pub fn is_pair(n: u32, i: u32, j: u32) -> bool
    ensures { result ≡ is_pair n i j }
{
    if is_vertex(n, i) {
        if is_vertex(n, j) {
            return i != j;
        }
        return false;
    }
    false
}
