// A pair as a value.
ghost use Rattle.std.specs.Prelude.{◌≤◌, ◌<◌};

// A pair of two vertices, the smaller one first.
#[derive(Clone, Copy)]
pub struct Spot {
    pub row: u32,
    pub column: u32,
    ghost from_one: { 1 ≤ row },
    ghost rising: { row < column },
}
