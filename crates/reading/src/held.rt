// Bytes that hold a record, with its order.
ghost use Rattle.std.specs.Prelude.{◌≤◌};

// The bytes of a record of this order, which a graph may have. Past them there are zeros.
#[derive(Clone, Copy)]
pub struct Held<'a> {
    pub bytes: &'a [u8],
    pub order: u32,
    ghost low: { 1 ≤ order },
    ghost high: { order ≤ 32 },
}
