// Why something is refused: the rules' numbers of refusal, each with the place that is told beside it.

#![tactic(auto)]

ghost use Rattle.std.specs.Prelude.{◌≡◌};
ghost use Rattle.refusal.specs.Numbers.{number_of, place_of, refusal_told, place_told};

// Why something is refused.
#[derive(Clone, Copy, Debug, PartialEq, Eq)]
pub enum Refusal {
    // A record or a field runs past the bytes, of which so many were given.
    PastTheBytes { given: usize },
    // The order is 0 or above 32.
    Order { order: u32 },
    // An entry of a record is 11; the first is that of the pair with this number.
    Entry { pair: u32 },
    // A pad bit of a record is 1.
    Pad,
    // The buffer for literals is below n(n-1)/2.
    LiteralRoom,
    // The output buffer is below the record.
    OutputRoom,
    // A vertex is 0 or above n, or the two are one.
    Vertex,
    // The graph value is not well formed.
    Malformed,
    // The value for an entry is not 0, 1 or 2.
    Value,
    // The book is above 65,536 bytes.
    LongBook,
    // It is no reordering with zeros after place n, or not permitted where that is needed.
    Arrangement,
    // A field's width is 0 or above 6.
    Width,
    // The mode is neither 1 nor 2.
    Mode,
}

impl Refusal {
    // Its number.
    pub fn number(self) -> u32
        ensures { result ≡ number_of self }
    {
        match self {
            Refusal::PastTheBytes { .. } => 1,
            Refusal::Order { .. } => 2,
            Refusal::Entry { .. } => 3,
            Refusal::Pad => 4,
            Refusal::LiteralRoom => 5,
            Refusal::OutputRoom => 6,
            Refusal::Vertex => 7,
            Refusal::Malformed => 8,
            Refusal::Value => 9,
            Refusal::LongBook => 10,
            Refusal::Arrangement => 11,
            Refusal::Width => 12,
            Refusal::Mode => 16,
        }
    }

    // The place that is told beside it.
    pub fn place(self) -> usize
        ensures { result ≡ place_of self }
    {
        match self {
            Refusal::PastTheBytes { given } => given,
            Refusal::Order { order } => order as usize,
            Refusal::Entry { pair } => pair as usize,
            _ => 0,
        }
    }
}

// The number and the place of an answer's refusal, or zeros.
pub fn told<T>(answer: &Result<T, Refusal>) -> (u32, usize)
    ensures { (result.0 ≡ refusal_told answer.now) × (result.1 ≡ place_told answer.now) }
{
    match answer {
        Ok(_) => (0, 0),
        Err(refusal) => (refusal.number(), refusal.place()),
    }
}
