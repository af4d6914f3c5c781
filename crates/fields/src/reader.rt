// A reader over the caller's bytes, which keeps its bit place from field to field.
ghost use Rattle.std.specs.Prelude.{◌≡◌};
ghost use Rattle.fields.specs.Reader.{taken_at, opened, field_ahead, moved_to, two_at};

use crate::field;
use refusal::Refusal;

// The caller's bytes, and the bit place of the next field.
#[derive(Clone, Copy)]
pub struct Reader<'a> {
    pub bytes: &'a [u8],
    pub place: usize,
}

// A field that was read, or why not, and the bit place after it.
#[derive(Clone, Copy)]
pub struct Taken {
    pub found: Result<u32, Refusal>,
    pub next: usize,
}

// Two fields, one after the other, and the bit place after them.
#[derive(Clone, Copy)]
pub struct Two {
    pub first: Result<u32, Refusal>,
    pub second: Result<u32, Refusal>,
    pub next: usize,
}

// The field at a bit place, and the bit place after it: past the field, or the same where the field is refused.
// Refuses what a field refuses, and 1 for a field that ends past the last bit place, with the number of bytes.
pub fn field_from(bytes: &[u8], place: usize, width: u32) -> Taken
    ensures { result ≡ taken_at bytes.now place width }
{
    let found = field(bytes, place, width);
    if found.is_err() {
        return Taken { found, next: place };
    }
    match place.checked_add(width as usize) {
        Some(next) => Taken { found, next },
        None => Taken {
            found: Err(Refusal::PastTheBytes { given: bytes.len() }),
            next: place,
        },
    }
}

impl<'a> Reader<'a> {
    // A reader over these bytes, at bit place 0.
    pub fn open(bytes: &'a [u8]) -> Reader<'a>
        ensures { result ≡ opened bytes.entry }
    {
        Reader { bytes, place: 0 }
    }

    // The field of this width at the reader's place, which moves past it. A refused field leaves the place.
    pub fn take(&mut self, width: u32) -> Result<u32, Refusal>
        ensures { (result ≡ (field_ahead self.old width).found) × (self.new ≡ moved_to self.old (field_ahead self.old width).next) }
    {
        let taken = field_from(self.bytes, self.place, width);
        self.place = taken.next;
        taken.found
    }
}

// Two fields, one after the other, that a reader at this bit place takes, and its place after them.
pub fn take_two(bytes: &[u8], place: usize, first: u32, second: u32) -> Two
    ensures { result ≡ two_at bytes.now place first second }
{
    let mut reader = Reader::open(bytes);
    reader.place = place;
    let one = reader.take(first);
    let two = reader.take(second);
    Two {
        first: one,
        second: two,
        next: reader.place,
    }
}
