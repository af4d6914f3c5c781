// Bytes put into a lent buffer one after the other, as far as there is room.
ghost use Rattle.std.specs.Prelude.{◌≡◌, [], ◌∷◌};
ghost use Rattle.text.specs.Lists.{listed};
ghost use Rattle.text.specs.Page.{page};
ghost use Rattle.text.specs.Writer.{Puts};

use crate::decimal::Number;

// A lent buffer, and the place of the next byte.
#[derive(Drop)]
pub struct Writer<'a> {
    pub out: &'a mut [u8],
    pub at: usize,
}

impl<'a> Writer<'a> {
    // At the start of a buffer.
    pub fn new(out: &'a mut [u8]) -> Writer<'a>
        ensures same_buffer { result.out.ghost_name ≡ out.entry.ghost_name }
        ensures start { page result.out.now result.at ≡ page out.old 0 }
    {
        Writer { out, at: 0 }
    }

    // One byte more.
    pub fn push(&mut self, byte: u8)
        ensures { Puts self.old (byte ∷ []) self.new }
    {
        if self.at < self.out.len() {
            self.out[self.at] = byte;
            self.at += 1;
        }
    }

    // The bytes of text.
    pub fn put(&mut self, text: &[u8])
        ensures { Puts self.old text.now self.new }
    {
        for &byte in text {
            self.push(byte);
        }
    }
    // The numbers of a list with commas between them. A dash stands for an empty one.
    pub fn put_list<N: Number>(&mut self, numbers: &[N])
        ensures { Puts self.old (listed N.text numbers.now) self.new }
    {
        let Some((first, others)) = numbers.split_first() else {
            self.push(b'-');
            return;
        };
        first.put_to(self);
        for number in others {
            self.push(b',');
            number.put_to(self);
        }
    }
}
