// Numbers in decimal, put by a writer.
ghost use Rattle.std.specs.Prelude.{ℕ, List};
ghost use Rattle.text.specs.Decimal.{decimal, signed};
ghost use Rattle.text.specs.Writer.{Puts};

use crate::writer::Writer;
use itoa::Buffer;

// A number that a writer can put.
pub trait Number: Copy {
    // as text
    ghost text: { Self → List ℕ };

    fn put_to(self, writer: &mut Writer<'_>)
        ensures { Puts writer.old (text self) writer.new };
}

impl Number for u32 {
    ghost text = { decimal };

    fn put_to(self, writer: &mut Writer<'_>) {
        writer.put(Buffer::new().format(self).as_bytes());
    }
}

impl Number for u8 {
    ghost text = { decimal };

    fn put_to(self, writer: &mut Writer<'_>) {
        u32::from(self).put_to(writer);
    }
}

// With its sign where it is below 0.
impl Number for i32 {
    ghost text = { signed };

    fn put_to(self, writer: &mut Writer<'_>) {
        if self.is_negative() {
            writer.push(b'-');
        }
        self.unsigned_abs().put_to(writer);
    }
}
