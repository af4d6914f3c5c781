// The fields of a line.
ghost use Rattle.std.specs.Prelude.{◌≡◌, []};
ghost use Rattle.text.specs.Decimal.{decimal};
ghost use Rattle.text.specs.Writer.{Puts};
ghost use Rattle.line.specs.Line.{spaced, line_of};
ghost use Rattle.line.specs.Fields.{shown};

use text::decimal::Number;
use text::writer::Writer;

// What a line shows.
#[derive(Clone, Copy)]
pub struct Fields<'a> {
    pub number: u32,
    pub order: u32,
    pub verdict: &'a [u8],
    pub row: u32,
    pub column: u32,
    pub steps: u32,
    pub arrangement: &'a [u8],
    pub clause: &'a [i32],
}

// A number, and the space after it.
fn put_number(writer: &mut Writer<'_>, number: u32)
    ensures { Puts writer.old (spaced (decimal number)) writer.new }
{
    number.put_to(writer);
    writer.push(b' ');
}

impl<'a> Fields<'a> {
    // Without a winning pair.
    pub fn bare(number: u32, order: u32, verdict: &'a [u8], row: u32, steps: u32) -> Fields<'a>
        ensures { shown result ≡ line_of number order verdict.now row 0 steps [] [] }
    {
        Fields {
            number,
            order,
            verdict,
            row,
            column: 0,
            steps,
            arrangement: &[],
            clause: &[],
        }
    }

    // The line.
    pub fn put_to(self, writer: &mut Writer<'_>)
        ensures { Puts writer.old (shown self.entry) writer.new }
    {
        put_number(writer, self.number);
        put_number(writer, self.order);
        writer.put(self.verdict);
        writer.push(b' ');
        put_number(writer, self.row);
        put_number(writer, self.column);
        put_number(writer, self.steps);
        writer.put_list(self.arrangement);
        writer.push(b' ');
        writer.put_list(self.clause);
        writer.push(b'\n');
    }
}
