// A line of the listing, put into a lent buffer.

#![tactic(auto)]

mod fields;

ghost use Rattle.std.specs.Prelude.{◌≡◌, min, length};
ghost use Rattle.text.specs.Page.{poured};
ghost use Rattle.line.specs.Line.{header_text, judged_line};
ghost use Rattle.line.specs.Fields.{shown};

use fields::Fields;
use judging::{Judged, Verdict};
use text::parts::first;
use text::writer::Writer;

// Puts the header at the start of out, as much of it as there is room for, and answers how many bytes that is.
pub fn header(out: &mut [u8]) -> usize
    ensures { (result ≡ min (length header_text) (length out.old)) × (out.new ≡ poured header_text out.old) }
{
    let mut writer = Writer::new(out);
    writer.put(b"graph order verdict row column steps arrangement clause\n");
    writer.at
}

// What the line of a judgement shows.
fn fields_of<'a>(number: u32, order: u32, judged: &'a Judged, literals: &'a [i32]) -> Fields<'a>
    ensures { shown result ≡ judged_line number order judged.now literals.now }
{
    match judged.verdict {
        Verdict::Smaller { row, column, steps } => Fields {
            number,
            order,
            verdict: b"smaller",
            row,
            column,
            steps,
            arrangement: first(&judged.arrangement, order as usize),
            clause: first(literals, judged.literals),
        },
        Verdict::Nothing { steps } => Fields::bare(number, order, b"none", 0, steps),
        Verdict::Cut { steps } => Fields::bare(number, order, b"cut", 0, steps),
        Verdict::Refused { number: row, .. } => Fields::bare(number, 0, b"refused", row, 0),
    }
}

// Puts the line of the record with this number at the start of out, as much of it as there is room for, and answers how
// many bytes that is. The record's graph has this order, and judging it gave judged and wrote to literals.
pub fn line(out: &mut [u8], number: u32, order: u32, judged: Judged, literals: &[i32]) -> usize
    ensures { (result ≡ min (length (judged_line number order judged literals.now)) (length out.old)) × (out.new ≡ poured (judged_line number order judged literals.now) out.old) }
{
    let mut writer = Writer::new(out);
    fields_of(number, order, &judged, literals).put_to(&mut writer);
    writer.at
}
