// The listing of a book, put into a lent buffer part after part.
ghost use Rattle.std.specs.Prelude.{◌≡◌, ◌+◌, ◌≤◌, ◌<◌, length};
ghost use Rattle.judging.specs.Answer.{without};
ghost use Rattle.refusal.specs.Numbers.{number_of, place_of};
ghost use Rattle.listing.specs.Listing.{judged_record, literals_of};
ghost use Rattle.listing.specs.Progress.{Put, Begun, Listed};

use graph::Graph;
use judging::{Judged, Verdict};
use refusal::Refusal;

// What putting one line came to: the bytes of the line, and the bytes of its record, or why it was refused.
#[derive(Clone, Copy)]
struct Turn {
    written: usize,
    taken: Result<usize, Refusal>,
}

// What putting a part of the listing came to: the bytes of the part, and the place and number of the next record.
#[derive(Clone, Copy)]
pub struct Progress {
    pub used: usize,
    pub at: usize,
    pub number: u32,
}

// A refusal with nothing beside it.
fn refused(refusal: Refusal) -> Judged
    ensures { result ≡ without (Verdict.Refused (number_of refusal) (place_of refusal)) }
{
    Judged {
        verdict: Verdict::Refused {
            number: refusal.number(),
            place: refusal.place(),
        },
        arrangement: [0u8; 32],
        literals: 0,
    }
}

// The judgement of a record that was read, or its refusal.
fn judged_record(found: Result<Graph, Refusal>, literals: &mut [i32]) -> Judged
    ensures { (result ≡ judged_record found (length literals.old)) × (literals.new ≡ literals_of found literals.old) }
{
    match found {
        Ok(graph) => search::judge(&graph, 1, 1000000, literals),
        Err(refusal) => refused(refusal),
    }
}

// Puts the line of the record at the start of bytes at the start of out.
fn put_record(bytes: &[u8], number: u32, out: &mut [u8]) -> Turn
    requires { 8192 ≤ length out.old }
    ensures { Put number bytes.now out.old out.new result }
{
    let found = reading::read(bytes);
    let graph = found.unwrap_or_default();
    let mut literals = [0i32; 496];
    let judged = judged_record(found, &mut literals);
    let written = line::line(out, number, graph.order, judged, &literals);
    let taken = reading::record_at(bytes);
    Turn { written, taken }
}

// Puts the first part of a book's listing at the start of out: the header, and where the book is too long the one line
// that says so.
pub fn first_part(book: &[u8], out: &mut [u8]) -> Progress
    requires { 16384 ≤ length out.old }
    ensures { Begun book.now out.new result }
{
    let used = line::header(out);
    if book.len() <= 65536 {
        return Progress {
            used,
            at: 0,
            number: 1,
        };
    }
    let more = line::line(&mut out[used..], 0, 0, refused(Refusal::LongBook), &[]);
    Progress {
        used: used + more,
        at: book.len(),
        number: 1,
    }
}

// Puts the next part of it at the start of out: the lines from the record with a number at a place of the book on, until
// the book ends or a further line might find no room.
pub fn next_part(book: &[u8], at: usize, number: u32, out: &mut [u8]) -> Progress
    requires { (length book.now ≤ 65537) × (at < length book.now) × (number ≤ at + 1) × (8192 ≤ length out.old) }
    ensures { Listed book.now at number out.new result }
{
    let mut used = 0;
    let mut from = at;
    let mut n = number;
    loop {
        let turn = put_record(&book[from..], n, &mut out[used..]);
        used += turn.written;
        n += 1;
        let Ok(taken) = turn.taken else {
            return Progress {
                used,
                at: book.len(),
                number: n,
            };
        };
        from += taken;
        if from == book.len() || out.len() - used < 8192 {
            return Progress {
                used,
                at: from,
                number: n,
            };
        }
    }
}
