// Lists a book of records that comes on standard input: a header, and a line for each record.

#![tactic(auto)]

mod lines;

ghost use Rattle.std.specs.Prelude.{◌≤◌, length};

use input::read_full;
use lines::{first_part, next_part};
use std::io;
use std::io::Print;

// Writes the listing of a book, part after part.
fn list(to: &impl Print, book: &[u8]) -> io::Result<()>
    requires { length book.now ≤ 65537 }
{
    let mut out = [0u8; 65536];
    let first = first_part(book, &mut out);
    let used = first.used;
    to.write_all(&out[..used])?;
    let mut at = first.at;
    let mut number = first.number;
    while at < book.len() {
        let part = next_part(book, at, number, &mut out);
        let used = part.used;
        to.write_all(&out[..used])?;
        at = part.at;
        number = part.number;
    }
    Ok(())
}

fn main(rt: HostRuntime) -> io::Result<()> {
    let mut book = [0u8; 65537];
    let given = read_full(&mut rt.reader(), &mut book)?;
    list(&rt, &book[..given])
}
