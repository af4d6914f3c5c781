// An answer as one number: bits 0..31 the steps, or the place of a refusal; 32..37 the row and 38..43 the column of the
// winning pair; 44..52 how many literals were written; 56..63 the code: 0 none, 1 smaller, 2 cut, 128 and the number of a
// refusal.

#![tactic(auto)]

ghost use Rattle.std.specs.Prelude.{◌≡◌, ◌<◌, ◌≤◌, IfOk};
ghost use Rattle.packing.specs.Packing.{fields, place_told, refusal, counted_by, counted, packed};
ghost use Rattle.packing.specs.Telling.{Judgement, arranged_after};

use judging::{Judged, Verdict};
use refusal::Refusal;

// The number with these fields.
fn joined(low: u32, row: u32, column: u32, literals: usize, code: u32) -> u64
    requires { (row < 64) × (column < 64) × (literals < 512) × (code < 256) }
    ensures { result ≡ fields low row column literals code }
{
    u64::from(low)
        + (u64::from(row) << 32)
        + (u64::from(column) << 38)
        + ((literals as u64) << 44)
        + (u64::from(code) << 56)
}

// A place as it is told: one that 32 bits can't hold is told as the largest number that they can.
fn place_told(place: usize) -> u32
    ensures { result ≡ place_told place }
{
    u32::try_from(place).unwrap_or(u32::MAX)
}

// A refusal with its place.
pub fn refused(number: u32, place: usize) -> u64
    requires { number < 128 }
    ensures { result ≡ refusal number place }
{
    joined(place_told(place), 0, 0, 0, 128 + number)
}

// A number of bytes, or the refusal where its number is not 0.
pub fn counted_by(number: u32, place: usize, count: usize) -> u64
    requires { (number < 128) × (count ≤ 129) }
    ensures { result ≡ counted_by number place count }
{
    if number == 0 {
        return joined(count as u32, 0, 0, 0, 0);
    }
    refused(number, place)
}

// The same of an answer.
pub fn counted(answer: Result<usize, Refusal>) -> u64
    requires { IfOk answer (λ count. count ≤ 129) }
    ensures { result ≡ counted answer }
{
    match answer {
        Ok(count) => counted_by(0, 0, count),
        Err(refusal) => counted_by(refusal.number(), refusal.place(), 0),
    }
}

// Tells a judgement: the number, and the certificate of "smaller" in the arrangement.
pub fn tell(answer: Judged, arrangement: &mut [u8; 32]) -> u64
    requires { Judgement answer }
    ensures { (result ≡ packed answer) × (arrangement.new ≡ arranged_after answer arrangement.old) }
{
    match answer.verdict {
        Verdict::Smaller { row, column, steps } => {
            let certificate = answer.arrangement;
            *arrangement = certificate;
            joined(steps, row, column, answer.literals, 1)
        }
        Verdict::Nothing { steps } => joined(steps, 0, 0, 0, 0),
        Verdict::Cut { steps } => joined(steps, 0, 0, 0, 2),
        Verdict::Refused { number, place } => refused(number, place),
    }
}
