// The entries of a row above the diagonal.
ghost use Rattle.std.specs.Prelude.{◌≡◌, ◌+◌, ◌-◌, ◌*◌, ◌≤◌, replicate};
ghost use Rattle.laws.specs.Num.{num};
ghost use Rattle.fields.specs.Bits.{bit_of};
ghost use Rattle.record.specs.Layout.{cell};
ghost use Rattle.reading.specs.Lines.{lines_in, LineFrom};

use crate::held::Held;
use numbers::bits_at;
use numbers::gathered::gathered;
use record::layout::line_place;

// A word of unknowns and one of edges.
#[derive(Clone, Copy)]
pub struct Line {
    pub unknowns: u32,
    pub edges: u32,
}

// The words of a row from the number of its entries.
fn line_from(entries: u64, order: u32, i: u32) -> Line
    requires { (i ≤ order) × (order ≤ 32) }
    ensures { LineFrom entries (order - i) i result }
{
    let spare = 32 - (order - i);
    Line {
        unknowns: ((gathered(entries / 2) >> spare) << i) as u32,
        edges: ((gathered(entries) >> spare) << i) as u32,
    }
}

impl Held<'_> {
    // The entries of row i after the diagonal as one number, two bits each, the first the most significant.
    fn entries_of(self, i: u32) -> u64
        requires { (1 ≤ i) × (i ≤ self.order) }
        ensures { result ≡ num (bit_of self.entry.bytes.now) (cell self.entry.order i (i + 1)) (2 * (self.entry.order - i)) }
    {
        bits_at(self.bytes, line_place(self.order, i), 2 * (self.order - i))
    }

    // Fills empty rows with the lines.
    pub fn fill_lines<'b, 'c>(self, unknowns: &'b mut [u32; 32], edges: &'c mut [u32; 32])
        requires { (unknowns.old ≡ replicate 32 0) × (edges.old ≡ replicate 32 0) }
        ensures { (unknowns.new ≡ lines_in (bit_of self.entry.bytes.now) self.entry.order 0) × (edges.new ≡ lines_in (bit_of self.entry.bytes.now) self.entry.order 1) }
    {
        for i in 0..self.order {
            let line = line_from(self.entries_of(i + 1), self.order, i + 1);
            let k = i as usize;
            unknowns[k] = line.unknowns;
            edges[k] = line.edges;
        }
    }
}
