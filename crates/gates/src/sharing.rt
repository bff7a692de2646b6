// The table of gates by their inputs, to find again a gate that there is. Its words need not be cleared
// and are never trusted: an entry is a gate's number plus one, and counts only if that gate has the
// inputs looked for. So nothing has to hold of the table, and a table of no words shares nothing.
ghost use Rattle.std.specs.Prelude.{◌^◌, ◌<◌, length};
ghost use Rattle.gates.specs.Circuits.{Found};

use crate::circuit::Circuit;
use crate::folding::Inputs;

// How many entries are looked at for a gate.
const PROBES: usize = 8;

// Where a gate stands; or the entry of the table that may be given to it, if there is any.
#[derive(Clone, Copy)]
pub enum Place {
    Gate(usize),
    Entry(usize),
    Nowhere,
}

// The products' upper digits depend on all digits of the inputs.
fn hash(inputs: Inputs) -> usize
    ensures { result < 2 ^ 44 }
{
    let mixed = inputs.p as u64 * 0x2545_f491
        + inputs.x as u64 * 0x1b87_3593
        + inputs.y as u64 * 0x27d4_eb2f;
    (mixed / 0x10_0000) as usize
}

impl Circuit<'_> {
    pub(crate) fn find(&self, inputs: Inputs) -> Place
        ensures { Found self.now.words.now self.now.count (length self.now.table.now) inputs result }
    {
        let entries = self.table.len();
        if entries == 0 {
            return Place::Nowhere;
        }
        let first = hash(inputs);
        for step in 0..PROBES {
            let at = (first + step) % entries;
            let entry = self.table[at] as usize;
            if entry == 0 || entry > self.count {
                return Place::Entry(at);
            }
            if Inputs::at(self.words, entry - 1) == inputs {
                return Place::Gate(entry - 1);
            }
        }
        Place::Entry(first % entries)
    }
}
