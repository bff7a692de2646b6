// A gate whose inputs are constants, equal or opposite is a literal that there is already; and of the
// ways to write the same gate one is chosen, so that equal gates are found again.
ghost use Rattle.std.specs.Prelude.{◌≡◌, ◌+◌, ◌*◌, ◌≤◌, length, slice_index};
ghost use Rattle.gates.specs.Circuits.{Reordered, Folds};

use clauses::negated;

// The literals that are always and never true.
pub const ALWAYS: u32 = 0;

pub const NEVER: u32 = 1;

// The three literals of a gate.
#[derive(Clone, Copy, PartialEq, Eq)]
pub struct Inputs {
    pub p: u32,
    pub x: u32,
    pub y: u32,
}

impl Inputs {
    // The three words of a gate.
    pub fn at(words: &[u32], gate: usize) -> Inputs
        requires { 3 * gate + 3 ≤ length words.now }
        ensures p { result.p ≡ slice_index words.now (3 * gate) }
        ensures x { result.x ≡ slice_index words.now (3 * gate + 1) }
        ensures y { result.y ≡ slice_index words.now (3 * gate + 2) }
    {
        let at = 3 * gate;
        Inputs {
            p: words[at],
            x: words[at + 1],
            y: words[at + 2],
        }
    }

    // 'p or y', which is a gate with x true, has the smaller of the two first.
    fn either_way(self) -> Inputs
        ensures { Reordered self.p self.x self.y result }
    {
        let Inputs { p, x, y } = self;
        if x == ALWAYS && y < p {
            Inputs { p: y, x, y: p }
        } else {
            self
        }
    }

    // The smaller of x and y first.
    pub fn ordered(self) -> Inputs
        ensures { Reordered self.p self.x self.y result }
    {
        let Inputs { p, x, y } = self;
        if y < x {
            Inputs { p, x: y, y: x }.either_way()
        } else {
            self.either_way()
        }
    }

    // The literal that 'p, or x and y' comes to where it needs no gate.
    pub fn folded(self) -> Option<u32>
        ensures { Folds self.p self.x self.y result }
    {
        let Inputs { p, x, y } = self;
        if p == ALWAYS || p == x || p == y {
            return Some(p);
        }
        if x == NEVER || y == NEVER || x == negated(y) {
            return Some(p);
        }
        if p == NEVER {
            if x == ALWAYS || x == y {
                return Some(y);
            }
            if y == ALWAYS {
                return Some(x);
            }
        }
        None
    }
}
