// Symmetry breaking: of the pictures that differ only by what things are called, clauses leave few but the first.
// For a transposition of things, a chain of gates and claims says that a picture does not come after itself with the two
// things changed about.
// Each function asks that the picture's bits are inputs: the circuit is lent, and knows no shape.
#![tactic(auto)]

ghost use Rattle.std.specs.Prelude.{◌≡◌, ◌+◌, ◌*◌, ◌<◌, ◌≤◌, ◌⊎◌, true, false, is_some};
ghost use Rattle.gates.specs.Circuits.{InC};
ghost use Rattle.leaders.specs.Leading.{LinksIf, Chains, OnePair, Before, Adjacent, Each, Leads};
ghost use Rattle.leaders.specs.Breaking.{ChainsBreak};

// Two things that change places, and which bit comes where.
mod transpositions;

use clauses::negated;
use descriptions::Shape;
use gates::{Circuit, NEVER};
pub use transpositions::Transposition;

// One link of a chain: claims that something before was smaller already, or the bit here is not larger than the one that
// comes here, and gives the literal of 'smaller already' for the next link. None where there is no room.
fn link(circuit: &mut Circuit, smaller: u32, here: u32, there: u32) -> Option<u32>
    requires before { InC circuit.old smaller }
    requires here { InC circuit.old here }
    requires there { InC circuit.old there }
    ensures { LinksIf circuit.old smaller here there circuit.new result }
{
    let not_here = negated(here);
    circuit.claim(smaller, not_here, there)?;
    circuit.fresh_gate(smaller, not_here, there)
}

// The literal of the picture's bit at a place.
fn bit_at(place: usize) -> u32
    requires { place < 512 }
    ensures { result ≡ 2 * (1 + place) }
{
    (2 * (1 + place)) as u32
}

// Says that a picture does not come after itself with two things changed about. None where there is no room: what was
// added then says a part of it.
pub fn chain(circuit: &mut Circuit, shape: Shape, swap: Transposition) -> Option<()>
    requires drawn { shape.relations * (shape.size.things * shape.size.things) < circuit.old.base }
    requires inside { swap.other < shape.size.things }
    ensures { Chains circuit.old shape.relations shape.size.things swap.one swap.other circuit.new (is_some result) }
{
    let mut smaller: u32 = NEVER;
    // by place, which is the bit's variable too
    for place in 0..shape.bits() {
        let there = swap.source_of(place, shape);
        if place < there {
            smaller = link(circuit, smaller, bit_at(place), bit_at(there))?;
        }
    }
    Some(())
}

// How many gates and claims a circuit may have.
#[derive(Clone, Copy)]
pub struct Limits {
    pub gates: usize,
    pub claims: usize,
}

fn has_room(used: usize, more: usize, most: usize) -> bool
    ensures room { result ≡ true → used + more ≤ most }
    ensures full { result ≡ false → most < used + more }
{
    used <= most && more <= most - used
}

impl Limits {
    // Whether a circuit may have so many gates and so many claims more.
    fn allow(self, circuit: &Circuit, more: usize) -> bool
        ensures room { result ≡ true → (circuit.now.count + more ≤ self.gates) × (circuit.now.claimed + more ≤ self.claims) }
        ensures full { result ≡ false → (self.gates < circuit.now.count + more) ⊎ (self.claims < circuit.now.claimed + more) }
    {
        has_room(circuit.count, more, self.gates) && has_room(circuit.claimed, more, self.claims)
    }
}

// The chain of a transposition, if what it may add stays within the limits. Whether it is there.
fn lead_by(circuit: &mut Circuit, shape: Shape, limits: Limits, swap: Transposition) -> bool
    requires drawn { shape.relations * (shape.size.things * shape.size.things) < circuit.old.base }
    requires inside { swap.other < shape.size.things }
    ensures { Leads circuit.old shape.relations shape.size.things limits.gates limits.claims (OnePair swap.one swap.other) circuit.new result }
{
    let links = 2 * (shape.relations * (shape.size.things - 1));
    limits.allow(circuit, links) && chain(circuit, shape, swap).is_some()
}

// Transpositions of a thing with those before it, from one on and below another. Whether all are there.
fn lead_with(
    circuit: &mut Circuit,
    shape: Shape,
    limits: Limits,
    other: usize,
    low: usize,
    high: usize,
) -> bool
    requires drawn { shape.relations * (shape.size.things * shape.size.things) < circuit.old.base }
    requires before { high ≤ other }
    requires inside { other < shape.size.things }
    ensures { Leads circuit.old shape.relations shape.size.things limits.gates limits.claims (Before other low high) circuit.new result }
{
    let mut all = true;
    for one in low..high {
        all &= lead_by(circuit, shape, limits, Transposition { one, other });
    }
    all
}

// Transpositions of neighbours. Whether all are there.
fn lead_adjacent(circuit: &mut Circuit, shape: Shape, limits: Limits) -> bool
    requires drawn { shape.relations * (shape.size.things * shape.size.things) < circuit.old.base }
    ensures { Leads circuit.old shape.relations shape.size.things limits.gates limits.claims Adjacent circuit.new result }
{
    let mut all = true;
    for other in 1..shape.size.things {
        all &= lead_with(circuit, shape, limits, other, other - 1, other);
    }
    all
}

// Leaves out pictures that a transposition of things would bring forward, by as many chains as stay within so many gates
// and claims in all. Those of neighbours come first: they leave out the most for what they cost. Then those of each thing
// with the things before it: where they find no room, those of the first things are there. Whether all are there.
pub fn lead(circuit: &mut Circuit, shape: Shape, limits: Limits) -> bool
    requires drawn { shape.relations * (shape.size.things * shape.size.things) < circuit.old.base }
    ensures { Leads circuit.old shape.relations shape.size.things limits.gates limits.claims Each circuit.new result }
{
    let adjacent = lead_adjacent(circuit, shape, limits);
    let mut apart = true;
    for other in 2..shape.size.things {
        apart &= lead_with(circuit, shape, limits, other, 0, other - 1);
    }
    adjacent & apart
}

// Theorem: of a circuit whose claims say that a picture is of a description, chains leave the first; and what they leave
// out has an earlier one of the description.
pub fn chains_break()
    ensures { ChainsBreak }
{}
