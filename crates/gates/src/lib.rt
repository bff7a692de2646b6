// Circuits of one kind of gate, 'p, or x and y', over the literals of propositional logic.
#![tactic(auto)]

ghost use Rattle.gates.specs.Theorems.{Extends, Determined};

// What a gate comes to where it needs none: constants, equal and opposite inputs.
mod folding;
// Finds a gate again by its inputs.
mod sharing;
// Gates and claims in lent memory.
mod circuit;
// The clauses of a circuit.
mod writing;

pub use circuit::Circuit;
pub use folding::{ALWAYS, NEVER};

// Each choice of the inputs, with variable 0 true, has one extension that goes with the gates.
pub fn extension_is_one()
    ensures extends { Extends }
    ensures determined { Determined }
{}
