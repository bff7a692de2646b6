// Relations between at most eight things as tables of literals: the literal of a pair stands at its
// place, row by row, and is true where the pair stands in the relation.
#![tactic(auto)]

// Tables that need no gate.
mod plain;
// Chains of gates.
mod chains;
// What the operators make of tables.
mod operators;

pub use operators::{apart, combined, transformed};
pub use plain::{empty, identity, inputs, single};
