// Whether a picture is of a description: the meaning of the description's bytes, worked out over
// relations as words.
#![tactic(auto)]

// Pictures of at most eight things, a word for each relation; read from bytes and written to them.
mod packing;
// The things that 'for every' speaks of.
mod speaking;
// Expressions and sentences, evaluated where they are written.
mod evaluating;

pub use evaluating::is_of;
pub use packing::Packed;
pub use speaking::Environment;
