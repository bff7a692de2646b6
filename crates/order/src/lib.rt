// Which variable is decided next: the one that conflicts have named most often of late (EVSIDS, as in
// MiniSat). It only steers, and no proof rests on it. So what is promised is that it is safe, which
// variables come back and that it stays usable, and not that the most active one stands on top.
#![tactic(auto)]

// Activities, which grow by more and more: numbers with an exponent, in plain words.
mod score;
// The variables that are to be decided, the most active on top, in lent memory.
mod heap;

pub use heap::Order;
pub use score::{grown, shrunk, sum};
