// Unit propagation: of each clause two literals are watched, and a clause is looked at only when one
// of them becomes false. Nothing rests on which literals are watched: what a look concludes it has
// seen, and a clause that is not looked at concludes nothing.
#![tactic(auto)]

// Who watches which literal.
mod watches;
// Why variables have their values.
mod causes;
// The trail, with what was learned, and what the clauses imply.
mod search;

pub use causes::Causes;
pub use search::{Outcome, Search};
pub use watches::Watches;
