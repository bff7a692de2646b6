// Clauses of propositional logic in lent memory.
#![tactic(auto)]

ghost use Rattle.std.specs.Prelude.{◌≡◌};
ghost use Rattle.clauses.specs.Formulas.{negation};

// Clauses that stand in memory.
mod list;
// Clauses that are added one by one.
mod store;
// Clauses of which exactly those that are wanted are kept.
mod ordered;

pub use list::{Clauses, all_known};
pub use ordered::OrderedStore;
pub use store::{Store, Unfit};

// The opposite of a literal.
pub fn negated(literal: u32) -> u32
    ensures { result ≡ negation literal }
{
    if literal % 2 == 0 {
        literal + 1
    } else {
        literal - 1
    }
}
