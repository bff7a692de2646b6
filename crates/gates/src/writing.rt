// The clauses of a circuit: variable 0 is true; for each gate o of p, x and y the four clauses
// (¬p o) (¬x ¬y o) (¬o p x) (¬o p y), which say that o is its value; and the claims as they are.
// Each function asks that the store knows the variables: circuit and store are made apart, and neither holds the other.
ghost use Rattle.std.specs.Prelude.{◌≡◌, ◌+◌, ◌*◌, ◌/◌, ◌<◌, ◌≤◌, true, [], length};
ghost use Rattle.clauses.specs.Formulas.{value};
ghost use Rattle.clauses.specs.Stores.{Known};
ghost use Rattle.gates.specs.Words.{mix, Meets};
ghost use Rattle.gates.specs.Writing.{satisfied, StaysInOrder, WritesIf, WrittenIf, Valued};

use crate::circuit::Circuit;
use crate::folding::{ALWAYS, Inputs};
use clauses::{Store, Unfit, negated};

// One clause.
fn write_clause(store: &mut Store, clause: &[u32]) -> Result<(), Unfit>
    requires { Known store.old.variables clause.now }
    ensures writes { WritesIf store.old 1 (length clause.now) (λ α. satisfied α clause.now ≡ true) store.new result }
    ensures in_order { StaysInOrder store.old store.new }
{
    store.add(clause)
}

// The clauses of one gate.
fn write_gate(store: &mut Store, gate: u32, inputs: Inputs) -> Result<(), Unfit>
    requires gate { gate / 2 < store.old.variables }
    requires p { inputs.p / 2 < store.old.variables }
    requires x { inputs.x / 2 < store.old.variables }
    requires y { inputs.y / 2 < store.old.variables }
    ensures writes { WritesIf store.old 4 11 (λ α. value α gate ≡ mix α inputs.p inputs.x inputs.y) store.new result }
    ensures in_order { StaysInOrder store.old store.new }
{
    let Inputs { p, x, y } = inputs;
    let not = negated(gate);
    write_clause(store, &[negated(p), gate])?;
    write_clause(store, &[negated(x), negated(y), gate])?;
    write_clause(store, &[not, p, x])?;
    write_clause(store, &[not, p, y])
}

impl Circuit<'_> {
    // The clauses of the gates.
    fn write_gates(&self, store: &mut Store) -> Result<(), Unfit>
        requires known { self.now.base + self.now.count ≤ store.old.variables }
        ensures writes { WritesIf store.old (4 * self.now.count) (11 * self.now.count) (Valued self.now.base self.now.words.now self.now.count) store.new result }
        ensures in_order { StaysInOrder store.old store.new }
    {
        // by number, which is the gate's variable too
        for gate in 0..self.count {
            let inputs = Inputs::at(self.words, gate);
            write_gate(store, (2 * (self.base + gate)) as u32, inputs)?;
        }
        Ok(())
    }

    // The claims.
    fn write_claims(&self, store: &mut Store) -> Result<(), Unfit>
        requires known { self.now.base + self.now.count ≤ store.old.variables }
        ensures writes { WritesIf store.old self.now.claimed (3 * self.now.claimed) (Meets self.now.claims.now self.now.claimed) store.new result }
        ensures in_order { StaysInOrder store.old store.new }
    {
        for claim in self.claims[..3 * self.claimed].chunks_exact(3) {
            write_clause(store, claim)?;
        }
        Ok(())
    }

    // Writes the clauses into a store that has none. An error where they find no room; the store then has some of them.
    pub fn write(&self, store: &mut Store) -> Result<(), Unfit>
        requires known { self.now.base + self.now.count ≤ store.old.variables }
        requires empty { (store.old.formula ≡ []) × (store.old.used ≡ 0) }
        ensures written { WrittenIf self.now store.old store.new result }
        ensures in_order { StaysInOrder store.old store.new }
    {
        write_clause(store, &[ALWAYS])?;
        self.write_gates(store)?;
        self.write_claims(store)
    }
}
