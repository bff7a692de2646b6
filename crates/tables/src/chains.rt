// A chain of gates, one behind the other.
ghost use Rattle.std.specs.Prelude.{◌≡◌, ℕ, ◌<◌, ◌&&◌};
ghost use Rattle.descriptions.specs.Pictures.{any};
ghost use Rattle.clauses.specs.Formulas.{value};
ghost use Rattle.gates.specs.Circuits.{InC, AddsC, GivesC, Came};

use gates::{Circuit, NEVER};

// The literal of 'of some of so many pairs of literals, both are true'.
pub fn some_both<F: Fn(usize) -> (u32, u32)>(
    circuit: &mut Circuit,
    count: usize,
    both: F,
) -> Option<u32>
    requires callable { (k : ℕ) → k < count → F.pre both k }
    requires known { (k : ℕ) (r : ℕ × ℕ) → k < count → F.post both k r → InC circuit.old r.0 × InC circuit.old r.1 }
    ensures adds { AddsC circuit.old circuit.new count }
    ensures came { (x y : ℕ → ℕ) → ((k : ℕ) (r : ℕ × ℕ) → k < count → F.post both k r → (r.0 ≡ x k) × (r.1 ≡ y k)) → Came circuit.new result (λ l. GivesC circuit.new l (λ α. any count (λ k. value α (x k) && value α (y k)))) }
{
    let mut found = NEVER;
    // by number, which the closure is asked for
    for number in 0..count {
        let (x, y) = both(number);
        found = circuit.gate(found, x, y)?;
    }
    Some(found)
}
