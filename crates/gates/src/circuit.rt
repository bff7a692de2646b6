// Gate k is the variable base + k, and three words, p, x and y: it is true where p is, or x and y.
// The variables below base are inputs; variable 0 is true, so the literals 0 and 1 are the constants.
// A claim is three literals of which one must be true.
// Words three by three, and counts of them: the memory is lent, as words.
ghost use Rattle.gates.specs.Words.{Sound};

use crate::folding::Inputs;
use crate::sharing::Place;

#[derive(Drop)]
pub struct Circuit<'a> {
    // three words a gate
    pub words: &'a mut [u32],
    // three words a claim
    pub claims: &'a mut [u32],
    // to find gates again; of any length
    pub table: &'a mut [u32],
    // the number of inputs, and the variable of the first gate
    pub base: usize,
    // gates
    pub count: usize,
    // claims
    pub claimed: usize,
    pub ghost sound: { Sound base words.now count claims.now claimed },
}

impl<'a> Circuit<'a> {
    ghost use Rattle.std.specs.Prelude.{◌≡◌, ◌+◌, ◌*◌, ◌/◌, ◌^◌, ◌<◌, length};

    // No gate and no claim, over so many inputs, the one that is true among them.
    pub fn new(
        words: &'a mut [u32],
        claims: &'a mut [u32],
        table: &'a mut [u32],
        base: usize,
    ) -> Circuit<'a>
        requires some { 0 < base }
        requires small { 2 * (base + length words.old / 3 + 1) < 2 ^ 32 }
        ensures base { result.base ≡ base }
        ensures none { (result.count ≡ 0) × (result.claimed ≡ 0) }
        ensures memory { (result.words.now ≡ words.old) × (result.claims.now ≡ claims.old) × (result.table.now ≡ table.old) }
    {
        Circuit {
            words,
            claims,
            table,
            base,
            count: 0,
            claimed: 0,
        }
    }
}

impl Circuit<'_> {
    ghost use Rattle.gates.specs.Words.{mix};
    ghost use Rattle.gates.specs.Circuits.{InC, AddsC, GivesC, Came, ClaimsIf};

    // A new gate.
    fn push(&mut self, inputs: Inputs) -> Option<u32>
        requires inp { InC self.old inputs.p }
        requires inx { InC self.old inputs.x }
        requires iny { InC self.old inputs.y }
        ensures adds { AddsC self.old self.new 1 }
        ensures came { Came self.new result (λ l. GivesC self.new l (λ α. mix α inputs.p inputs.x inputs.y)) }
    {
        let at = 3 * self.count;
        if self.words.len() < at + 3 {
            return None;
        }
        let Inputs { p, x, y } = inputs;
        self.words[at..at + 3].copy_from_slice(&[p, x, y]);
        let literal = 2 * (self.base + self.count);
        self.count += 1;
        Some(literal as u32)
    }

    // The literal of 'p, or x and y', by a gate that is new if need be and that nothing finds again.
    pub fn fresh_gate(&mut self, p: u32, x: u32, y: u32) -> Option<u32>
        requires inp { InC self.old p }
        requires inx { InC self.old x }
        requires iny { InC self.old y }
        ensures adds { AddsC self.old self.new 1 }
        ensures came { Came self.new result (λ l. GivesC self.new l (λ α. mix α p x y)) }
    {
        let inputs = Inputs { p, x, y };
        if let Some(literal) = inputs.folded() {
            return Some(literal);
        }
        self.push(inputs)
    }

    // The literal of 'p, or x and y', by a gate that there is or by a new one. None where the words
    // are full.
    pub fn gate(&mut self, p: u32, x: u32, y: u32) -> Option<u32>
        requires inp { InC self.old p }
        requires inx { InC self.old x }
        requires iny { InC self.old y }
        ensures adds { AddsC self.old self.new 1 }
        ensures came { Came self.new result (λ l. GivesC self.new l (λ α. mix α p x y)) }
    {
        let given = Inputs { p, x, y };
        if let Some(literal) = given.folded() {
            return Some(literal);
        }
        let inputs = given.ordered();
        match self.find(inputs) {
            Place::Gate(gate) => Some((2 * (self.base + gate)) as u32),
            Place::Entry(entry) => {
                self.table[entry] = (self.count + 1) as u32;
                self.push(inputs)
            }
            Place::Nowhere => self.push(inputs),
        }
    }

    // Claims that one of three literals is true; None, and nothing changed, where there is no room.
    pub fn claim(&mut self, a: u32, b: u32, c: u32) -> Option<()>
        requires ina { InC self.old a }
        requires inb { InC self.old b }
        requires inc { InC self.old c }
        ensures { ClaimsIf self.old a b c self.new result }
    {
        let at = 3 * self.claimed;
        if self.claims.len() - at < 3 {
            return None;
        }
        self.claims[at..at + 3].copy_from_slice(&[a, b, c]);
        self.claimed += 1;
        Some(())
    }
}
