// The trail over a problem's clauses, with why its literals stand there and what was learned. Clauses are
// numbered through: those of the problem, then the learned ones.
ghost use Rattle.std.specs.Prelude.{◌≡◌, ℕ, ◌+◌, ◌/◌, ◌%◌, ◌<◌, ◌≤◌, ◌∷◌, [], true, length, IfSome, OnOk, OnErr, slice_index, slice_set};
ghost use Rattle.std.specs.Option.{ForSome};
ghost use Rattle.clauses.specs.Formulas.{negation};
ghost use Rattle.clauses.specs.Stores.{Known, Follows, Sound, AddedIf, SameMemory};
ghost use Rattle.clauses.specs.Retaining.{SomeOf};
ghost use Rattle.trail.specs.Views.{variables_of as variables_on, formula_of as formula_on};
ghost use Rattle.trail.specs.Trails.{IsTrueUnder, Jammed, Later, Falls, SameClauses, Forced, NoneModels};
ghost use Rattle.propagation.specs.Settling.{level_below, SettledSays};
ghost use Rattle.propagation.specs.Watching.{Attached};
ghost use Rattle.propagation.specs.Looking.{LookSays, LookFinds, reason_word, NotedCause};
ghost use Rattle.propagation.specs.Views.{variables_of, formula_of, numbers_of};
ghost use Rattle.propagation.specs.Searching.{Ready, Same, Onward, Numbered};

use super::causes::Causes;
use super::watches::Watches;
use clauses::{Store, Unfit, negated};
use std::marker::Model;
use trail::{NoModel, Trail};

#[derive(Drop)]
pub struct Search<'a> {
    trail: Trail<'a>,
    causes: Causes<'a>,
    watches: Watches<'a>,
    learned: Store<'a>,
}

impl<'a> Model for Search<'a> {
    ghost use Rattle.propagation.specs.Views.{SearchView};

    ghost Value = { SearchView };

    ghost use Rattle.propagation.specs.Keeping.{search_view, IsReady};

    ghost view = { search_view };

    ghost invariant = { IsReady };
}

// What a look at a clause finds, beside the other watched literal: one to watch in the place of the
// false one; none, so that the other one is implied; none, and the other one is false too.
#[derive(Clone, Copy)]
enum Look {
    Replace(u32),
    Implied,
    Conflict,
}

// What becomes of the node that led to a clause.
#[derive(Clone, Copy)]
pub enum Outcome {
    Stays,
    Moves(u32),
    Conflict,
}

// Looks at a clause, of which one watched literal is false.
fn look_at(trail: &Trail, clause: &[u32], other: u32) -> Look
    requires known { Known (variables_on trail.now) clause.now }
    requires other { other / 2 < variables_on trail.now }
    requires open { IsTrueUnder trail.now.values other → ⊥ }
    ensures { LookSays (variables_on trail.now) trail.now.values clause.now other result }
{
    trail.keeps();
    for literal in clause {
        if *literal != other && !trail.fails(*literal) {
            return Look::Replace(*literal);
        }
    }
    if trail.fails(other) {
        Look::Conflict
    } else {
        Look::Implied
    }
}

impl<'a> Search<'a> {
    // What was learned before, if anything, follows from the clauses.
    pub fn new(
        trail: Trail<'a>,
        causes: Causes<'a>,
        watches: Watches<'a>,
        learned: Store<'a>,
    ) -> Search<'a>
        requires few { variables_on trail < 2147483648 }
        requires causes { length causes.reasons ≡ variables_on trail }
        requires learned { Sound (formula_on trail) learned.formula }
        requires known { learned.variables ≡ variables_on trail }
        ensures trail { result.trail ≡ trail.entry }
        ensures causes { result.causes ≡ causes.entry }
        ensures watches { result.watches ≡ watches.entry }
        ensures learned { result.learned ≡ learned.entry }
    {
        Search {
            trail,
            causes,
            watches,
            learned,
        }
    }
}

impl<'a> Search<'a> {
    // What every search keeps, for proofs.
    pub fn keeps(&self)
        ensures { Ready self.now }
    {
        let _ = &self.trail;
    }

    pub fn trail(&self) -> &Trail<'a>
        ensures { result.now ≡ self.now.trail }
    {
        &self.trail
    }

    pub fn causes(&self) -> &Causes<'a>
        ensures is { result.now ≡ self.now.causes }
        ensures size { length self.now.causes.reasons ≡ variables_of self.now }
    {
        &self.causes
    }

    // The clauses that are learned.
    pub fn learned(&self) -> &Store<'a>
        ensures { result.now ≡ self.now.learned }
    {
        &self.learned
    }

    // The literals of a clause, by its number.
    pub fn clause(&self, number: usize) -> Option<&[u32]>
        ensures clause { IfSome result (λ c. Numbered self.now number c.now) }
        ensures none { result ≡ None → numbers_of self.now ≤ number }
    {
        let problem = self.trail.problem();
        let base = problem.len();
        if number < base {
            return Some(problem.clause(number));
        }
        if number - base < self.learned.len() {
            return Some(self.learned.clause(number - base));
        }
        None
    }

    // A literal that is true in every model that has the decisions, with the clause that says so.
    pub fn imply(&mut self, literal: u32, reason: Option<u32>, level: u32)
        requires known { literal / 2 < variables_of self.old }
        requires free { slice_index self.old.trail.values (literal / 2) ≡ 0 }
        requires implied { Forced self.old.trail self.old.trail.len literal }
        requires small { ForSome reason (λ clause. clause < 4294967295) }
        ensures same { Same self.old self.new }
        ensures less { Falls self.old.trail self.new.trail }
        ensures later { Later self.old.trail self.new.trail }
        ensures len { self.new.trail.len ≡ self.old.trail.len + 1 }
        ensures values { self.new.trail.values ≡ slice_set self.old.trail.values (literal / 2) (1 + literal % 2) }
        ensures watches { self.new.watches ≡ self.old.watches }
    {
        let place = self.trail.len() as u32;
        self.causes
            .note((literal / 2) as usize, reason, level, place);
        self.trail.imply(literal);
    }

    // A decision, at a level of its own.
    pub fn decide(&mut self, literal: u32)
        requires known { literal / 2 < variables_of self.old }
        requires free { slice_index self.old.trail.values (literal / 2) ≡ 0 }
        ensures same { Same self.old self.new }
        ensures less { Falls self.old.trail self.new.trail }
        ensures literals { self.new.trail.literals ≡ slice_set self.old.trail.literals self.old.trail.len literal }
        ensures marks { self.new.trail.marks ≡ slice_set self.old.trail.marks self.old.trail.len 1 }
        ensures len { self.new.trail.len ≡ self.old.trail.len + 1 }
        ensures watches { self.new.watches ≡ self.old.watches }
    {
        let place = self.trail.len() as u32;
        self.causes
            .note((literal / 2) as usize, None, place + 1, place);
        self.trail.decide(literal);
    }

    // The trail is handed out to be read only, so what changes it is here again, with what stays.

    // Goes back to the first so many literals.
    pub fn pop_to(&mut self, keep: usize)
        requires { keep ≤ self.old.trail.len }
        ensures same { Same self.old self.new }
        ensures literals { self.new.trail.literals ≡ self.old.trail.literals }
        ensures marks { self.new.trail.marks ≡ self.old.trail.marks }
        ensures len { self.new.trail.len ≡ keep }
        ensures freed { (q : ℕ) → keep ≤ q → q < self.old.trail.len → slice_index self.new.trail.values (slice_index self.old.trail.literals q / 2) ≡ 0 }
        ensures causes { self.new.causes ≡ self.old.causes }
        ensures watches { self.new.watches ≡ self.old.watches }
    {
        self.trail.pop_to(keep);
    }

    // Goes back to a decision, and puts in its place the negation of a literal at or above it, which
    // is true in every model that has the decisions before.
    pub fn jump(&mut self, decision: usize, place: usize)
        requires order { decision ≤ place }
        requires within { place < self.old.trail.len }
        requires decided { slice_index self.old.trail.marks decision ≡ 1 }
        requires forced { Forced self.old.trail decision (negation (slice_index self.old.trail.literals place)) }
        ensures same { Same self.old self.new }
        ensures less { Falls self.old.trail self.new.trail }
        ensures later { Later self.old.trail self.new.trail }
        ensures len { self.new.trail.len ≡ decision + 1 }
        ensures causes { self.new.causes ≡ self.old.causes }
        ensures watches { self.new.watches ≡ self.old.watches }
    {
        self.trail.jump(decision, place);
    }

    // Goes back to the last decision and turns it round. Where there is none, there is no model; then
    // nothing is left on the trail.
    pub fn flip(&mut self) -> Result<(), NoModel>
        requires jammed { Jammed self.old.trail }
        ensures same { Same self.old self.new }
        ensures later { Later self.old.trail self.new.trail }
        ensures less { OnOk result (Falls self.old.trail self.new.trail) }
        ensures none { OnErr result (NoneModels (formula_of self.old)) }
        ensures causes { self.new.causes ≡ self.old.causes }
        ensures watches { self.new.watches ≡ self.old.watches }
    {
        self.trail.flip()
    }

    // The level of the literal before the last one.
    pub fn level_before(&self) -> u32
        ensures { result ≡ level_below self.now }
    {
        match self.trail.len().checked_sub(2) {
            None => 0,
            Some(place) => self.causes.level(self.trail.literal(place) / 2),
        }
    }

    // Notes why the last literal of the trail stands there. Its level.
    pub fn settle(&mut self, reason: Option<u32>) -> u32
        requires { ForSome reason (λ clause. clause < 4294967295) }
        ensures level { result ≡ level_below self.old }
        ensures noted { SettledSays self.old self.new (reason_word reason) result }
        ensures trail { self.new.trail ≡ self.old.trail }
        ensures learned { self.new.learned ≡ self.old.learned }
        ensures watches { self.new.watches ≡ self.old.watches }
    {
        let level = self.level_before();
        if let Some(last) = self.trail.len().checked_sub(1) {
            let variable = self.trail.literal(last) / 2;
            self.causes
                .note(variable as usize, reason, level, last as u32);
        }
        level
    }

    // One clause more, of one literal; or it is refused, and nothing changes.
    pub fn add(&mut self, literal: u32) -> Result<(), Unfit>
        ensures added { AddedIf (literal ∷ []) self.old.trail.units self.new.trail.units result }
        ensures problem { self.new.trail.problem ≡ self.old.trail.problem }
        ensures values { self.new.trail.values ≡ self.old.trail.values }
        ensures literals { self.new.trail.literals ≡ self.old.trail.literals }
        ensures marks { self.new.trail.marks ≡ self.old.trail.marks }
        ensures len { self.new.trail.len ≡ self.old.trail.len }
        ensures causes { self.new.causes ≡ self.old.causes }
        ensures learned { self.new.learned ≡ self.old.learned }
        ensures watches { self.new.watches ≡ self.old.watches }
    {
        self.trail.add(literal)
    }

    // Keeps a clause that follows; or there is no room, and nothing changes.
    pub fn keep(&mut self, clause: &[u32]) -> Result<(), Unfit>
        requires { Follows (formula_of self.old) clause.now }
        ensures kept { AddedIf clause.now self.old.learned self.new.learned result }
        ensures trail { self.new.trail ≡ self.old.trail }
        ensures causes { self.new.causes ≡ self.old.causes }
        ensures watches { self.new.watches ≡ self.old.watches }
    {
        self.learned.add(clause)
    }

    // Keeps the learned clauses that are wanted, in their order. Where they stand in order, each is asked
    // about once, with its number among them. Nothing is watched any more, since the numbers change.
    pub fn retain<F: FnMut(usize, &[u32]) -> bool>(&mut self, wants: F)
        requires { F.IsAlwaysCallable wants }
        ensures some { SomeOf self.old.learned.formula self.new.learned.formula }
        ensures fewer { length self.new.learned.formula ≤ length self.old.learned.formula }
        ensures memory { SameMemory self.old.learned self.new.learned }
        ensures heads { (l : ℕ) → slice_index self.new.watches.heads.now l ≡ 0 }
        ensures links { self.new.watches.links.now ≡ self.old.watches.links.now }
        ensures trail { self.new.trail ≡ self.old.trail }
        ensures causes { self.new.causes ≡ self.old.causes }
    {
        self.learned.retain(wants);
        self.watches.detach_all();
    }

    // Has a clause watched by two of its literals.
    pub fn attach(&mut self, number: u32, one: u32, other: u32)
        ensures attached { Attached self.old.watches self.new.watches number one other }
        ensures trail { self.new.trail ≡ self.old.trail }
        ensures causes { self.new.causes ≡ self.old.causes }
        ensures learned { self.new.learned ≡ self.old.learned }
    {
        self.watches.attach(number, one, other);
    }

    // Looks at a clause, by its number; nothing where the other watched literal is true, or there is no
    // such clause.
    fn look(&self, number: usize, other: u32) -> Option<Look>
        ensures { IfSome result (λ look. LookFinds self.now number other look) }
    {
        self.trail.keeps();
        if (other / 2) as usize >= self.trail.variables() || self.trail.holds(other) {
            return None;
        }
        let clause = self.clause(number)?;
        Some(look_at(&self.trail, clause, other))
    }

    // Looks at a clause, if the other watched literal is not true, and has that one implied where
    // nothing else is left.
    pub fn examine(&mut self, number: u32, other: u32, level: u32) -> Outcome
        requires low { number < 4294967295 }
        ensures onward { Onward self.old self.new }
        ensures watches { self.new.watches ≡ self.old.watches }
        ensures jammed { result ≡ Outcome.Conflict → Jammed self.new.trail × (number < numbers_of self.new) }
    {
        match self.look(number as usize, other) {
            None => Outcome::Stays,
            Some(Look::Replace(literal)) => Outcome::Moves(literal),
            Some(Look::Conflict) => Outcome::Conflict,
            Some(Look::Implied) => {
                self.imply(other, Some(number), level);
                Outcome::Stays
            }
        }
    }

    // Goes through the chain of a literal that became false: each clause keeps its node there, has it
    // moved to the chain of another literal, or is false. The number of a clause that is false, if there
    // is one.
    fn visit(&mut self, falsified: u32, level: u32) -> Option<u32>
        ensures onward { Onward self.old self.new }
        ensures conflict { IfSome result (λ clause. Jammed self.new.trail × (clause < numbers_of self.new)) }
    {
        let mut back = None;
        let mut node = self.watches.head(falsified);
        for _ in 0..self.watches.nodes() {
            let place = node.checked_sub(1)?;
            let clause = place / 2;
            let at = 4 * clause as usize;
            let side = (place % 2) as usize;
            let next = self.watches.link(at + side);
            let other = self.watches.link(at + 3 - side);
            match self.examine(clause, other, level) {
                Outcome::Conflict => return Some(clause),
                Outcome::Stays => back = Some(at + side),
                Outcome::Moves(literal) => {
                    self.watches
                        .shift(back, falsified, at + side, literal, node, next);
                }
            }
            node = next;
        }
        None
    }

    // Has everything implied that the literals from a place of the trail on imply. The number of a clause
    // that is false, if there is one.
    pub fn propagate(&mut self, start: usize, level: u32) -> Option<u32>
        ensures onward { Onward self.old self.new }
        ensures conflict { IfSome result (λ clause. Jammed self.new.trail × (clause < numbers_of self.new)) }
    {
        let mut queue = start;
        // the trail grows meanwhile
        while queue < self.trail.len() {
            let falsified = negated(self.trail.literal(queue));
            queue += 1;
            if let Some(clause) = self.visit(falsified, level) {
                return Some(clause);
            }
        }
        None
    }
}
