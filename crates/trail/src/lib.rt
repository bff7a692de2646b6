// The trail over clauses. It says what holds in every model that has the decisions, and
// it is what falls: no step but one from a counted budget makes it larger as a number in base 3.
#![tactic(auto)]

ghost use Rattle.std.specs.Prelude.{◌≡◌, ℕ, ◌+◌, ◌-◌, ◌/◌, ◌%◌, ◌<◌, ◌≤◌, true, [], ◌∷◌, ◌++◌, length, OnOk, OnErr, ◌==◌, slice_index, slice_set};
ghost use Rattle.clauses.specs.Formulas.{Assignment, value, negation, Models};
ghost use Rattle.clauses.specs.Stores.{AddedIf};
ghost use Rattle.trail.specs.Views.{formula_of, variables_of};
ghost use Rattle.trail.specs.Trails.{Decided, Held, Good, Jammed, Later, Falls, SameClauses, Forced, NoneModels, Rooted, RootAfter, Put, Popped};

use clauses::{Clauses, Store, Unfit, negated};
use std::marker::Model;

// The marks of literals on the trail, in words that are lent.
const IMPLIED: u32 = 0;

const DECIDED: u32 = 1;

// The clauses; a value for each variable (0 not known, 1 true, 2 false), the literals that are true in
// the order in which they came, and for each of those whether it was decided or implied. The clauses are
// a problem's, and those of one literal each that came later. All are words that are lent, of which so
// many are in use; the values are what callers get.
#[derive(Drop)]
pub struct Trail<'a> {
    problem: Clauses<'a>,
    units: Store<'a>,
    values: &'a mut [u32],
    literals: &'a mut [u32],
    marks: &'a mut [u32],
    len: usize,
    // The place of the first decision, or the length.
    root: usize,
}

impl<'a> Model for Trail<'a> {
    ghost use Rattle.trail.specs.Views.{TrailView};

    ghost Value = { TrailView };

    ghost use Rattle.trail.specs.Keeping.{trail_view, IsGood};

    ghost view = { trail_view };

    ghost invariant = { IsGood };
}

// The place of the first decision when a literal comes with a mark; before, it was root.
fn root_after(root: usize, len: usize, mark: u32) -> usize
    requires { len < 9223372036854775808 }
    ensures { RootAfter root len mark result }
{
    if root == len && mark != DECIDED {
        root + 1
    } else {
        root
    }
}

// The place of the first decision among so many marks, or their number.
fn root_of(marks: &[u32], len: usize) -> usize
    requires { len ≤ length marks.now }
    ensures rooted { Rooted marks.now result }
    ensures low { result ≤ len }
    ensures decided { result < len → slice_index marks.now result ≡ 1 }
{
    // by place, which is what comes back
    for place in 0..len {
        if marks[place] == DECIDED {
            return place;
        }
    }
    len
}

// There is no model of the clauses.
#[derive(Clone, Copy, PartialEq, Eq, Debug)]
pub struct NoModel;

impl<'a> Trail<'a> {
    // Nothing is known yet.
    pub fn new(
        problem: Clauses<'a>,
        units: Store<'a>,
        values: &'a mut [u32],
        literals: &'a mut [u32],
        marks: &'a mut [u32],
    ) -> Trail<'a>
        requires units { units.variables ≡ problem.variables }
        requires values_long { length values.old ≡ problem.variables }
        requires literals_long { problem.variables ≤ length literals.old }
        requires marks_long { problem.variables ≤ length marks.old }
        ensures problem { result.problem ≡ problem.entry }
        ensures units { result.units ≡ units.entry }
        ensures len { result.len ≡ 0 }
    {
        values.fill(0);
        Trail {
            problem,
            units,
            values,
            literals,
            marks,
            len: 0,
            root: 0,
        }
    }

    // So many literals that stand in the memory already, with their values and marks: one who kept a
    // trail's memory takes it up again. Nothing is written.
    pub fn over(
        problem: Clauses<'a>,
        units: Store<'a>,
        values: &'a mut [u32],
        literals: &'a mut [u32],
        marks: &'a mut [u32],
        len: usize,
    ) -> Trail<'a>
        requires units { units.variables ≡ problem.variables }
        requires held { Held (problem.formula ++ units.formula) problem.variables values.old literals.old marks.old len }
        ensures problem { result.problem ≡ problem.entry }
        ensures units { result.units ≡ units.entry }
        ensures values { result.values ≡ values.old }
        ensures literals { result.literals ≡ literals.old }
        ensures marks { result.marks ≡ marks.old }
        ensures len { result.len ≡ len }
    {
        let root = root_of(marks, len);
        Trail {
            problem,
            units,
            values,
            literals,
            marks,
            len,
            root,
        }
    }
}

impl Trail<'_> {
    // What every trail keeps, for proofs.
    pub fn keeps(&self)
        ensures { Good self.now }
    {
        let _ = &self.len;
    }

    pub fn variables(&self) -> usize
        ensures { result ≡ variables_of self.now }
    {
        self.values.len()
    }

    pub fn problem(&self) -> &Clauses<'_>
        ensures is { result.now ≡ self.now.problem }
    {
        &self.problem
    }

    pub fn units(&self) -> &Store<'_>
        ensures is { result.now ≡ self.now.units }
    {
        &self.units
    }

    pub fn values(&self) -> &[u32]
        ensures is { result.now ≡ self.now.values }
    {
        self.values
    }

    pub fn len(&self) -> usize
        ensures is { result ≡ self.now.len }
        ensures few { result ≤ variables_of self.now }
    {
        self.len
    }

    // The literal at a place.
    pub fn literal(&self, place: usize) -> u32
        requires { place < self.now.len }
        ensures is { result ≡ slice_index self.now.literals place }
        ensures known { result / 2 < variables_of self.now }
    {
        prove!(place < self.len);
        self.literals[place]
    }

    // Whether the literal at a place was decided.
    pub fn is_decided(&self, place: usize) -> bool
        requires { place < self.now.len }
        ensures { result ≡ (slice_index self.now.marks place == 1) }
    {
        prove!(place < self.len);
        self.marks[place] == DECIDED
    }

    // The place of the first decision, or the trail's length.
    pub fn first_decision(&self) -> usize
        ensures rooted { Rooted self.now.marks result }
        ensures low { result ≤ self.now.len }
        ensures decided { result < self.now.len → slice_index self.now.marks result ≡ 1 }
    {
        self.root
    }

    // Whether a literal is true, or false.
    pub fn holds(&self, literal: u32) -> bool
        requires { literal / 2 < variables_of self.now }
        ensures { result ≡ (slice_index self.now.values (literal / 2) == 1 + literal % 2) }
    {
        prove!(((literal / 2) as usize) < self.values.len());
        self.values[(literal / 2) as usize] == 1 + literal % 2
    }

    pub fn fails(&self, literal: u32) -> bool
        requires { literal / 2 < variables_of self.now }
        ensures { result ≡ (slice_index self.now.values (literal / 2) == 2 - literal % 2) }
    {
        prove!(((literal / 2) as usize) < self.values.len());
        self.values[(literal / 2) as usize] == 2 - literal % 2
    }

    // One literal more.
    fn put(&mut self, literal: u32, mark: u32)
        requires known { literal / 2 < variables_of self.old }
        requires free { slice_index self.old.values (literal / 2) ≡ 0 }
        requires implied { (α : Assignment) → Models (formula_of self.old) α → Decided self.old.literals self.old.marks α self.old.len → (mark ≡ 1 → value α literal ≡ true) → value α literal ≡ true }
        ensures put { Put self.old literal mark self.new }
        ensures room { self.old.len < variables_of self.old }
    {
        self.values[(literal / 2) as usize] = 1 + literal % 2;
        self.literals[self.len] = literal;
        self.marks[self.len] = mark;
        self.root = root_after(self.root, self.len, mark);
        self.len += 1;
    }

    // One literal less: the last one.
    fn pop(&mut self) -> u32
        requires { 0 < self.old.len }
        ensures popped { Popped self.old self.new result }
        ensures known { result / 2 < variables_of self.old }
        ensures free { slice_index self.new.values (result / 2) ≡ 0 }
    {
        self.len -= 1;
        self.root = self.root.min(self.len);
        let literal = self.literals[self.len];
        self.values[(literal / 2) as usize] = 0;
        literal
    }

    // A literal that is true in every model that has the decisions.
    pub fn imply(&mut self, literal: u32)
        requires known { literal / 2 < variables_of self.old }
        requires free { slice_index self.old.values (literal / 2) ≡ 0 }
        requires implied { Forced self.old self.old.len literal }
        ensures clauses { SameClauses self.old self.new }
        ensures less { Falls self.old self.new }
        ensures later { Later self.old self.new }
        ensures len { self.new.len ≡ self.old.len + 1 }
        ensures values { self.new.values ≡ slice_set self.old.values (literal / 2) (1 + literal % 2) }
    {
        self.keeps();
        self.put(literal, IMPLIED);
    }

    // A decision.
    pub fn decide(&mut self, literal: u32)
        requires known { literal / 2 < variables_of self.old }
        requires free { slice_index self.old.values (literal / 2) ≡ 0 }
        ensures clauses { SameClauses self.old self.new }
        ensures less { Falls self.old self.new }
        ensures literals { self.new.literals ≡ slice_set self.old.literals self.old.len literal }
        ensures marks { self.new.marks ≡ slice_set self.old.marks self.old.len 1 }
        ensures len { self.new.len ≡ self.old.len + 1 }
    {
        self.keeps();
        self.put(literal, DECIDED);
    }

    // Goes back to the first so many literals.
    pub fn pop_to(&mut self, keep: usize)
        requires low { keep ≤ self.old.len }
        ensures clauses { SameClauses self.old self.new }
        ensures literals { self.new.literals ≡ self.old.literals }
        ensures marks { self.new.marks ≡ self.old.marks }
        ensures len { self.new.len ≡ keep }
        ensures freed { (q : ℕ) → keep ≤ q → q < self.old.len → slice_index self.new.values (slice_index self.old.literals q / 2) ≡ 0 }
    {
        while self.len() > keep {
            self.pop();
        }
    }

    // Goes back to a decision, and puts in its place the negation of a literal at or above it, which
    // is true in every model that has the decisions before.
    pub fn jump(&mut self, decision: usize, place: usize)
        requires order { decision ≤ place }
        requires within { place < self.old.len }
        requires decided { slice_index self.old.marks decision ≡ 1 }
        requires forced { Forced self.old decision (negation (slice_index self.old.literals place)) }
        ensures clauses { SameClauses self.old self.new }
        ensures less { Falls self.old self.new }
        ensures later { Later self.old self.new }
        ensures len { self.new.len ≡ decision + 1 }
    {
        self.keeps();
        let literal = negated(self.literal(place));
        self.pop_to(decision);
        self.put(literal, IMPLIED);
    }

    // Goes back to the last decision and turns it round. Where there is none, there is no model; then
    // nothing is left on the trail.
    pub fn flip(&mut self) -> Result<(), NoModel>
        requires jammed { Jammed self.old }
        ensures clauses { SameClauses self.old self.new }
        ensures later { Later self.old self.new }
        ensures less { OnOk result (Falls self.old self.new) }
        ensures none { OnErr result (NoneModels (formula_of self.old)) }
    {
        self.keeps();
        while self.len() > 0 {
            let decided = self.is_decided(self.len() - 1);
            let literal = self.pop();
            if decided {
                self.put(negated(literal), IMPLIED);
                return Ok(());
            }
        }
        Err(NoModel)
    }

    // One clause more, of one literal, and the literals stay as they are; or it is refused, and nothing
    // changes.
    pub fn add(&mut self, literal: u32) -> Result<(), Unfit>
        ensures added { AddedIf (literal ∷ []) self.old.units self.new.units result }
        ensures problem { self.new.problem ≡ self.old.problem }
        ensures values { self.new.values ≡ self.old.values }
        ensures literals { self.new.literals ≡ self.old.literals }
        ensures marks { self.new.marks ≡ self.old.marks }
        ensures len { self.new.len ≡ self.old.len }
    {
        self.units.add(&[literal])
    }
}
