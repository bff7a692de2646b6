// Conflict analysis. From a clause that is false, variables are marked such that every model differs
// from the values at a marked one. A marked variable may be replaced by those of its reason. When
// only one of the current level is left, the marked variables are the learned clause. Levels and
// reasons only steer: each step sees what it needs.
#![tactic(auto)]

ghost use Rattle.std.specs.Prelude.{◌≡◌, ℕ, ◌+◌, ◌/◌, ◌<◌, ◌≤◌, true, ◌⊎◌, [], length, IfSome, OnSome, take, All, IsTrue, slice_index};
ghost use Rattle.clauses.specs.Stores.{Known, Follows};
ghost use Rattle.trail.specs.Trails.{IsTrueUnder, IsFalseUnder, Jammed};
ghost use Rattle.trail.specs.Views.{variables_of as variables_on};
ghost use Rattle.propagation.specs.Views.{variables_of, formula_of};
ghost use Rattle.analysis.specs.Views.{met_of, clause_of};
ghost use Rattle.analysis.specs.Marking.{literal_of, Noted, Fits, Grown, Never, AllTaken, Absorbed, ApartA, Gathered};
ghost use Rattle.analysis.specs.Refusing.{RefusedIf};

use clauses::negated;
use propagation::Search;
use std::marker::Model;
use trail::Trail;

// No variable has this literal: with it in an Option's place, what is said of the literal that stays out
// is said of a number in each definition.
const NO_LITERAL: u32 = 0xffff_ffff;

// Which variables are marked; all that were marked once, in turn; and the clause that is learned: in words
// that are lent, of which so many are in use. The search is only read meanwhile, so it is no part of it.
#[derive(Drop)]
pub struct Analysis<'a> {
    seen: &'a mut [u32],
    touched: &'a mut [u32],
    buffer: &'a mut [u32],
    count: usize,
    // Marked variables of the current level. They only steer.
    open: usize,
    size: usize,
}

impl<'a> Model for Analysis<'a> {
    ghost use Rattle.analysis.specs.Views.{AnalysisView};

    ghost Value = { AnalysisView };

    ghost use Rattle.analysis.specs.Keeping.{analysis_view, IsNoted};

    ghost view = { analysis_view };

    ghost invariant = { IsNoted };
}

// Whether a literal is false before any decision.
fn is_never(search: &Search, literal: u32) -> bool
    requires { literal / 2 < variables_of search.now }
    ensures { result ≡ true → Never (formula_of search.now) literal }
{
    search.keeps();
    let trail = search.trail();
    trail.keeps();
    let place = search.causes().place(literal / 2) as usize;
    place < trail.first_decision() && trail.literal(place) == negated(literal)
}

// The literal of a variable that is false under the values.
fn false_literal(trail: &Trail, variable: u32) -> u32
    requires few { variables_on trail.now < 2147483648 }
    requires known { variable < variables_on trail.now }
    ensures { result ≡ literal_of trail.now.values variable }
{
    if trail.holds(2 * variable) {
        2 * variable + 1
    } else {
        2 * variable
    }
}

// Takes marks away.
fn unmark(seen: &mut [u32], variables: &[u32])
    requires { All (λ x. x < length seen.old) variables.now }
    ensures size { length seen.new ≡ length seen.old }
    ensures gone { All (λ x. slice_index seen.new x ≡ 0) variables.now }
    ensures none { (x : ℕ) → slice_index seen.old x ≡ 0 → slice_index seen.new x ≡ 0 }
{
    for variable in variables {
        seen[*variable as usize] = 0;
    }
}

// Writes the false literals of those of the first so many variables that are marked. How many there
// are; None where there is no room.
fn gather(
    trail: &Trail,
    seen: &[u32],
    touched: &[u32],
    count: usize,
    buffer: &mut [u32],
) -> Option<usize>
    requires few { variables_on trail.now < 2147483648 }
    requires noted { Noted (variables_on trail.now) seen.now touched.now count }
    ensures size { length buffer.new ≡ length buffer.old }
    ensures room { IfSome result (λ size. size ≤ length buffer.new) }
    ensures gathered { IfSome result (λ size. Gathered (variables_on trail.now) trail.now.values seen.now (take count touched.now) (take size buffer.new)) }
{
    let mut size = 0;
    for variable in &touched[..count] {
        if seen[*variable as usize] != 1 {
            continue;
        }
        if size >= buffer.len() {
            return None;
        }
        buffer[size] = false_literal(trail, *variable);
        size += 1;
    }
    Some(size)
}

impl<'a> Analysis<'a> {
    // Nothing is marked yet. There is a mark for each variable.
    pub fn new(seen: &'a mut [u32], touched: &'a mut [u32], buffer: &'a mut [u32]) -> Analysis<'a>
        ensures size { length result.seen ≡ length seen.old }
        ensures none { (x : ℕ) → slice_index result.seen x ≡ 0 }
        ensures met { met_of result ≡ [] }
    {
        seen.fill(0);
        Analysis::over(seen, touched, buffer, 0)
    }

    // So many variables that were marked stand in the memory already, with their marks: one who kept an
    // analysis's memory takes it up again. Nothing is written, and no clause is learned yet.
    pub fn over(
        seen: &'a mut [u32],
        touched: &'a mut [u32],
        buffer: &'a mut [u32],
        count: usize,
    ) -> Analysis<'a>
        requires { Noted (length seen.old) seen.old touched.old count }
        ensures seen { result.seen ≡ seen.old }
        ensures touched { result.touched ≡ touched.old }
        ensures count { result.count ≡ count }
        ensures buffer { result.buffer ≡ buffer.old }
        ensures size { result.size ≡ 0 }
    {
        Analysis {
            seen,
            touched,
            buffer,
            count,
            open: 0,
            size: 0,
        }
    }
}

impl Analysis<'_> {
    // The variables that a conflict met.
    pub fn met(&self) -> &[u32]
        ensures is { result.now ≡ met_of self.now }
        ensures known { All (λ x. x < length self.now.seen) result.now }
    {
        &self.touched[..self.count]
    }

    // The clause that is learned.
    pub fn clause(&self) -> &[u32]
        ensures { result.now ≡ clause_of self.now }
    {
        &self.buffer[..self.size]
    }

    // Marks the variable of a literal that is false; None where it is not false, or there is no room.
    fn mark(&mut self, search: &Search, level: u32, literal: u32) -> Option<()>
        requires fits { Fits self.old search.now }
        requires known { literal / 2 < variables_of search.now }
        ensures size { length self.new.seen ≡ length self.old.seen }
        ensures grown { Grown self.old.seen self.new.seen }
        ensures marked { OnSome result (IsFalseUnder search.now.trail.values literal × ((slice_index self.new.seen (literal / 2) ≡ 1) ⊎ Never (formula_of search.now) literal)) }
    {
        if !search.trail().fails(literal) {
            return None;
        }
        let variable = (literal / 2) as usize;
        if self.seen[variable] == 1 || is_never(search, literal) {
            return Some(());
        }
        if self.count >= self.touched.len() {
            return None;
        }
        self.seen[variable] = 1;
        self.touched[self.count] = literal / 2;
        self.count += 1;
        let here = search.causes().level(literal / 2) == level;
        self.open = self.open.saturating_add(here as usize);
        Some(())
    }

    // Marks the variables of all literals of a clause but one.
    fn absorb(&mut self, search: &Search, level: u32, clause: &[u32], except: u32) -> Option<()>
        requires fits { Fits self.old search.now }
        requires known { Known (variables_of search.now) clause.now }
        ensures size { length self.new.seen ≡ length self.old.seen }
        ensures grown { Grown self.old.seen self.new.seen }
        ensures taken { OnSome result (AllTaken (formula_of search.now) search.now.trail.values self.new.seen clause.now except) }
    {
        for literal in clause {
            if *literal == except {
                continue;
            }
            if *literal / 2 == except / 2 {
                return None;
            }
            self.mark(search, level, *literal)?;
        }
        Some(())
    }

    // The same of a clause, by its number.
    fn absorb_clause(
        &mut self,
        search: &Search,
        level: u32,
        number: usize,
        except: u32,
    ) -> Option<()>
        requires fits { Fits self.old search.now }
        ensures size { length self.new.seen ≡ length self.old.seen }
        ensures grown { Grown self.old.seen self.new.seen }
        ensures absorbed { OnSome result (Absorbed (formula_of search.now) (variables_of search.now) search.now.trail.values self.new.seen except) }
    {
        self.absorb(search, level, search.clause(number)?, except)
    }

    // Replaces the variable of a literal that is true by those of the clause that implied it.
    fn resolve(&mut self, search: &Search, level: u32, number: usize, literal: u32) -> Option<()>
        requires fits { Fits self.old search.now }
        requires known { literal / 2 < variables_of search.now }
        requires holds { IsTrueUnder search.now.trail.values literal }
        requires apart { ApartA search.now self.old }
        ensures size { length self.new.seen ≡ length self.old.seen }
        ensures apart { OnSome result (ApartA search.now self.new) }
    {
        self.absorb_clause(search, level, number, literal)?;
        self.seen[(literal / 2) as usize] = 0;
        self.open = self.open.saturating_sub(1);
        Some(())
    }

    // From the number of a clause that is false: marks, such that every model differs from the values
    // at a marked variable, with one of the current level left, whose place on the trail comes back.
    pub fn analyze(&mut self, search: &Search, level: u32, conflict: u32) -> Option<usize>
        requires fits { Fits self.old search.now }
        ensures size { length self.new.seen ≡ length self.old.seen }
        ensures apart { IfSome result (λ place. ApartA search.now self.new × (place < search.now.trail.len)) }
    {
        search.keeps();
        self.open = 0;
        self.absorb_clause(search, level, conflict as usize, NO_LITERAL)?;
        let trail = search.trail();
        // by place, which is what comes back
        for place in (0..trail.len()).rev() {
            let literal = trail.literal(place);
            if self.seen[(literal / 2) as usize] == 1 {
                if self.open <= 1 {
                    return Some(place);
                }
                let reason = search.causes().reason(literal / 2)?;
                if !trail.holds(literal) {
                    return None;
                }
                self.resolve(search, level, reason as usize, literal)?;
            }
        }
        None
    }

    // Whether all variables of a clause's literals but one's are marked, or have their values from no
    // decision. It only steers.
    fn covers(&self, search: &Search, clause: &[u32], except: u32) -> bool
        requires fits { Fits self.now search.now }
        requires known { Known (variables_of search.now) clause.now }
    {
        clause.iter().all(|literal| {
            *literal == except
                || self.seen[(*literal / 2) as usize] == 1
                || search.causes().level(*literal / 2) == 0
        })
    }

    // Unmarks variables that the other marked ones imply; None where the marks are of no use any more.
    pub fn minimize(&mut self, search: &Search) -> Option<()>
        requires fits { Fits self.old search.now }
        requires apart { ApartA search.now self.old }
        ensures size { length self.new.seen ≡ length self.old.seen }
        ensures apart { OnSome result (ApartA search.now self.new) }
    {
        search.keeps();
        let trail = search.trail();
        // what is met may change as it is gone through
        for index in 0..self.count {
            if index >= self.count {
                return Some(());
            }
            let variable = self.touched[index];
            let literal = negated(false_literal(trail, variable));
            if self.seen[variable as usize] != 1 || !trail.holds(literal) {
                continue;
            }
            let Some(reason) = search.causes().reason(variable) else {
                continue;
            };
            let Some(clause) = search.clause(reason as usize) else {
                continue;
            };
            if self.covers(search, clause, literal) {
                self.resolve(search, 0, reason as usize, literal)?;
            }
        }
        Some(())
    }

    // Writes the clause of the marked variables' false literals; None where there is no room.
    pub fn collect(&mut self, search: &Search) -> Option<()>
        requires fits { Fits self.old search.now }
        requires apart { ApartA search.now self.old }
        ensures seen { self.new.seen ≡ self.old.seen }
        ensures known { Known (variables_of search.now) (clause_of self.new) }
        ensures follows { OnSome result (Follows (formula_of search.now) (clause_of self.new)) }
    {
        search.keeps();
        self.size = 0;
        let count = self.count;
        let seen = &mut *self.seen;
        let touched = &mut *self.touched;
        let buffer = &mut *self.buffer;
        self.size = gather(search.trail(), seen, touched, count, buffer)?;
        Some(())
    }

    // Writes the clause of the negated decisions, where no model has all of them. The place of the last
    // one; None where there is no decision, or no room.
    pub fn refuse(&mut self, search: &Search) -> Option<usize>
        requires fits { Fits self.old search.now }
        requires jammed { Jammed search.now.trail }
        ensures seen { self.new.seen ≡ self.old.seen }
        ensures touched { self.new.touched ≡ self.old.touched }
        ensures count { self.new.count ≡ self.old.count }
        ensures buffer { length self.new.buffer ≡ length self.old.buffer }
        ensures refused { RefusedIf search.now self.new result }
    {
        self.size = 0;
        let trail = search.trail();
        let mut last = None;
        // by place, which is what comes back
        for place in 0..trail.len() {
            if !trail.is_decided(place) {
                continue;
            }
            if self.size >= self.buffer.len() {
                return None;
            }
            self.buffer[self.size] = negated(trail.literal(place));
            self.size += 1;
            last = Some(place);
        }
        last
    }

    // Unmarks all that is marked.
    pub fn clear(&mut self)
        ensures size { length self.new.seen ≡ length self.old.seen }
        ensures none { (x : ℕ) → slice_index self.new.seen x ≡ 0 }
    {
        let count = self.count;
        let seen = &mut *self.seen;
        let touched = &mut *self.touched;
        unmark(seen, &touched[..count]);
        self.count = 0;
    }
}
