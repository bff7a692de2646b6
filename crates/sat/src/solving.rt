// Questions on lent work: all memory is divided up from it, once for every question.
ghost use Rattle.std.specs.Prelude.{◌≡◌, ◌+◌, ◌-◌, ◌*◌, ◌<◌, ◌≤◌, true, false, ◌++◌, length};
ghost use Rattle.clauses.specs.Formulas.{Models};
ghost use Rattle.solver.specs.Values.{assignment};
ghost use Rattle.solver.specs.Assumptions.{KnownAll, HoldsAll, NoneWith};
ghost use Rattle.descent.specs.Firsts.{Room, FirstSays};

use analysis::Analysis;
use clauses::{Clauses, Store};
use conflicts::{Counters, Learner};
use descent::first_model;
use learning::Uses;
use order::Order;
use propagation::{Causes, Search, Watches};
use solver::{Guide, Pace, Solver};
use trail::Trail;

// A search over clauses, on lent work: the trail, its causes, who watches which clause, and what is
// learned.
fn search_on<'a>(
    problem: Clauses<'a>,
    units: Store<'a>,
    own: &'a mut [u32],
    rest: &'a mut [u32],
) -> Search<'a>
    requires few { problem.variables < 2147483647 }
    requires units { units.variables ≡ problem.variables }
    requires own { length own.old ≡ 6 * problem.variables }
    requires rest { 2 * problem.variables + 4 * length problem.formula ≤ length rest.old }
    ensures problem { result.trail.problem ≡ problem.entry }
    ensures units { result.trail.units ≡ units.entry }
{
    let variables = problem.variables();
    let base = problem.len();
    let (values, own) = own.split_at_mut(variables);
    let (literals, own) = own.split_at_mut(variables);
    let (marks, own) = own.split_at_mut(variables);
    let (reasons, own) = own.split_at_mut(variables);
    let (levels, places) = own.split_at_mut(variables);
    let (heads, rest) = rest.split_at_mut(2 * variables);
    let most = (rest.len() - 4 * base) / 32;
    let (links, rest) = rest.split_at_mut(4 * (base + most));
    let (spans, words) = rest.split_at_mut(2 * most);
    heads.fill(0);
    Search::new(
        Trail::new(problem, units, values, literals, marks),
        Causes::new(reasons, levels, places),
        Watches { heads, links },
        Store::new(variables, spans, words),
    )
}

// A solver on lent work, which goes on to count.
fn solver_on<'a>(
    problem: Clauses<'a>,
    units: Store<'a>,
    decided: usize,
    work: &'a mut [u32],
    counters: Counters,
) -> Solver<'a>
    requires few { problem.variables < 2147483647 }
    requires units { units.variables ≡ problem.variables }
    requires room { 15 * problem.variables + 4 * length problem.formula ≤ length work.old }
    ensures problem { result.trail.problem ≡ problem.entry }
    ensures units { result.trail.units ≡ units.entry }
{
    let variables = problem.variables();
    let base = problem.len();
    let (own, work) = work.split_at_mut(6 * variables);
    let (seen, work) = work.split_at_mut(variables);
    let (touched, work) = work.split_at_mut(variables);
    let (buffer, work) = work.split_at_mut(variables);
    let (scores, work) = work.split_at_mut(variables);
    let (heap, work) = work.split_at_mut(variables);
    let (places, work) = work.split_at_mut(variables);
    let (phases, work) = work.split_at_mut(variables);
    let spare = (work.len() - 2 * variables - 4 * base) / 32;
    let (last, rest) = work.split_at_mut(spare);
    phases.fill(0);
    let decided = decided.min(variables);
    let learner = Learner {
        search: search_on(problem, units, own, rest),
        analysis: Analysis::new(seen, touched, buffer),
        uses: Uses { last, clock: 0 },
        order: Order::new(scores, heap, places, decided),
        phases,
        decided,
        counters,
    };
    Solver {
        learner,
        pace: Pace::new(base),
    }
}

// Asks whether clauses have a model with the assumptions, which the values are then; but for a model
// they are as they were.
pub fn ask_stored(
    problem: Clauses,
    values: &mut [u32],
    decided: usize,
    assumptions: &[u32],
    work: &mut [u32],
    counters: &mut Counters,
) -> bool
    requires size { length values.old ≡ problem.variables }
    requires few { problem.variables < 2147483647 }
    requires assumptions { KnownAll problem.variables assumptions.now }
    requires room { 15 * problem.variables + 4 * length problem.formula ≤ length work.old }
    ensures model { result ≡ true → Models problem.entry.formula (assignment values.new) }
    ensures holds { result ≡ true → HoldsAll (assignment values.new) assumptions.now (length assumptions.now) }
    ensures none { result ≡ false → NoneWith problem.entry.formula assumptions.now (length assumptions.now) }
    ensures same { result ≡ false → values.new ≡ values.old }
{
    let variables = problem.variables();
    let units = Store::new(variables, &mut [], &mut []);
    let mut solver = solver_on(problem, units, decided, work, *counters);
    let found = solver.begin().is_ok()
        && solver.solve_under(assumptions, assumptions.len(), Guide::Activity);
    if found {
        solver.hold(values);
    }
    *counters = solver.learner.counters;
    found
}

// Finds the first model of clauses, a problem's and units, by the variables of a range, given by its ends,
// of which promises speak. The values are it then; but for a model they are as they were. How many
// questions that took. The units get a clause for each variable of the range.
pub fn first_stored(
    problem: Clauses,
    units: Store,
    values: &mut [u32],
    decided: usize,
    low: usize,
    high: usize,
    work: &mut [u32],
    counters: &mut Counters,
) -> Option<usize>
    requires size { length values.old ≡ problem.variables }
    requires few { problem.variables < 2147483647 }
    requires range { high ≤ problem.variables }
    requires known { units.variables ≡ problem.variables }
    requires units { Room units (high - low) }
    requires room { 15 * problem.variables + 4 * length problem.formula ≤ length work.old }
    ensures says { FirstSays (problem.entry.formula ++ units.entry.formula) low high values.old values.new result }
{
    let mut solver = solver_on(problem, units, decided, work, *counters);
    let questions = match solver.begin() {
        Ok(()) => first_model(&mut solver, low, high, values),
        Err(_) => None,
    };
    *counters = solver.learner.counters;
    questions
}
