// Which variable is to be decided next; and when all have a value, whether these are a model.
ghost use Rattle.std.specs.Prelude.{◌≡◌, ◌<◌, ◌≤◌, true, false};
ghost use Rattle.clauses.specs.Formulas.{Models, Satisfies};
ghost use Rattle.clauses.specs.Stores.{Known};
ghost use Rattle.trail.specs.Views.{variables_of, formula_of};
ghost use Rattle.trail.specs.Trails.{Jammed};
ghost use Rattle.solver.specs.Values.{assignment, Full, OpenSays, NoneTrue, AllSatisfied, SomeFalse};

use clauses::Clauses;
use order::Order;
use trail::Trail;

// The first of the first so many variables that has no value.
pub fn open_variable(trail: &Trail, most: usize) -> Option<u32>
    requires within { most ≤ variables_of trail.now }
    requires few { most < 2147483648 }
    ensures { OpenSays most trail.now.values result }
{
    trail.keeps();
    trail.values()[..most]
        .iter()
        .position(|value| *value == 0)
        .map(|variable| variable as u32)
}

// The first variable without a value by an order, or any.
pub fn next_variable(trail: &Trail, order: &mut Order) -> Option<u32>
    requires { variables_of trail.now < 2147483648 }
    ensures { OpenSays (variables_of trail.now) trail.now.values result }
{
    trail.keeps();
    while let Some(variable) = order.pop() {
        if trail.values().get(variable as usize) == Some(&0) {
            return Some(variable);
        }
    }
    open_variable(trail, trail.variables())
}

// Whether a literal of a clause is true.
fn is_satisfied(trail: &Trail, clause: &[u32]) -> bool
    requires { Known (variables_of trail.now) clause.now }
    ensures yes { result ≡ true → Satisfies (assignment trail.now.values) clause.now }
    ensures no { result ≡ false → NoneTrue trail.now.values clause.now }
{
    for literal in clause {
        if trail.holds(*literal) {
            return true;
        }
    }
    false
}

// Whether a literal of each clause is true.
fn are_satisfied(trail: &Trail, clauses: &Clauses) -> bool
    requires { clauses.now.variables ≡ variables_of trail.now }
    ensures yes { result ≡ true → AllSatisfied trail.now.values clauses.now.formula }
    ensures no { result ≡ false → SomeFalse (variables_of trail.now) trail.now.values clauses.now.formula }
{
    // by number, since clauses are seen one at a time
    for number in 0..clauses.len() {
        if !is_satisfied(trail, clauses.clause(number)) {
            return false;
        }
    }
    true
}

// Whether the values are a model; if not, none has the decisions.
pub fn is_model(trail: &Trail) -> bool
    requires { Full (variables_of trail.now) trail.now.values }
    ensures model { result ≡ true → Models (formula_of trail.now) (assignment trail.now.values) }
    ensures jammed { result ≡ false → Jammed trail.now }
{
    trail.keeps();
    are_satisfied(trail, trail.problem()) && are_satisfied(trail, &trail.units().clauses())
}
