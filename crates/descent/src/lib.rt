// The first model of clauses, by the variables of a range in their sequence, false first. One model is
// found; then, variable by variable, where it is true a lower one is asked for, and the variable is
// fixed for good as the model that is held then has it. So there are at most as many questions as
// variables: the first question wishes for the first variable to be false.
#![tactic(auto)]

ghost use Rattle.std.specs.Prelude.{◌≡◌, ◌+◌, ◌-◌, ◌<◌, ◌≤◌, length};
ghost use Rattle.clauses.specs.Formulas.{Models};
ghost use Rattle.clauses.specs.Stores.{Grown};
ghost use Rattle.trail.specs.Views.{variables_of, formula_of};
ghost use Rattle.trail.specs.Trails.{SameClauses};
ghost use Rattle.solver.specs.Values.{assignment};
ghost use Rattle.descent.specs.Firsts.{FirstModel, Lowest, literal_for, Room, FirstSays};

use solver::{Guide, Solver};

// The literal of a variable that is true under the values.
fn literal_at(values: &[u32], place: usize) -> u32
    requires within { place < length values.now }
    requires few { place < 2147483647 }
    ensures { result ≡ literal_for (assignment values.now) place }
{
    if values[place] == 1 {
        2 * place as u32
    } else {
        2 * place as u32 + 1
    }
}

// Asks for a model that is false at a variable where the one that is held is true; it is held then.
// How many questions that took.
fn lower(solver: &mut Solver, place: usize, values: &mut [u32]) -> usize
    requires size { length values.old ≡ variables_of solver.old.trail }
    requires place { place < variables_of solver.old.trail }
    requires few { variables_of solver.old.trail < 2147483647 }
    requires model { Models (formula_of solver.old.trail) (assignment values.old) }
    ensures clauses { SameClauses solver.old.trail solver.new.trail }
    ensures model { Models (formula_of solver.new.trail) (assignment values.new) }
    ensures lowest { Lowest (formula_of solver.new.trail) (assignment values.new) place }
    ensures few { result ≤ 1 }
    ensures decided { solver.new.decided ≡ solver.old.decided }
    ensures phases { length solver.new.phases.now ≡ length solver.old.phases.now }
{
    if values[place] != 1 {
        return 0;
    }
    let wanted = [2 * place as u32 + 1];
    if solver.solve_under(&wanted, 1, Guide::Activity) {
        solver.hold(values);
    }
    1
}

// From a model that is lowest at the first variable of a range: settles one variable after the other.
// How many questions that took. Fixing fails only where there is no model, but one is held.
fn descend(solver: &mut Solver, low: usize, high: usize, values: &mut [u32]) -> usize
    requires size { length values.old ≡ variables_of solver.old.trail }
    requires few { variables_of solver.old.trail < 2147483647 }
    requires range { (low < high) × (high ≤ variables_of solver.old.trail) }
    requires units { Room solver.old.trail.units (high - low) }
    requires model { Models (formula_of solver.old.trail) (assignment values.old) }
    requires lowest { Lowest (formula_of solver.old.trail) (assignment values.old) low }
    ensures first { FirstModel (formula_of solver.old.trail) (assignment values.new) low high }
    ensures questions { result + 1 ≤ high - low }
    ensures problem { solver.new.trail.problem ≡ solver.old.trail.problem }
    ensures grown { Grown solver.old.trail.units solver.new.trail.units }
    ensures decided { solver.new.decided ≡ solver.old.decided }
    ensures phases { length solver.new.phases.now ≡ length solver.old.phases.now }
{
    let _ = solver.fix(literal_at(values, low));
    let mut questions = 0;
    for place in low + 1..high {
        questions += lower(solver, place, values);
        let _ = solver.fix(literal_at(values, place));
    }
    questions
}

// The first model of the clauses, by the variables of a range; the values are it then. How many
// questions that took; nothing where there is no model.
pub fn first_model(
    solver: &mut Solver,
    low: usize,
    high: usize,
    values: &mut [u32],
) -> Option<usize>
    requires size { length values.old ≡ variables_of solver.old.trail }
    requires few { variables_of solver.old.trail < 2147483647 }
    requires range { high ≤ variables_of solver.old.trail }
    requires units { Room solver.old.trail.units (high - low) }
    ensures says { FirstSays (formula_of solver.old.trail) low high values.old values.new result }
    ensures problem { solver.new.trail.problem ≡ solver.old.trail.problem }
    ensures grown { Grown solver.old.trail.units solver.new.trail.units }
    ensures decided { solver.new.decided ≡ solver.old.decided }
    ensures phases { length solver.new.phases.now ≡ length solver.old.phases.now }
{
    if low >= high {
        if !solver.solve_under(&[], 0, Guide::Activity) {
            return None;
        }
        solver.hold(values);
        return Some(1);
    }
    let wish = [2 * low as u32 + 1];
    if !solver.solve_under(&wish, 0, Guide::Activity) {
        return None;
    }
    solver.hold(values);
    Some(1 + descend(solver, low, high, values))
}
