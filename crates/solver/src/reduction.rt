// Forgetting, and what comes with it: the clauses that are kept have new numbers, so all watches are
// made anew. A clause that is true without any decision is no longer watched.
ghost use Rattle.std.specs.Prelude.{◌≡◌, length};
ghost use Rattle.clauses.specs.Stores.{Known};
ghost use Rattle.trail.specs.Views.{variables_of};

use conflicts::Learner;
use learning::forget;
use propagation::Search;
use trail::Trail;

// Two literals of a clause to watch, those first that are not false; nothing where one is true.
fn pick(trail: &Trail, clause: &[u32]) -> Option<(u32, u32)>
    requires { Known (variables_of trail.now) clause.now }
{
    let mut one = *clause.first()?;
    let mut other = *clause.last()?;
    let mut found: u32 = 0;
    for literal in clause {
        if trail.holds(*literal) {
            return None;
        }
        if !trail.fails(*literal) {
            if found == 0 {
                one = *literal;
            } else if found == 1 {
                other = *literal;
            }
            found = found.saturating_add(1);
        }
    }
    Some((one, other))
}

// Has a clause watched, given by its number.
fn watch(search: &mut Search, number: u32)
    ensures trail { search.new.trail ≡ search.old.trail }
    ensures causes { search.new.causes ≡ search.old.causes }
    ensures learned { search.new.learned ≡ search.old.learned }
{
    let Some(clause) = search.clause(number as usize) else {
        return;
    };
    if let Some((one, other)) = pick(search.trail(), clause) {
        search.attach(number, one, other);
    }
}

// Has all clauses watched, as far as their numbers fit.
fn watch_all(search: &mut Search)
    ensures trail { search.new.trail ≡ search.old.trail }
    ensures causes { search.new.causes ≡ search.old.causes }
    ensures learned { search.new.learned ≡ search.old.learned }
{
    let base = search.trail().problem().len();
    let count = base.saturating_add(search.learned().len());
    // by number, by which a clause is watched
    for number in 0..count.min(0x7fff_ffff) {
        watch(search, number as u32);
    }
}

// Forgets the worse half of what was learned.
pub fn reduce(learner: &mut Learner)
    ensures trail { learner.new.search.trail ≡ learner.old.search.trail }
    ensures causes { learner.new.search.causes ≡ learner.old.search.causes }
    ensures analysis { learner.new.analysis ≡ learner.old.analysis }
    ensures clock { learner.new.uses.clock ≡ learner.old.uses.clock }
    ensures decided { learner.new.decided ≡ learner.old.decided }
    ensures phases { length learner.new.phases.now ≡ length learner.old.phases.now }
{
    forget(&mut learner.search, &mut learner.uses);
    watch_all(&mut learner.search);
}
