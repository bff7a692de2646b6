// What is learned must be forgotten again, since memory is bounded and every clause that is kept costs
// time. The half that is kept are the clauses that are short and took part lately. Nothing rests on
// the choice: what is kept follows as before, and what is forgotten is only no longer there.
ghost use Rattle.std.specs.Prelude.{◌≡◌, ℕ, ◌+◌, ◌≤◌, length, min, slice_index};
ghost use Rattle.learning.specs.Using.{noted_at};
ghost use Rattle.clauses.specs.Stores.{SameMemory};
ghost use Rattle.clauses.specs.Retaining.{SomeOf};

use propagation::Search;

// When each learned clause last took part, by a clock of conflicts, in words that are lent.
#[derive(Drop)]
pub struct Uses<'a> {
    pub last: &'a mut [u32],
    pub clock: u32,
}

// How little a clause is worth: how many conflicts ago it last took part, times its length. One of at
// most two literals is always worth keeping.
fn weight(last: u32, clock: u32, size: usize) -> u64 {
    if size <= 2 {
        return 0;
    }
    (clock.saturating_sub(last) as u64).saturating_mul(size as u64)
}

impl Uses<'_> {
    // One conflict more.
    pub fn tick(&mut self)
        ensures clock { self.new.clock ≡ min (self.old.clock + 1) 4294967295 }
        ensures last { self.new.last ≡ self.old.last }
    {
        self.clock = self.clock.saturating_add(1);
    }

    // Notes that a clause takes part, given by its number; those below the base are the problem's.
    pub fn note(&mut self, number: u32, base: usize)
        ensures last { self.new.last.now ≡ noted_at self.old.last.now number base self.old.clock }
        ensures named { self.new.last.ghost_name ≡ self.old.last.ghost_name }
        ensures clock { self.new.clock ≡ self.old.clock }
    {
        if let Some(clause) = (number as usize).checked_sub(base) {
            // by index, so that the other words are known to stay
            if clause < self.last.len() {
                self.last[clause] = self.clock;
            }
        }
    }

    // When a clause last took part; 0 where there is no word for it.
    fn last_of(&self, clause: usize) -> u32
        ensures { result ≡ slice_index self.now.last.now clause }
    {
        self.last.get(clause).copied().unwrap_or(0)
    }

    // How many learned clauses weigh at most so much.
    fn count_up_to(&self, search: &Search, most: u64) -> usize {
        let learned = search.learned();
        (0..learned.len())
            .filter(|number| {
                weight(
                    self.last_of(*number),
                    self.clock,
                    learned.clause(*number).len(),
                ) <= most
            })
            .count()
    }

    // A weight that about half of the clauses do not pass, found by halving.
    fn median(&self, search: &Search) -> u64 {
        let mut low: u64 = 0;
        let mut high: u64 = 0xff_ffff_ffff;
        for _ in 0..40 {
            let middle = low.saturating_add(high.saturating_sub(low) / 2);
            if self.count_up_to(search, middle) >= search.learned().len() / 2 {
                high = middle;
            } else {
                low = middle.saturating_add(1);
            }
        }
        high
    }
}

// Forgets the worse half of the learned clauses, and moves the others together. None is watched any more.
pub fn forget(search: &mut Search, uses: &mut Uses)
    ensures some { SomeOf search.old.learned.formula search.new.learned.formula }
    ensures fewer { length search.new.learned.formula ≤ length search.old.learned.formula }
    ensures memory { SameMemory search.old.learned search.new.learned }
    ensures trail { search.new.trail ≡ search.old.trail }
    ensures causes { search.new.causes ≡ search.old.causes }
    ensures heads { (l : ℕ) → slice_index search.new.watches.heads.now l ≡ 0 }
    ensures links { search.new.watches.links.now ≡ search.old.watches.links.now }
    ensures clock { uses.new.clock ≡ uses.old.clock }
    ensures last { length uses.new.last.now ≡ length uses.old.last.now }
{
    let limit = uses.median(search);
    // the closure gets the words alone, so that the clock stays
    let clock = uses.clock;
    let last = &mut *uses.last;
    let mut kept: usize = 0;
    search.retain(|clause, literals| {
        let taken = last.get(clause).copied().unwrap_or(0);
        let wanted = weight(taken, clock, literals.len()) <= limit;
        if wanted {
            if clause < last.len() && kept < last.len() {
                last[kept] = taken;
            }
            kept = kept.saturating_add(1);
        }
        wanted
    });
}
