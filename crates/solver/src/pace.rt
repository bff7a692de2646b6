// When to begin anew, and when to forget. It only steers: a search without it would end as well, and
// give the same answers, later.
ghost use Rattle.std.specs.Prelude.{◌≡◌};

// Conflicts in the unit by which fresh starts are counted.
const UNIT: u32 = 100;
// Clauses that may be kept at first, at the least.
const FEWEST: usize = 1000;

#[derive(Clone, Copy)]
pub struct Pace {
    // Up to where the trail has been propagated before any decision.
    pub start: usize,
    // Conflicts since the last fresh start, and how many units may pass: 1, 1, 2, 1, 1, 2, 4 and so on
    // (Luby, Sinclair and Zuckerman 1993), made one from the other as Knuth does.
    conflicts: u32,
    turn: u32,
    length: u32,
    // How many clauses may be kept. After so many conflicts it grows by a tenth, and the wait by half.
    most: usize,
    growing: u32,
    wait: u32,
    // Conflicts since clauses were last forgotten, how many have to pass before that is done for want
    // of memory, and how many clauses had found no room then. The patience grows, so that little
    // memory does not mean that everything is forgotten again and again.
    idle: u32,
    patience: u32,
    unkept: u64,
}

impl Pace {
    // For a problem of so many clauses.
    pub fn new(clauses: usize) -> Pace
        ensures { result.start ≡ 0 }
    {
        Pace {
            start: 0,
            conflicts: 0,
            turn: 1,
            length: 1,
            most: (clauses / 3).max(FEWEST),
            growing: 0,
            wait: UNIT,
            idle: 0,
            patience: 10 * UNIT,
            unkept: 0,
        }
    }

    // Forgets nothing.
    pub(crate) fn endless() -> Pace
        ensures { result.start ≡ 0 }
    {
        let mut pace = Pace::new(0);
        pace.most = usize::MAX;
        pace.unkept = u64::MAX;
        pace
    }

    // A conflict has passed.
    pub(crate) fn note_conflict(&mut self) {
        self.conflicts = self.conflicts.saturating_add(1);
        self.idle = self.idle.saturating_add(1);
        self.growing = self.growing.saturating_add(1);
        if self.growing >= self.wait {
            self.growing = 0;
            self.wait = self.wait.saturating_add(self.wait / 2);
            self.most = self.most.saturating_add(self.most / 10);
        }
    }

    // Whether it is time to begin anew.
    pub(crate) fn is_over(&self) -> bool {
        self.conflicts / UNIT >= self.length
    }

    // Whether it is time to forget, with so many clauses kept and so many that found no room.
    pub(crate) fn is_full(&self, learned: usize, unkept: u64) -> bool {
        learned >= self.most || unkept > self.unkept && self.idle >= self.patience
    }

    pub(crate) fn begin_anew(&mut self) {
        self.conflicts = 0;
        let double = self.length.saturating_mul(2).max(1);
        if self.turn % double == self.length {
            self.turn = self.turn.saturating_add(1);
            self.length = 1;
        } else {
            self.length = double;
        }
    }

    pub(crate) fn note_forgotten(&mut self, unkept: u64) {
        if unkept > self.unkept {
            self.patience = self.patience.saturating_add(self.patience / 4);
        }
        self.unkept = unkept;
        self.idle = 0;
    }
}
