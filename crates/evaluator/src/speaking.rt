// The things that 'for every' speaks of, the newest first: four at most.
// An array with a count: no heap is asked for.
ghost use Rattle.std.specs.Prelude.{◌≡◌, ◌≤◌, length};

#[derive(Clone, Copy)]
pub struct Environment {
    pub things: [usize; 4],
    pub count: usize,
    pub ghost long: { length things ≡ 4 },
    pub ghost few: { count ≤ 4 },
}

impl Environment {
    ghost use Rattle.std.specs.Prelude.{◌<◌};
    ghost use Rattle.evaluator.specs.Speaking.{Silent, Extended, ThingAt};

    // Nothing spoken of yet.
    pub fn silent() -> Environment
        ensures { Silent result }
    {
        Environment {
            things: [0; 4],
            count: 0,
        }
    }

    // One thing more spoken of.
    pub fn extended(self, thing: usize) -> Environment
        requires { self.count < 4 }
        ensures { Extended self thing result }
    {
        let [first, second, third, _] = self.things;
        Environment {
            things: [thing, first, second, third],
            count: self.count + 1,
        }
    }

    // The thing with a number, if it is spoken of.
    pub fn thing(&self, number: u8) -> Option<usize>
        ensures { ThingAt self.now number result }
    {
        self.things[..self.count].get(number as usize).copied()
    }
}
