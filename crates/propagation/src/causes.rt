// Why a variable has its value: the clause that implied it, if one did; at which level, and where on the
// trail. They only steer, and each step that uses one sees what it needs. A reason stands in a word that
// is lent as the clause's number plus one, and 0 for none.
ghost use Rattle.std.specs.Prelude.{◌≡◌, ◌+◌, ◌<◌, length, slice_index};
ghost use Rattle.std.specs.Option.{ForSome};
ghost use Rattle.propagation.specs.Looking.{reason_word, NotedCause};

use std::marker::Model;

#[derive(Drop)]
pub struct Causes<'a> {
    reasons: &'a mut [u32],
    levels: &'a mut [u32],
    places: &'a mut [u32],
}

impl<'a> Model for Causes<'a> {
    ghost use Rattle.propagation.specs.Views.{CausesView};

    ghost Value = { CausesView };

    ghost use Rattle.propagation.specs.Keeping.{causes_view, Alike};

    ghost view = { causes_view };

    ghost invariant = { Alike };
}

impl<'a> Causes<'a> {
    // For as many variables as there are reasons.
    pub fn new(reasons: &'a mut [u32], levels: &'a mut [u32], places: &'a mut [u32]) -> Causes<'a>
        requires levels { length levels.old ≡ length reasons.old }
        requires places { length places.old ≡ length reasons.old }
        ensures { length result.reasons ≡ length reasons.old }
    {
        Causes {
            reasons,
            levels,
            places,
        }
    }
}

impl Causes<'_> {
    // The number of the clause that implied a variable's value, if one did.
    pub fn reason(&self, variable: u32) -> Option<u32>
        requires { variable < length self.now.reasons }
        ensures { slice_index self.now.reasons variable ≡ reason_word result }
    {
        prove!((variable as usize) < self.reasons.len());
        self.reasons[variable as usize].checked_sub(1)
    }

    pub fn level(&self, variable: u32) -> u32
        requires { variable < length self.now.reasons }
        ensures { result ≡ slice_index self.now.levels variable }
    {
        prove!((variable as usize) < self.levels.len());
        self.levels[variable as usize]
    }

    pub fn place(&self, variable: u32) -> u32
        requires { variable < length self.now.reasons }
        ensures { result ≡ slice_index self.now.places variable }
    {
        prove!((variable as usize) < self.places.len());
        self.places[variable as usize]
    }

    pub fn note(&mut self, variable: usize, reason: Option<u32>, level: u32, place: u32)
        requires variable { variable < length self.old.reasons }
        requires small { ForSome reason (λ clause. clause < 4294967295) }
        ensures noted { NotedCause self.old self.new variable (reason_word reason) level place }
        ensures size { length self.new.reasons ≡ length self.old.reasons }
    {
        prove!(variable < self.reasons.len());
        self.reasons[variable] = reason.map_or(0, |clause| clause + 1);
        self.levels[variable] = level;
        self.places[variable] = place;
    }
}
