// Two things that change places, and which bit of a picture comes where.
ghost use Rattle.std.specs.Prelude.{◌<◌};

use descriptions::Shape;

#[derive(Clone, Copy)]
pub struct Transposition {
    pub one: usize,
    pub other: usize,
    pub ghost apart: { one < other },
}

impl Transposition {
    ghost use Rattle.std.specs.Prelude.{◌≡◌, ℕ, ◌*◌, ◌<◌};
    ghost use Rattle.firsts.specs.Leaders.{source, swap};

    // What a thing changes places with.
    #[tactic(auto, unfolding(firsts::specs::Leaders::swap))]
    fn of(self, thing: usize) -> usize
        ensures is { result ≡ swap self.one self.other thing }
        ensures below { (m : ℕ) → self.other < m → thing < m → result < m }
    {
        if thing == self.one {
            self.other
        } else if thing == self.other {
            self.one
        } else {
            thing
        }
    }

    // The place whose bit comes to a place.
    pub(crate) fn source_of(self, place: usize, shape: Shape) -> usize
        requires low { place < shape.relations * (shape.size.things * shape.size.things) }
        requires inside { self.other < shape.size.things }
        ensures { result ≡ source shape.size.things (swap self.one self.other) place }
    {
        let spot = shape.spot_at(place);
        let pair = shape.size.pair_at(spot.place);
        let first = self.of(pair.first);
        let second = self.of(pair.second);
        spot.relation * shape.size.pairs() + shape.size.place_of(first, second)
    }
}
