// How large a picture is, and where its bits stand. Bits are counted by relation, then by the first
// thing, then by the second.
ghost use Rattle.std.specs.Prelude.{◌≤◌};

// How many things a picture has: eight at most.
#[derive(Clone, Copy)]
pub struct Size {
    pub things: usize,
    pub ghost few: { things ≤ 8 },
}

// How many relations and how many things a picture has: eight of each at most.
#[derive(Clone, Copy)]
pub struct Shape {
    pub relations: usize,
    pub size: Size,
    pub ghost few: { relations ≤ 8 },
}

// What has to be known of a description before pictures are looked for: how many relations it is
// about, and how deep 'for every' stands in it.
#[derive(Clone, Copy)]
pub struct Outline {
    pub relations: u8,
    pub depth: u8,
    pub ghost few: { relations ≤ 8 },
    pub ghost shallow: { depth ≤ 4 },
}

// A first and a second thing.
#[derive(Clone, Copy)]
pub struct Pair {
    pub first: usize,
    pub second: usize,
}

// Where a bit of a picture stands: in which relation, and at which pair's place.
#[derive(Clone, Copy)]
pub struct Spot {
    pub relation: usize,
    pub place: usize,
}

impl Size {
    ghost use Rattle.std.specs.Prelude.{◌≡◌, ◌+◌, ◌*◌, ◌<◌, MatchOption};
    ghost use Rattle.descriptions.specs.Shapes.{PairAt, SpotAt};

    pub const MOST: usize = 8;

    pub fn new(things: usize) -> Option<Size>
        ensures { MatchOption result (8 < things) (λ s. s.things ≡ things) }
    {
        if things <= Self::MOST {
            Some(Size { things })
        } else {
            None
        }
    }

    // How many pairs there are.
    pub fn pairs(self) -> usize
        ensures { (result ≡ self.things * self.things) × (result ≤ 64) }
    {
        self.things * self.things
    }

    // The pair at a place.
    pub fn pair_at(self, place: usize) -> Pair
        requires { place < self.things * self.things }
        ensures { PairAt place self.things result }
    {
        Pair {
            first: place / self.things,
            second: place % self.things,
        }
    }

    // The place of a pair.
    pub fn place_of(self, first: usize, second: usize) -> usize
        requires { (first < self.things) × (second < self.things) }
        ensures { (result ≡ first * self.things + second) × (result < self.things * self.things) }
    {
        first * self.things + second
    }

    // Where the bit at a place stands, in a picture of so many relations.
    pub fn spot_at(self, place: usize, relations: usize) -> Spot
        requires { place < relations * (self.things * self.things) }
        ensures { SpotAt relations place self.things result }
    {
        let pairs = self.pairs();
        Spot {
            relation: place / pairs,
            place: place % pairs,
        }
    }
}

impl Shape {
    ghost use Rattle.std.specs.Prelude.{◌≡◌, ◌*◌, ◌<◌, ◌⊎◌, MatchOption};
    ghost use Rattle.descriptions.specs.Shapes.{SpotAt};

    pub const MOST: usize = 8;

    pub fn new(relations: usize, things: usize) -> Option<Shape>
        ensures { MatchOption result ((8 < relations) ⊎ (8 < things)) (λ s. (s.relations ≡ relations) × (s.size.things ≡ things)) }
    {
        let size = Size::new(things)?;
        if relations <= Self::MOST {
            Some(Shape { relations, size })
        } else {
            None
        }
    }

    // How many bits a picture has.
    pub fn bits(self) -> usize
        ensures { (result ≡ self.relations * (self.size.things * self.size.things)) × (result ≤ 512) }
    {
        self.relations * self.size.pairs()
    }

    // Where the bit at a place stands.
    pub fn spot_at(self, place: usize) -> Spot
        requires { place < self.relations * (self.size.things * self.size.things) }
        ensures { SpotAt self.relations place self.size.things result }
    {
        self.size.spot_at(place, self.relations)
    }
}
