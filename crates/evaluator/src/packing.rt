// A picture packed into words: for each relation a word with a bit for each pair.
// Eight words stand there whatever the shape uses: no heap is asked for.
ghost use Rattle.std.specs.Prelude.{◌≡◌, length};

use descriptions::Shape;
use matrices::{is_set, put};

#[derive(Clone, Copy)]
pub struct Packed {
    pub words: [u64; 8],
    pub shape: Shape,
    pub ghost long: { length words ≡ 8 },
}

impl Packed {
    ghost use Rattle.std.specs.Prelude.{◌≤◌};
    ghost use Rattle.evaluator.specs.Packing.{size, RelationAt, Unpacks, PackSays};

    // Reads a picture from its bits, one a byte; None where they are not that.
    pub fn pack(bits: &[u8], relations: usize, things: usize) -> Option<Packed>
        ensures { PackSays relations things bits.now result }
    {
        let shape = Shape::new(relations, things)?;
        if bits.len() != shape.bits() {
            return None;
        }
        let mut words = [0; 8];
        for (place, bit) in bits.iter().enumerate() {
            if *bit > 1 {
                return None;
            }
            let spot = shape.spot_at(place);
            words[spot.relation] = put(words[spot.relation], spot.place, *bit == 1);
        }
        Some(Packed { words, shape })
    }

    // Writes the picture's bits, one a byte, first into out, and leaves the rest as it was.
    pub fn unpack(&self, out: &mut [u8])
        requires { size self.now ≤ length out.old }
        ensures { Unpacks self.now out.old out.new }
    {
        for (place, bit) in out[..self.shape.bits()].iter_mut().enumerate() {
            let spot = self.shape.spot_at(place);
            *bit = is_set(self.words[spot.relation], spot.place) as u8;
        }
    }

    // The word of the relation with a number, if there is one.
    pub fn relation(&self, number: u8) -> Option<u64>
        ensures { RelationAt self.now number result }
    {
        self.words[..self.shape.relations]
            .get(number as usize)
            .copied()
    }
}
