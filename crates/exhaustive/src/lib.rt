// The first picture of a description by trying all pictures in order. It is slow and plain: what
// any other engine answers is compared with it.
#![tactic(auto)]

ghost use Rattle.std.specs.Prelude.{◌≤◌};
ghost use Rattle.exhaustive.specs.Trying.{Blank, Advanced, Tells, FirstOf, FirstUpTo};

use descriptions::{Shape, Size};
use evaluator::{Packed, is_of};
use matrices::{flip, is_set};

// The picture in which no relation holds of anything: the first in order.
fn blank(shape: Shape) -> Packed
    ensures { Blank shape.relations shape.size.things result }
{
    Packed {
        words: [0; 8],
        shape,
    }
}

// The next picture in order, if there is one, by counting up: from the last bit on, ones become
// zeros until a zero becomes a one.
fn next_after(picture: &Packed) -> Option<Packed>
    ensures { Advanced picture.now result }
{
    let mut words = picture.words;
    // by place: a bit has a spot in the words
    for place in (0..picture.shape.bits()).rev() {
        let spot = picture.shape.spot_at(place);
        let word = words[spot.relation];
        words[spot.relation] = flip(word, spot.place);
        if !is_set(word, spot.place) {
            return Some(Packed {
                words,
                shape: picture.shape,
            });
        }
    }
    None
}

// Whether the picture is of the description.
fn tells(description: &[u8], picture: &Packed) -> bool
    ensures { Tells description.now picture.now result }
{
    is_of(description, picture).unwrap_or(false)
}

// The first picture of so many things, if there is one.
pub fn first_of_size(description: &[u8], shape: Shape) -> Option<Packed>
    ensures { FirstOf description.now shape.relations shape.size.things result }
{
    let mut candidate = blank(shape);
    loop {
        if tells(description, &candidate) {
            break Some(candidate);
        }
        candidate = next_after(&candidate)?;
    }
}

// The first picture of at most as many things as the shape has, from none on, if there is one.
pub fn first_up_to(description: &[u8], most: Shape) -> Option<Packed>
    ensures { FirstUpTo description.now most.relations most.size.things result }
{
    (0..most.size.things + 1).find_map(
        |things|
            requires { (things ≤ 8) × (most.relations ≤ 8) }
        {
            let shape = Shape {
                relations: most.relations,
                size: Size { things },
            };
            first_of_size(description, shape)
        },
    )
}
