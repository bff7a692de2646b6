// The first picture of a description: of the fewest things, and of those the first in the order of
// pictures, so that whoever asks gets the same one.
#![tactic(auto)]

ghost use Rattle.std.specs.Prelude.{◌≡◌, ◌≤◌, length};
ghost use Rattle.pictures.specs.Promise.{floor_of, refusal_code, FoundPost, CodePost};

use descriptions::{Shape, Size, outline_of};
use exhaustive::first_up_to;
use std::error::Error;
use std::fmt;

// Why a picture was not looked for: the bytes are no description, out has fewer bytes than a picture
// may have bits, or too few words are lent or too many things asked for.
#[derive(Clone, Copy, Debug, PartialEq, Eq)]
pub enum Refusal {
    NoDescription,
    OutFull,
    Few,
}

impl fmt::Display for Refusal {
    fn fmt<W: fmt::Write>(&self, f: &mut fmt::Formatter<W>) -> fmt::Result {
        f.write_str(match self {
            Refusal::NoDescription => "no description",
            Refusal::OutFull => "out full",
            Refusal::Few => "few",
        })
    }
}

impl Error for Refusal {}

// A refusal as a number.
impl From<Refusal> for u32 {
    ghost from_gives = { λ refusal c. c ≡ refusal_code refusal };

    fn from(refusal: Refusal) -> u32 {
        match refusal {
            Refusal::NoDescription => 0x101,
            Refusal::OutFull => 0x102,
            Refusal::Few => 0x103,
        }
    }
}

// There is no picture, as a number.
const NONE: u32 = 0x100;

// More things than these are not asked for.
pub const MOST_THINGS: u32 = 8;

// The work words that have to be lent for a description of so many bytes.
#[tactic(auto, using(crate::proofs::Floors::power_small, crate::proofs::Floors::work_small))]
pub fn floor(bytes: usize, most: usize, depth: usize) -> usize
    requires { (bytes ≤ 512) × ((most ≤ 8) × (depth ≤ 4)) }
    ensures { result ≡ floor_of bytes most depth }
{
    65536 + 64 * (bytes * (most + 1).pow(3 + depth as u32))
}

// Finds the first picture of the description of at most so many things, if there is one: writes its
// bits, one a byte, first into out, and gives the number of its things.
pub fn find(
    description: &[u8],
    most: u32,
    out: &mut [u8],
    work: &mut [u32],
) -> Result<Option<usize>, Refusal>
    ensures { FoundPost description.now most out.old out.new (length work.old) result }
{
    let outline = outline_of(description).ok_or(Refusal::NoDescription)?;
    if most > MOST_THINGS {
        return Err(Refusal::Few);
    }
    let things = most as usize;
    if work.len() < floor(description.len(), things, outline.depth as usize) {
        return Err(Refusal::Few);
    }
    let shape = Shape {
        relations: outline.relations as usize,
        size: Size { things },
    };
    if out.len() < shape.bits() {
        return Err(Refusal::OutFull);
    }
    let Some(picture) = first_up_to(description, shape) else {
        return Ok(None);
    };
    picture.unpack(out);
    Ok(Some(picture.shape.size.things))
}

// The answer as a number: the number of things of the first picture, or 0x100 where there is
// none, 0x101 no description, 0x102 out full, 0x103 few.
pub fn pictures_find(description: &[u8], most: u32, out: &mut [u8], work: &mut [u32]) -> u32
    ensures { CodePost description.now most out.old out.new (length work.old) result }
{
    match find(description, most, out, work) {
        Ok(Some(things)) => things as u32,
        Ok(None) => NONE,
        Err(refusal) => refusal.into(),
    }
}
