// Draws the first picture of at most three things of each description on standard input: a line of
// decimal bytes each. Lines that begin with '#' say in words what is meant, and are written out.
#![tactic(auto)]

ghost use Rattle.std.specs.Prelude.{◌≡◌, ◌<◌, ◌≤◌};
ghost use Rattle.draw.specs.Cells.{marked};

use descriptions::outline_of;
use pictures::{Refusal, find};
use std::alloc::{AllocError, Global};
use std::io;

const MOST: u32 = 3;
// With the picture's bytes and a line of input, all buffers stay below 4 MiB.
const WORK_WORDS: usize = 1_046_000;

// The bytes that a line says; None where a word of it is no byte.
fn bytes_of(heap: Global, line: &str) -> Result<Option<Vec<u8>>, AllocError> {
    let mut bytes = Vec::new(heap);
    for word in line.split_whitespace() {
        let Ok(byte) = word.parse::<u8>() else {
            return Ok(None);
        };
        bytes.push(byte)?;
    }
    Ok(Some(bytes))
}

// Whether a picture's relation holds of a first and a second thing.
fn is_marked(bits: &[u8], things: usize, relation: usize, first: usize, second: usize) -> bool
    requires { (things ≤ 3) × ((relation < 8) × ((first < things) × (second < things))) }
    ensures { result ≡ marked bits.now things relation first second }
{
    let place = (relation * things + first) * things + second;
    bits.get(place) == Some(&1)
}

// One relation as a table: first things down, second things across.
fn draw_table(rt: &HostRuntime, bits: &[u8], things: usize, relation: usize) -> io::Result<()>
    requires { (things ≤ 3) × (relation < 8) }
{
    print!(rt; "  relation {relation}\n     ")?;
    for second in 0..things {
        print!(rt; " {second}")?;
    }
    print!(rt; "\n")?;
    for first in 0..things {
        print!(rt; "    {first}")?;
        for second in 0..things {
            if is_marked(bits, things, relation, first, second) {
                print!(rt; " x")?;
            } else {
                print!(rt; " .")?;
            }
        }
        print!(rt; "\n")?;
    }
    Ok(())
}

// What there is to say to a refusal.
fn hint(refusal: Refusal) -> &'static str {
    match refusal {
        Refusal::NoDescription =>
            ": a line has the number of relations, then a sentence in prefix order",
        Refusal::OutFull => "",
        Refusal::Few => ": the description wants more than 4 MiB of work memory for three things",
    }
}

// Finds and draws, relation by relation.
fn answer(rt: &HostRuntime, description: &[u8], work: &mut [u32]) -> io::Result<()> {
    let mut out = [0; 72];
    let found = match find(description, MOST, &mut out, work) {
        Ok(found) => found,
        Err(refusal) => {
            let hint = hint(refusal);
            return println!(rt; "{refusal}{hint}");
        }
    };
    let Some(things) = found else {
        return println!(rt; "none of up to three things");
    };
    println!(rt; "first picture: {things} things")?;
    let relations = outline_of(description).map_or(0, |outline| outline.relations);
    for relation in 0..relations as usize {
        draw_table(rt, &out, things, relation)?;
    }
    Ok(())
}

fn main(rt: HostRuntime) -> io::Result<()> {
    let heap = rt.alloc();
    let mut work = vec![in heap; 0; WORK_WORDS]?;
    for line in rt.lines(heap) {
        let line = line?;
        let text = line.as_str();
        println!(rt; "{text}")?;
        if text.is_empty() || text.starts_with('#') {
            continue;
        }
        match bytes_of(heap, text)? {
            Some(bytes) => answer(&rt, bytes.as_slice(), work.as_mut_slice())?,
            None => println!(rt; "not read: a line has decimal bytes with blanks between them")?,
        }
    }
    Ok(())
}
