// Tables whose literals are inputs or constants, or stand in another table.
ghost use Rattle.std.specs.Prelude.{◌≡◌, ℕ, ◌+◌, ◌*◌, ◌/◌, ◌%◌, ◌<◌, ◌&&◌, ◌==◌, if◌then◌else◌, slice_index};
ghost use Rattle.tables.specs.Tables.{Are};

use descriptions::Size;
use gates::{ALWAYS, NEVER};

fn constant(truth: bool) -> u32
    ensures { result ≡ (if truth then 0 else 1) }
{
    if truth { ALWAYS } else { NEVER }
}

// A literal for each place.
fn table_of<F: Fn(usize) -> u32>(size: Size, literal: F) -> [u32; 64]
    requires { (k : ℕ) → k < size.things * size.things → F.pre literal k }
    ensures { (k : ℕ) → k < size.things * size.things → F.post literal k (slice_index result k) }
{
    let mut table = [NEVER; 64];
    for (place, entry) in table[..size.pairs()].iter_mut().enumerate() {
        *entry = literal(place);
    }
    table
}

// Inputs, one for each pair.
pub fn inputs(first: usize, size: Size) -> [u32; 64]
    requires { first < 65536 }
    ensures { Are size.things result (λ k. 2 * (first + k)) }
{
    table_of(size, |place| (2 * (first + place)) as u32)
}

// One thing, to itself.
pub fn single(thing: usize, size: Size) -> [u32; 64]
    ensures { Are size.things result (λ k. if k / size.things == thing && k % size.things == thing then 0 else 1) }
{
    table_of(size, |place| {
        let pair = size.pair_at(place);
        constant(pair.first == thing && pair.second == thing)
    })
}

// Each thing, to itself.
pub fn identity(size: Size) -> [u32; 64]
    ensures { Are size.things result (λ k. if k / size.things == k % size.things then 0 else 1) }
{
    table_of(size, |place| {
        let pair = size.pair_at(place);
        constant(pair.first == pair.second)
    })
}

// Nothing.
pub fn empty(size: Size) -> [u32; 64]
    ensures { Are size.things result (λ k. 1) }
{
    table_of(size, |_| NEVER)
}

// The literal of a pair of things.
pub fn literal_at(table: &[u32; 64], size: Size, first: usize, second: usize) -> u32
    requires { (first < size.things) × (second < size.things) }
    ensures { result ≡ slice_index table.now (first * size.things + second) }
{
    table[size.place_of(first, second)]
}

// A relation turned round: the literals change places.
pub fn converse(one: &[u32; 64], size: Size) -> [u32; 64]
    ensures { Are size.things result (λ k. slice_index one.now (k % size.things * size.things + k / size.things)) }
{
    table_of(size, |place| {
        let pair = size.pair_at(place);
        literal_at(one, size, pair.second, pair.first)
    })
}
