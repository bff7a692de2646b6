// Boolean matrices: a relation between at most eight things in a 64-bit word, with what the
// operators of descriptions make of one or two of them.
// A word stands beside its size: two words share one, and so do the eight words of a picture.
#![tactic(auto)]

ghost use Rattle.std.specs.Prelude.{◌≡◌, ℕ, ◌<◌, not, ◌&&◌, ◌||◌, if◌then◌else◌, ◌==◌, nat_eq};
ghost use Rattle.descriptions.specs.Pictures.{any, every, compose};
ghost use Rattle.descriptions.specs.Meaning.{transform, combine};
ghost use Rattle.matrices.specs.Words.{bit, matrix, Shows};

use descriptions::{Binary, Size, Unary};

// Whether the bit at a place is 1.
// A place below 64 is what a shift asks for, here and in the two functions that follow.
pub fn is_set(word: u64, place: usize) -> bool
    requires { place < 64 }
    ensures { result ≡ bit word place }
{
    (word >> place) & 1 == 1
}

// The word with the bit at a place set where it is wanted.
pub fn put(word: u64, place: usize, wanted: bool) -> u64
    requires { place < 64 }
    ensures { (k : ℕ) → bit result k ≡ ((k == place && wanted) || bit word k) }
{
    if wanted { word | (1 << place) } else { word }
}

// The word with the bit at a place changed.
pub fn flip(word: u64, place: usize) -> u64
    requires { place < 64 }
    ensures { (k : ℕ) → bit result k ≡ (if nat_eq k place then not (bit word k) else bit word k) }
{
    word ^ (1 << place)
}

// Whether one thing stands to another.
pub fn has(word: u64, size: Size, first: usize, second: usize) -> bool
    requires { (first < size.things) × (second < size.things) }
    ensures { result ≡ matrix size.things word first second }
{
    is_set(word, size.place_of(first, second))
}

// The word with the bits of the pairs that are wanted.
fn word_of<F: Fn(usize, usize) -> bool>(size: Size, wanted: F) -> u64
    requires { (i j : ℕ) → i < size.things → j < size.things → F.pre wanted i j }
    ensures { (i j : ℕ) → i < size.things → j < size.things → F.post wanted i j (matrix size.things result i j) }
{
    let mut word = 0;
    // by place, since a word is made bit by bit
    for place in 0..size.pairs() {
        let pair = size.pair_at(place);
        word = put(word, place, wanted(pair.first, pair.second));
    }
    word
}

// Whether some thing is reached from the first by one relation and leads to the second by the other.
fn joins(one: u64, other: u64, size: Size, first: usize, second: usize) -> bool
    requires { (first < size.things) × (second < size.things) }
    ensures { result ≡ compose size.things (matrix size.things one) (matrix size.things other) first second }
{
    (0..size.things).any(|between| has(one, size, first, between)
        && has(other, size, between, second))
}

// Whether a thing stands to some thing.
fn leads(word: u64, size: Size, first: usize) -> bool
    requires { first < size.things }
    ensures { result ≡ any size.things (λ k. matrix size.things word first k) }
{
    (0..size.things).any(|second| has(word, size, first, second))
}

// Every thing, to itself.
pub fn identity(size: Size) -> u64
    ensures { Shows size.things result (λ i j. nat_eq i j) }
{
    word_of(size, |first, second| first == second)
}

// One thing, to itself.
pub fn single(thing: usize, size: Size) -> u64
    requires { thing < size.things }
    ensures { Shows size.things result (λ i j. (i == thing) && j == thing) }
{
    word_of(size, |first, second| first == thing && second == thing)
}

// One relation after the other.
fn composition(one: u64, other: u64, size: Size) -> u64
    ensures { Shows size.things result (compose size.things (matrix size.things one) (matrix size.things other)) }
{
    word_of(size, |first, second| joins(one, other, size, first, second))
}

// Turned round.
fn converse(one: u64, size: Size) -> u64
    ensures { Shows size.things result (transform Unary.Converse size.things (matrix size.things one)) }
{
    word_of(size, |first, second| has(one, size, second, first))
}

// What stands first in a pair, to itself.
fn domain(one: u64, size: Size) -> u64
    ensures { Shows size.things result (transform Unary.Domain size.things (matrix size.things one)) }
{
    word_of(
        size,
        |first, second| first == second && leads(one, size, first),
    )
}

// Once or more often: one step more, again and again, until nothing is new.
fn closure(one: u64, size: Size) -> u64
    ensures { Shows size.things result (transform Unary.Closure size.things (matrix size.things one)) }
{
    let mut word = one;
    'steps: for step in 0..size.things {
        let next = word_of(size, |first, second| {
            has(one, size, first, second) || joins(one, word, size, first, second)
        });
        if next == word {
            break 'steps;
        }
        word = next;
    }
    word
}

// What an operator makes of one relation.
pub fn transformed(operator: Unary, one: u64, size: Size) -> u64
    ensures { Shows size.things result (transform operator size.things (matrix size.things one)) }
{
    match operator {
        Unary::Converse => converse(one, size),
        Unary::Closure => closure(one, size),
        Unary::Domain => domain(one, size),
    }
}

// What an operator makes of two relations.
pub fn combined(operator: Binary, one: u64, other: u64, size: Size) -> u64
    ensures { Shows size.things result (combine operator size.things (matrix size.things one) (matrix size.things other)) }
{
    match operator {
        Binary::Union => one | other,
        Binary::Intersection => one & other,
        Binary::Difference => one & !other,
        Binary::Composition => composition(one, other, size),
    }
}

// Whether some pair stands in a relation.
pub fn nonempty(word: u64, size: Size) -> bool
    ensures { result ≡ any size.things (λ i. any size.things (λ j. matrix size.things word i j)) }
{
    (0..size.things).any(|first| leads(word, size, first))
}

// Whether one relation is within the other.
pub fn within(one: u64, other: u64, size: Size) -> bool
    ensures { result ≡ every size.things (λ i. every size.things (λ j. not (matrix size.things one i j) || matrix size.things other i j)) }
{
    !nonempty(combined(Binary::Difference, one, other, size), size)
}
