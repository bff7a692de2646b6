// What the operators make of tables: a gate, or a chain of gates, for each pair. 'Once or more often' goes by Floyd and
// Warshall's loops: by way of one thing after the other, each pair once for each of them.
// Which literals a table may have hangs on a circuit that grows: so functions ask for it, and not a type of tables.
// That a pair is of the size's things is asked, too: a pair that says it would bring along a size of its own.
ghost use Rattle.std.specs.Prelude.{ℕ, ◌*◌, ◌<◌, not, ◌&&◌, ◌||◌, ◌==◌};
ghost use Rattle.descriptions.specs.Pictures.{Relation, any, compose, reach};
ghost use Rattle.descriptions.specs.Meaning.{transform, combine};
ghost use Rattle.clauses.specs.Formulas.{Assignment};
ghost use Rattle.gates.specs.Circuits.{GrewC, AddsC, GivesC, Came};
ghost use Rattle.tables.specs.Tables.{shown, FilledC, ShowsC, binary_cost, combine_cost, transform_cost};
ghost use Rattle.tables.specs.Pairs.{Callable, Grows, Makes};

use crate::chains::some_both;
use crate::plain::{converse, literal_at};
use clauses::negated;
use descriptions::{Binary, Pair, Size, Unary};
use gates::{ALWAYS, Circuit, NEVER};

// A table, pair by pair, of what each call makes of its pair.
fn all_pairs<F: Fn(&mut Circuit, Pair) -> Option<u32>>(
    circuit: &mut Circuit,
    size: Size,
    literal: F,
) -> Option<[u32; 64]>
    requires callable { Callable circuit.old size.things (F.pre literal) }
    requires grows { Grows circuit.old size.things (F.post literal) }
    ensures grew { GrewC circuit.old circuit.new }
    ensures made { (cost : ℕ) (value : Assignment → Relation) → Makes circuit.old size.things (F.post literal) cost value → AddsC circuit.old circuit.new (size.things * size.things * cost) × Came circuit.new result (λ t. ShowsC circuit.new size.things t value) }
{
    let mut table = [NEVER; 64];
    for (place, entry) in table[..size.pairs()].iter_mut().enumerate() {
        *entry = literal(circuit, size.pair_at(place))?;
    }
    Some(table)
}

// Some thing is reached from the first by one relation, and leads to the second by the other.
fn joins(
    circuit: &mut Circuit,
    one: &[u32; 64],
    other: &[u32; 64],
    size: Size,
    pair: Pair,
) -> Option<u32>
    requires one { FilledC circuit.old size.things one.now }
    requires other { FilledC circuit.old size.things other.now }
    requires inside { (pair.first < size.things) × (pair.second < size.things) }
    ensures adds { AddsC circuit.old circuit.new size.things }
    ensures came { Came circuit.new result (λ l. GivesC circuit.new l (λ α. compose size.things (shown α size.things one.now) (shown α size.things other.now) pair.first pair.second)) }
{
    some_both(circuit, size.things, |between| {
        (
            literal_at(one, size, pair.first, between),
            literal_at(other, size, between, pair.second),
        )
    })
}

// A thing stands first in some pair, to itself.
fn leads(circuit: &mut Circuit, one: &[u32; 64], size: Size, pair: Pair) -> Option<u32>
    requires one { FilledC circuit.old size.things one.now }
    requires inside { (pair.first < size.things) × (pair.second < size.things) }
    ensures adds { AddsC circuit.old circuit.new size.things }
    ensures came { Came circuit.new result (λ l. GivesC circuit.new l (λ α. pair.first == pair.second && any size.things (λ k. shown α size.things one.now pair.first k))) }
{
    if pair.first != pair.second {
        return Some(NEVER);
    }
    some_both(circuit, size.things, |second| {
        (ALWAYS, literal_at(one, size, pair.first, second))
    })
}

// One pair of what an operator makes of two relations.
fn operator_pair(
    circuit: &mut Circuit,
    operator: Binary,
    one: &[u32; 64],
    other: &[u32; 64],
    size: Size,
    pair: Pair,
) -> Option<u32>
    requires one { FilledC circuit.old size.things one.now }
    requires other { FilledC circuit.old size.things other.now }
    requires inside { (pair.first < size.things) × (pair.second < size.things) }
    ensures adds { AddsC circuit.old circuit.new (binary_cost operator size.things) }
    ensures came { Came circuit.new result (λ l. GivesC circuit.new l (λ α. combine operator size.things (shown α size.things one.now) (shown α size.things other.now) pair.first pair.second)) }
{
    let here = literal_at(one, size, pair.first, pair.second);
    let there = literal_at(other, size, pair.first, pair.second);
    match operator {
        Binary::Union => circuit.gate(here, ALWAYS, there),
        Binary::Intersection => circuit.gate(NEVER, here, there),
        Binary::Difference => circuit.gate(NEVER, here, negated(there)),
        Binary::Composition => joins(circuit, one, other, size, pair),
    }
}

// A pair stands in a relation, or goes by way of a thing.
fn through_pair(
    circuit: &mut Circuit,
    one: &[u32; 64],
    size: Size,
    thing: usize,
    pair: Pair,
) -> Option<u32>
    requires one { FilledC circuit.old size.things one.now }
    requires thing { thing < size.things }
    requires inside { (pair.first < size.things) × (pair.second < size.things) }
    ensures adds { AddsC circuit.old circuit.new 1 }
    ensures came { Came circuit.new result (λ l. GivesC circuit.new l (λ α. shown α size.things one.now pair.first pair.second || (shown α size.things one.now pair.first thing && shown α size.things one.now thing pair.second))) }
{
    circuit.gate(
        literal_at(one, size, pair.first, pair.second),
        literal_at(one, size, pair.first, thing),
        literal_at(one, size, thing, pair.second),
    )
}

// By way of a thing, too: all pairs.
fn through(circuit: &mut Circuit, one: &[u32; 64], size: Size, thing: usize) -> Option<[u32; 64]>
    requires one { FilledC circuit.old size.things one.now }
    requires thing { thing < size.things }
    ensures adds { AddsC circuit.old circuit.new (size.things * size.things * 1) }
    ensures came { Came circuit.new result (λ t. ShowsC circuit.new size.things t (λ α i j. shown α size.things one.now i j || (shown α size.things one.now i thing && shown α size.things one.now thing j))) }
{
    all_pairs(circuit, size, |circuit, pair| {
        through_pair(circuit, one, size, thing, pair)
    })
}

fn closure(circuit: &mut Circuit, one: &[u32; 64], size: Size) -> Option<[u32; 64]>
    requires one { FilledC circuit.old size.things one.now }
    ensures adds { AddsC circuit.old circuit.new (size.things * (size.things * size.things)) }
    ensures came { Came circuit.new result (λ t. ShowsC circuit.new size.things t (λ α. reach size.things size.things (shown α size.things one.now))) }
{
    let mut table = *one;
    for thing in 0..size.things {
        table = through(circuit, &table, size, thing)?;
    }
    Some(table)
}

// What an operator makes of one relation.
pub fn transformed(
    circuit: &mut Circuit,
    operator: Unary,
    one: &[u32; 64],
    size: Size,
) -> Option<[u32; 64]>
    requires one { FilledC circuit.old size.things one.now }
    ensures adds { AddsC circuit.old circuit.new (transform_cost operator size.things) }
    ensures came { Came circuit.new result (λ t. ShowsC circuit.new size.things t (λ α. transform operator size.things (shown α size.things one.now))) }
{
    match operator {
        Unary::Converse => Some(converse(one, size)),
        Unary::Closure => closure(circuit, one, size),
        Unary::Domain => all_pairs(
            circuit,
            size,
            |circuit, pair| leads(circuit, one, size, pair),
        ),
    }
}

// What an operator makes of two relations.
pub fn combined(
    circuit: &mut Circuit,
    operator: Binary,
    one: &[u32; 64],
    other: &[u32; 64],
    size: Size,
) -> Option<[u32; 64]>
    requires one { FilledC circuit.old size.things one.now }
    requires other { FilledC circuit.old size.things other.now }
    ensures adds { AddsC circuit.old circuit.new (combine_cost operator size.things) }
    ensures came { Came circuit.new result (λ t. ShowsC circuit.new size.things t (λ α. combine operator size.things (shown α size.things one.now) (shown α size.things other.now))) }
{
    all_pairs(circuit, size, |circuit, pair| {
        operator_pair(circuit, operator, one, other, size, pair)
    })
}

// Some pair stands in the one relation and not in the other.
pub fn apart(circuit: &mut Circuit, one: &[u32; 64], other: &[u32; 64], size: Size) -> Option<u32>
    requires one { FilledC circuit.old size.things one.now }
    requires other { FilledC circuit.old size.things other.now }
    ensures adds { AddsC circuit.old circuit.new (size.things * size.things) }
    ensures came { Came circuit.new result (λ l. GivesC circuit.new l (λ α. any size.things (λ i. any size.things (λ j. shown α size.things one.now i j && not (shown α size.things other.now i j))))) }
{
    some_both(circuit, size.pairs(), |place| {
        (one[place], negated(other[place]))
    })
}
