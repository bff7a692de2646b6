// Encoding over bytes: an expression's relation as a table of literals, a sentence's truth as a
// literal, each with where its writing ends. 'For every' encodes its sentence once for each thing;
// what does not speak of the thing comes to the same gates, which are shared.
// Each function asks for inputs enough and says that it adds only gates: a circuit is lent, and grows.
ghost use Rattle.std.specs.Prelude.{◌+◌, ◌≤◌};
ghost use Rattle.evaluator.specs.Speaking.{Sees};
ghost use Rattle.gates.specs.Circuits.{GrewC};
ghost use Rattle.encoder.specs.Encoding.{bits_of, Encoded};

use clauses::negated;
use descriptions::{
    DEEPEST, ExpressionHead, Scope, SentenceHead, Shape, Written, expression_head, sentence_extent,
    sentence_head,
};
use evaluator::Environment;
use gates::{ALWAYS, Circuit, NEVER};
use tables::{apart, combined, empty, identity, inputs, single, transformed};

// Reads a description's bytes as gates for pictures of a shape, with some of their things spoken of.
// Arm for arm like the evaluator's Reader, but no generic of it: it changes a circuit, may want for words, and counts.
#[derive(Clone, Copy)]
struct Encoder<'a> {
    bytes: &'a [u8],
    shape: Shape,
    spoken: Environment,
    ghost sees: { Sees shape.size.things spoken },
}

impl<'a> Encoder<'a> {
    ghost use Rattle.std.specs.Prelude.{◌<◌};
    ghost use Rattle.encoder.specs.Encoding.{FirstAt, TableSays, TablesSay, TruthSays, EverySaysIf};

    // The variable of a relation's first pair, if there is the relation.
    fn first_input(&self, number: u8) -> Option<usize>
        ensures { FirstAt self.now.shape.relations self.now.shape.size.things number result }
    {
        let relation = number as usize;
        (relation < self.shape.relations).then_some(1 + relation * self.shape.size.pairs())
    }

    // The table of an expression's relation.
    #[cycle(tables)]
    fn expression(&self, circuit: &mut Circuit, at: usize) -> Option<Written<[u32; 64]>>
        requires { 1 + bits_of self.now.shape.relations self.now.shape.size.things ≤ circuit.old.base }
        ensures grew { GrewC circuit.old circuit.new }
        ensures says { TableSays self.now.shape self.now.spoken self.now.bytes.now at circuit.old circuit.new result }
    {
        let size = self.shape.size;
        match expression_head(self.bytes, at)? {
            ExpressionHead::Named(number) => Some(Written {
                value: inputs(self.first_input(number)?, size),
                end: at + 2,
            }),
            ExpressionHead::Thing(number) => Some(Written {
                value: single(self.spoken.thing(number)?, size),
                end: at + 2,
            }),
            ExpressionHead::Identity => Some(Written {
                value: identity(size),
                end: at + 1,
            }),
            ExpressionHead::Empty => Some(Written {
                value: empty(size),
                end: at + 1,
            }),
            ExpressionHead::Unary(operator) => {
                let one = self.expression(circuit, at + 1)?;
                Some(Written {
                    value: transformed(circuit, operator, &one.value, size)?,
                    end: one.end,
                })
            }
            ExpressionHead::Binary(operator) => {
                let both = self.pair(circuit, at + 1)?;
                let (one, other) = both.value;
                Some(Written {
                    value: combined(circuit, operator, &one, &other, size)?,
                    end: both.end,
                })
            }
        }
    }

    // The tables of two expressions, one after the other.
    #[cycle(tables)]
    fn pair(&self, circuit: &mut Circuit, at: usize) -> Option<Written<([u32; 64], [u32; 64])>>
        requires { 1 + bits_of self.now.shape.relations self.now.shape.size.things ≤ circuit.old.base }
        ensures grew { GrewC circuit.old circuit.new }
        ensures says { TablesSay self.now.shape self.now.spoken self.now.bytes.now at circuit.old circuit.new result }
    {
        let one = self.expression(circuit, at)?;
        let other = self.expression(circuit, one.end)?;
        // An array that a field holds goes into a tuple by way of a variable.
        let first = one.value;
        let second = other.value;
        Some(Written {
            value: (first, second),
            end: other.end,
        })
    }

    // The literal of a sentence's truth.
    #[cycle(literals)]
    fn sentence(&self, circuit: &mut Circuit, at: usize) -> Option<Written<u32>>
        requires { 1 + bits_of self.now.shape.relations self.now.shape.size.things ≤ circuit.old.base }
        ensures grew { GrewC circuit.old circuit.new }
        ensures says { TruthSays self.now.shape self.now.spoken self.now.bytes.now at circuit.old circuit.new result }
    {
        let size = self.shape.size;
        match sentence_head(self.bytes, at)? {
            SentenceHead::Within => {
                let both = self.pair(circuit, at + 1)?;
                let (one, other) = both.value;
                let outside = apart(circuit, &one, &other, size)?;
                Some(Written {
                    value: negated(outside),
                    end: both.end,
                })
            }
            SentenceHead::Nonempty => {
                let relation = self.expression(circuit, at + 1)?;
                Some(Written {
                    value: apart(circuit, &relation.value, &empty(size), size)?,
                    end: relation.end,
                })
            }
            SentenceHead::Not => {
                let inner = self.sentence(circuit, at + 1)?;
                Some(Written {
                    value: negated(inner.value),
                    end: inner.end,
                })
            }
            SentenceHead::Both => {
                let one = self.sentence(circuit, at + 1)?;
                let other = self.sentence(circuit, one.end)?;
                Some(Written {
                    value: circuit.gate(NEVER, one.value, other.value)?,
                    end: other.end,
                })
            }
            SentenceHead::ForEvery => {
                if self.spoken.count >= DEEPEST as usize {
                    return None;
                }
                let scope = Scope {
                    relations: self.shape.relations as u8,
                    spoken: self.spoken.count as u8 + 1,
                };
                let body = sentence_extent(self.bytes, at + 1, scope)?;
                Some(Written {
                    value: self.for_every(circuit, at + 1)?,
                    end: body.end,
                })
            }
        }
    }

    // The literal of 'the sentence that is written at a place holds of every thing'.
    #[cycle(literals)]
    fn for_every(&self, circuit: &mut Circuit, at: usize) -> Option<u32>
        requires inputs { 1 + bits_of self.now.shape.relations self.now.shape.size.things ≤ circuit.old.base }
        requires room { self.now.spoken.count < 4 }
        ensures grew { GrewC circuit.old circuit.new }
        ensures says { EverySaysIf self.now.shape self.now.spoken self.now.bytes.now at circuit.old circuit.new result }
    {
        let mut all = ALWAYS;
        for thing in 0..self.shape.size.things {
            let inner = Encoder {
                bytes: self.bytes,
                shape: self.shape,
                spoken: self.spoken.extended(thing),
            };
            let truth = inner.sentence(circuit, at)?;
            all = circuit.gate(NEVER, truth.value, all)?;
        }
        Some(all)
    }
}

// The literal of a description about so many relations, for pictures of so many things; None where the
// words are too few. Of bytes that are no such description nothing is said.
pub fn encode(circuit: &mut Circuit, description: &[u8], shape: Shape) -> Option<u32>
    requires { 1 + bits_of shape.relations shape.size.things ≤ circuit.old.base }
    ensures grew { GrewC circuit.old circuit.new }
    ensures says { Encoded shape description.now circuit.old circuit.new result }
{
    let encoder = Encoder {
        bytes: description,
        shape,
        spoken: Environment::silent(),
    };
    let truth = encoder.sentence(circuit, 1)?;
    Some(truth.value)
}
