// Evaluation over bytes: an expression's relation as a word, a sentence's truth, each with where its
// writing ends. 'For every' evaluates its sentence once for each thing.
ghost use Rattle.evaluator.specs.Speaking.{Sees};
ghost use Rattle.evaluator.specs.Evaluating.{JudgedIf};

use crate::packing::Packed;
use crate::speaking::Environment;
use descriptions::{
    DEEPEST, ExpressionHead, Scope, SentenceHead, Written, byte, expression_head, sentence_extent,
    sentence_head,
};
use matrices::{combined, identity, nonempty, single, transformed, within};

// Reads a description's bytes as what they say of a picture, with some of its things spoken of.
#[derive(Clone, Copy)]
struct Reader<'a> {
    bytes: &'a [u8],
    picture: &'a Packed,
    spoken: Environment,
    ghost sees: { Sees picture.now.shape.size.things spoken },
}

impl<'a> Reader<'a> {
    ghost use Rattle.std.specs.Prelude.{◌<◌};
    ghost use Rattle.evaluator.specs.Evaluating.{ValueSays, ValuesSay, TruthSays, EverySaysIf};

    // The relation that an expression stands for.
    #[cycle(values)]
    fn expression(&self, at: usize) -> Option<Written<u64>>
        ensures { ValueSays self.now.picture.now self.now.spoken self.now.bytes.now at result }
    {
        let size = self.picture.shape.size;
        match expression_head(self.bytes, at)? {
            ExpressionHead::Named(number) => Some(Written {
                value: self.picture.relation(number)?,
                end: at + 2,
            }),
            ExpressionHead::Thing(number) => Some(Written {
                value: single(self.spoken.thing(number)?, size),
                end: at + 2,
            }),
            ExpressionHead::Identity => Some(Written {
                value: identity(size),
                end: at + 1,
            }),
            ExpressionHead::Empty => Some(Written {
                value: 0,
                end: at + 1,
            }),
            ExpressionHead::Unary(operator) => {
                let one = self.expression(at + 1)?;
                Some(Written {
                    value: transformed(operator, one.value, size),
                    end: one.end,
                })
            }
            ExpressionHead::Binary(operator) => {
                let both = self.pair(at + 1)?;
                let (one, other) = both.value;
                Some(Written {
                    value: combined(operator, one, other, size),
                    end: both.end,
                })
            }
        }
    }

    // The relations of two expressions, one after the other.
    #[cycle(values)]
    fn pair(&self, at: usize) -> Option<Written<(u64, u64)>>
        ensures { ValuesSay self.now.picture.now self.now.spoken self.now.bytes.now at result }
    {
        let one = self.expression(at)?;
        let other = self.expression(one.end)?;
        Some(Written {
            value: (one.value, other.value),
            end: other.end,
        })
    }

    // Whether a sentence holds.
    #[cycle(truths)]
    fn sentence(&self, at: usize) -> Option<Written<bool>>
        ensures { TruthSays self.now.picture.now self.now.spoken self.now.bytes.now at result }
    {
        let size = self.picture.shape.size;
        match sentence_head(self.bytes, at)? {
            SentenceHead::Within => {
                let both = self.pair(at + 1)?;
                let (one, other) = both.value;
                Some(Written {
                    value: within(one, other, size),
                    end: both.end,
                })
            }
            SentenceHead::Nonempty => {
                let relation = self.expression(at + 1)?;
                Some(Written {
                    value: nonempty(relation.value, size),
                    end: relation.end,
                })
            }
            SentenceHead::Not => {
                let inner = self.sentence(at + 1)?;
                Some(Written {
                    value: !inner.value,
                    end: inner.end,
                })
            }
            SentenceHead::Both => {
                let one = self.sentence(at + 1)?;
                let other = self.sentence(one.end)?;
                Some(Written {
                    value: one.value & other.value,
                    end: other.end,
                })
            }
            SentenceHead::ForEvery => {
                if self.spoken.count >= DEEPEST as usize {
                    return None;
                }
                let scope = Scope {
                    relations: self.picture.shape.relations as u8,
                    spoken: self.spoken.count as u8 + 1,
                };
                let body = sentence_extent(self.bytes, at + 1, scope)?;
                Some(Written {
                    value: self.for_every(at + 1)?,
                    end: body.end,
                })
            }
        }
    }

    // Whether the sentence that is written at a place holds of every thing.
    #[cycle(truths)]
    fn for_every(&self, at: usize) -> Option<bool>
        requires { self.now.spoken.count < 4 }
        ensures { EverySaysIf self.now.picture.now self.now.spoken self.now.bytes.now at result }
    {
        for thing in 0..self.picture.shape.size.things {
            let inner = Reader {
                bytes: self.bytes,
                picture: self.picture,
                spoken: self.spoken.extended(thing),
            };
            let truth = inner.sentence(at)?;
            if !truth.value {
                return Some(false);
            }
        }
        Some(true)
    }
}

// Whether the picture is of the description; None where the bytes are no description about as many
// relations.
pub fn is_of(description: &[u8], picture: &Packed) -> Option<bool>
    ensures { JudgedIf picture.now description.now result }
{
    if description.len() > 512 {
        return None;
    }
    let relations = byte(description, 0)?;
    if relations == 0 || relations as usize != picture.shape.relations {
        return None;
    }
    let reader = Reader {
        bytes: description,
        picture,
        spoken: Environment::silent(),
    };
    let truth = reader.sentence(1)?;
    (truth.end == description.len()).then_some(truth.value)
}
