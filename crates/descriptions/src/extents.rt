// Where an expression or a sentence ends, if a well-formed one is written at a place. Nothing is
// built: the functions call one another over positions in the bytes, and what is left to read falls.
ghost use Rattle.descriptions.specs.Reading.{ExtentE, ExtentsE, ExtentS};

use crate::heads::{ExpressionHead, SentenceHead, expression_head, sentence_head};

// 'For every' may stand so deep.
pub const DEEPEST: u8 = 4;

// What numbers may name: so many relations, and so many things spoken of.
#[derive(Clone, Copy)]
pub struct Scope {
    pub relations: u8,
    pub spoken: u8,
}

// What is written at a place: what it stands for, and where its writing ends.
#[derive(Clone, Copy)]
pub struct Written<T> {
    pub value: T,
    pub end: usize,
}

// How deep 'for every' stands in an expression: there is none.
#[cycle(expressions)]
pub fn expression_extent(bytes: &[u8], at: usize, scope: Scope) -> Option<Written<u8>>
    ensures { ExtentE scope bytes.now at result }
{
    match expression_head(bytes, at)? {
        ExpressionHead::Named(relation) => {
            (relation < scope.relations).then_some(Written {
                value: 0,
                end: at + 2,
            })
        }
        ExpressionHead::Thing(thing) => {
            (thing < scope.spoken).then_some(Written {
                value: 0,
                end: at + 2,
            })
        }
        ExpressionHead::Identity | ExpressionHead::Empty => Some(Written {
            value: 0,
            end: at + 1,
        }),
        ExpressionHead::Unary(_) => expression_extent(bytes, at + 1, scope),
        ExpressionHead::Binary(_) => expressions_extent(bytes, at + 1, scope),
    }
}

// Two expressions, one after the other.
#[cycle(expressions)]
fn expressions_extent(bytes: &[u8], at: usize, scope: Scope) -> Option<Written<u8>>
    ensures { ExtentsE scope bytes.now at result }
{
    let one = expression_extent(bytes, at, scope)?;
    expression_extent(bytes, one.end, scope)
}

// How deep 'for every' stands in a sentence.
pub fn sentence_extent(bytes: &[u8], at: usize, scope: Scope) -> Option<Written<u8>>
    ensures { ExtentS scope bytes.now at result }
{
    match sentence_head(bytes, at)? {
        SentenceHead::Within => expressions_extent(bytes, at + 1, scope),
        SentenceHead::Nonempty => expression_extent(bytes, at + 1, scope),
        SentenceHead::Not => sentence_extent(bytes, at + 1, scope),
        SentenceHead::Both => {
            let one = sentence_extent(bytes, at + 1, scope)?;
            let other = sentence_extent(bytes, one.end, scope)?;
            Some(Written {
                value: one.value.max(other.value),
                end: other.end,
            })
        }
        SentenceHead::ForEvery => {
            if scope.spoken >= DEEPEST {
                return None;
            }
            let inner = Scope {
                spoken: scope.spoken + 1,
                ..scope
            };
            let body = sentence_extent(bytes, at + 1, inner)?;
            Some(Written {
                value: body.value + 1,
                end: body.end,
            })
        }
    }
}
