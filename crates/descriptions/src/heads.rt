// A head is what the writing of an expression or a sentence begins with: one byte, and for a
// relation's or a thing's number one more.
ghost use Rattle.descriptions.specs.Heads.{ByteAt, HeadE, HeadS, SentenceCode};

use crate::{Binary, Unary};

#[derive(Clone, Copy)]
pub enum ExpressionHead {
    Named(u8),
    Thing(u8),
    Identity,
    Empty,
    Unary(Unary),
    Binary(Binary),
}

#[derive(Clone, Copy)]
pub enum SentenceHead {
    Within,
    Nonempty,
    Not,
    Both,
    ForEvery,
}

// A byte that no sentence begins with.
#[derive(Clone, Copy)]
pub struct NoSentence;

impl TryFrom<u8> for SentenceHead {
    type Error = NoSentence;

    ghost try_from_gives = { SentenceCode };

    fn try_from(code: u8) -> Result<SentenceHead, NoSentence> {
        match code {
            20 => Ok(SentenceHead::Within),
            21 => Ok(SentenceHead::Nonempty),
            22 => Ok(SentenceHead::Not),
            23 => Ok(SentenceHead::Both),
            24 => Ok(SentenceHead::ForEvery),
            _ => Err(NoSentence),
        }
    }
}

// The byte at a place, if there is one.
pub fn byte(bytes: &[u8], at: usize) -> Option<u8>
    ensures { ByteAt bytes.now at result }
{
    bytes.get(at).copied()
}

// The head of the expression that is written at a place.
pub fn expression_head(bytes: &[u8], at: usize) -> Option<ExpressionHead>
    ensures { HeadE bytes.now at result }
{
    // Operators have no TryFrom of their own: all codes stand in one table, and two of them read a number.
    match byte(bytes, at)? {
        0 => byte(bytes, at + 1).map(ExpressionHead::Named),
        1 => byte(bytes, at + 1).map(ExpressionHead::Thing),
        2 => Some(ExpressionHead::Identity),
        3 => Some(ExpressionHead::Empty),
        4 => Some(ExpressionHead::Binary(Binary::Union)),
        5 => Some(ExpressionHead::Binary(Binary::Intersection)),
        6 => Some(ExpressionHead::Binary(Binary::Difference)),
        7 => Some(ExpressionHead::Binary(Binary::Composition)),
        8 => Some(ExpressionHead::Unary(Unary::Converse)),
        9 => Some(ExpressionHead::Unary(Unary::Closure)),
        10 => Some(ExpressionHead::Unary(Unary::Domain)),
        _ => None,
    }
}

// The head of the sentence that is written at a place.
pub fn sentence_head(bytes: &[u8], at: usize) -> Option<SentenceHead>
    ensures { HeadS bytes.now at result }
{
    SentenceHead::try_from(byte(bytes, at)?).ok()
}
