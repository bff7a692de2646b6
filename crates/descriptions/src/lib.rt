// Descriptions of pictures: what they mean stands in specs/, how their bytes are read stands here.
#![tactic(auto)]

ghost use Rattle.descriptions.specs.Theorems.{StrictOrder, OneDescription};
ghost use Rattle.descriptions.specs.Examples.{WorkedExamples};

// How large pictures are, and where their bits stand.
mod shapes;
// The first bytes of an expression or a sentence, as enums.
mod heads;
// Where expressions and sentences end, in one recursion over positions.
mod extents;
// Bytes as a whole description.
mod whole;

pub use extents::{DEEPEST, Scope, Written, expression_extent, sentence_extent};
pub use heads::{ExpressionHead, SentenceHead, byte, expression_head, sentence_head};
pub use shapes::{Outline, Pair, Shape, Size, Spot};
pub use whole::outline_of;

// Operators that make a relation of one: turned round; once or more often; what stands first in a pair.
#[derive(Clone, Copy)]
pub enum Unary {
    Converse,
    Closure,
    Domain,
}

// Operators that make a relation of two: or; and; but not; one after the other.
#[derive(Clone, Copy)]
pub enum Binary {
    Union,
    Intersection,
    Difference,
    Composition,
}

// Theorem: the order of pictures of one size is a strict total order.
pub fn strict_order()
    ensures { StrictOrder }
{}

// Theorem: bytes are the writing of at most one description.
pub fn one_description()
    ensures { OneDescription }
{}

// Theorem: the worked examples hold of the definitions.
pub fn worked_examples()
    ensures { WorkedExamples }
{}
