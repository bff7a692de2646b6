// The circuit of a description, made from its bytes: a literal that is true where the picture that an
// assignment draws is of the description.
#![tactic(auto)]

ghost use Rattle.encoder.specs.Theorems.{ModelsHavePictures, PicturesHaveModels, GatesAreFew};

// Expressions and sentences, encoded where they are written.
mod encoding;

pub use encoding::encode;

// Theorem: pictures are of a description exactly where the literal of its circuit is true; and its
// gates are few.
pub fn circuits_say()
    ensures models { ModelsHavePictures }
    ensures pictures { PicturesHaveModels }
    ensures few { GatesAreFew }
{}
