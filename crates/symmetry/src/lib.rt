// Symmetry: a permutation of its things leaves a picture of the same descriptions.
#![tactic(auto)]

ghost use Rattle.descriptions.specs.Theorems.{NamesAreNothing};

// Theorem: what things are called is nothing.
pub fn names_are_nothing()
    ensures { NamesAreNothing }
{}
