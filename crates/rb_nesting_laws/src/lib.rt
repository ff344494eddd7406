//! Laws on the places in trees: they nest as the text does.
//!
//! `parts_of` lists the places of a tree's parts in the order of the text. `Nests` says that they rise from where the tree begins, none
//! before the end of the one before it, and that the last ends where the tree ends or before.
#![tactic(auto)]

ghost use Rattle.rb_nesting_laws.specs.Examples.{CallHasParts, CallNests, LateArgumentNestsNot, SwappedPartsNestNot};
ghost use Rattle.rb_nesting_laws.specs.Nesting.{NestedPartsLieInTheWhole, TreesNest};

/// Each tree in the tree of a program nests, if its tokens stand one after the other.
pub fn trees_nest()
    ensures tokens { TreesNest }
{}

/// What is nested lies in the whole.
pub fn nested_parts_lie_in_the_whole()
    ensures { NestedPartsLieInTheWhole }
{}

/// The parts of a call and that they nest, and two trees that don't.
pub fn examples_nest()
    ensures parts { CallHasParts }
    ensures call { CallNests }
    ensures late { LateArgumentNestsNot }
    ensures swapped { SwappedPartsNestNot }
{}
