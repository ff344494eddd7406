//! Laws on the parser: it looks no further than the token at which it stops.
//!
//! What stands after that token plays no part in what is read, nor does a depth that is enough for the tokens. What is refused at a token
//! is refused at the end of those before it too, but for a few shapes of tokens.
#![tactic(auto)]

ghost use Rattle.rb_prefix_laws.specs.Examples.{ShallowLooksFurther};
ghost use Rattle.rb_prefix_laws.specs.Laws.{FormsAreRefusedAlike, FormsAreRefusedSooner, FormsEndAlike, FormsNeedNoMoreDepth, ProgramsNeedNoMoreDepth, RefusalsLookNoFurther};

/// A form is refused at the same token, or read to the same end, whatever stands after that token. A depth that is enough for the
/// tokens plays no part. Where it is refused at a token, it is refused too if the tokens end before that.
pub fn forms_look_no_further()
    ensures refused { FormsAreRefusedAlike }
    ensures sooner { FormsAreRefusedSooner }
    ensures ends { FormsEndAlike }
    ensures depth { FormsNeedNoMoreDepth }
{}

/// A program is refused at the same token, whatever stands after that.
pub fn refusals_look_no_further()
    ensures refused { RefusalsLookNoFurther }
    ensures depth { ProgramsNeedNoMoreDepth }
{}

/// Why the depth must be enough.
pub fn shallow_readers_look_further()
    ensures { ShallowLooksFurther }
{}
