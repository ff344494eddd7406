//! What the comparison of types means: it is exact.
#![tactic(auto)]

ghost use Rattle.srb_shapes.specs.Shapes.{InclusionIsExact, SubtypesAreExact};

/// A type that fits a project is a subtype of another exactly where each of its shapes is one of the other's, and one of its parts lies
/// in another type exactly where its shapes do.
pub fn comparison_is_exact()
    ensures subtypes { SubtypesAreExact }
    ensures parts { InclusionIsExact }
{}
