//! What the operations on types mean: which shapes their answers have, and that these are in normal form.
#![tactic(auto)]

ghost use Rattle.srb_types_laws.specs.Examples.{TableIsAsAsked, TextsAreTested, UnionIsNormal};
ghost use Rattle.srb_types_laws.specs.Laws.{ArraysAndHashesAreNormal, ArraysAndHashesKeepShapes, BooleanIsShownAlike, IntersectionsAreNormal, IntersectionsDoNotDependOnOrder, IntersectionsHaveTheShapesOfBoth, MeetsHaveTheShapesOfBoth, NormalFormsAreUnique, OtherShapesAreLeft, PartsHaveShapes, PartsLieInNoOther, PlainNamesTellParts, ShownTextsTellTypes, SubtypesAreLeftOut, UnionsAreNormal, UnionsDoNotDependOnOrder, UnionsHaveTheShapesOfBoth, WhatIsLeftIsNormal};

/// Each part of a type in normal form has a shape, and none lies in another.
pub fn parts_are_apart()
    ensures shapes { PartsHaveShapes }
    ensures apart { PartsLieInNoOther }
{}

/// `T.any` of two types in normal form is in normal form, and has exactly the shapes of both.
pub fn unions_join_shapes()
    ensures normal { UnionsAreNormal }
    ensures shapes { UnionsHaveTheShapesOfBoth }
{}

/// What is left of a type in normal form without the subtypes of another is in normal form. It has the parts that are no subtypes, and the
/// shapes that the other type doesn't have.
pub fn subtypes_are_left_out()
    ensures normal { WhatIsLeftIsNormal }
    ensures parts { SubtypesAreLeftOut }
    ensures shapes { OtherShapesAreLeft }
{}

/// Where no two classes or modules inherit from each other and no two parts are shown alike, two types in normal form with the same shapes
/// are one, and neither `T.any` nor `T.all` depends on the order of types.
pub fn normal_forms_are_unique()
    ensures unique { NormalFormsAreUnique }
    ensures unions { UnionsDoNotDependOnOrder }
    ensures intersections { IntersectionsDoNotDependOnOrder }
{}

/// Where the names of classes and modules are plain, types in normal form are told apart by their texts. A class `T::Boolean` is the
/// one name of Ruby that isn't plain: it would be shown as two classes together are.
pub fn shown_texts_tell_types()
    ensures types { ShownTextsTellTypes }
    ensures parts { PlainNamesTellParts }
    ensures boolean { BooleanIsShownAlike }
{}

/// `T.all` of two types in normal form, and what a value of both is, are in normal form and have the shapes that belong to both. `T.untyped`
/// inside one of them may add others.
pub fn intersections_meet_shapes()
    ensures normal { IntersectionsAreNormal }
    ensures all { IntersectionsHaveTheShapesOfBoth }
    ensures meet { MeetsHaveTheShapesOfBoth }
{}

/// Arrays and hashes of types in normal form are in normal form, and lack no shape.
pub fn arrays_and_hashes_keep_shapes()
    ensures normal { ArraysAndHashesAreNormal }
    ensures shapes { ArraysAndHashesKeepShapes }
{}

/// Examples: a table of three classes of which the laws can be used, the union of two of them, and some texts.
pub fn examples_are_in_normal_form()
    ensures table { TableIsAsAsked }
    ensures union { UnionIsNormal }
    ensures texts { TextsAreTested }
{}
