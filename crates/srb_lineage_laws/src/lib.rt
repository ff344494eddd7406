//! The linearizations of each project keep what the comparison of types and their normal form ask of them.
#![tactic(auto)]

ghost use Rattle.srb_lineage_laws.specs.Projects.{FactsGiveLineages, FactsHaveNoCircles, TablesGiveLineages, TablesHaveNoCircles};

/// The facts of a project and the symbol table that stands for them give linearizations that hold what each of their names inherits and
/// includes, and whose classes form chains.
pub fn projects_have_lineages()
    ensures facts { FactsGiveLineages }
    ensures tables { TablesGiveLineages }
{}

/// No two names of a project inherit from each other, so that types in normal form are told by their shapes.
pub fn projects_have_no_circles()
    ensures facts { FactsHaveNoCircles }
    ensures tables { TablesHaveNoCircles }
{}
