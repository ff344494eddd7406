//! Laws and examples of links and linearizations.

ghost use Rattle.srb_ancestors.specs.Examples.{CircularOnes, CountedOnes, MixedCounts, MixedLin, NestedLin};
ghost use Rattle.srb_ancestors.specs.Laws.{CircularIsTold, CountedHaveNoCircle, EquationHasOneSolution, EquationHolds, LeadsIsTold, MembersAreReached, NoCircularLink, OthersAreAlone, StandsAlone};

/// The test that goes link by link says whether a name is another or reaches it, and so which links are circular.
#[tactic(auto, using(crate::proofs::LawProofs::told, crate::proofs::LawProofs::circular_told))]
pub fn circular_links_are_told()
    ensures leads { LeadsIsTold }
    ensures circular { CircularIsTold }
{}

/// Where no link is circular, no name reaches itself; and by the links that count none does.
#[tactic(auto, using(crate::proofs::LawProofs::no_circular_link, crate::proofs::LawProofs::counted_have_none))]
pub fn counted_links_have_no_circle()
    ensures none { NoCircularLink }
    ensures counted { CountedHaveNoCircle }
{}

/// Where no name reaches itself, the linearizations are the one solution of the equation that makes the list of a name from those of
/// its superclass and its modules.
pub fn linearizations_solve_their_equation()
    ensures holds { EquationHolds }
    ensures one { EquationHasOneSolution }
{}

/// A name from which no link goes, as one that stands in no link, is alone in its linearization, and no linearization has a name that isn't reached.
#[tactic(auto, using(crate::proofs::LawProofs::stands_alone, crate::proofs::LawProofs::others_are_alone, crate::proofs::LawProofs::members_are_reached))]
pub fn members_are_reached()
    ensures alone { StandsAlone }
    ensures others { OthersAreAlone }
    ensures members { MembersAreReached }
{}

/// Two small projects and a few circles: what the linearizations are, which links are circular, and which ones count.
pub fn examples_are_linearized()
    ensures mixed { MixedLin }
    ensures nested { NestedLin }
    ensures circular { CircularOnes }
    ensures counted { CountedOnes }
    ensures all_count { MixedCounts }
{}
