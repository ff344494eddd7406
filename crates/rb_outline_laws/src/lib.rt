//! The law on outlines: two trees have equal outlines exactly where they are equal but for their places.
#![tactic(auto)]

ghost use Rattle.rb_outline_laws.specs.Unplaced.{OutlinesAreTreesWithoutPlaces};

/// Two trees have equal outlines exactly where they are equal once each place in them is set to 0 to 0.
pub fn outlines_are_trees_without_places()
    ensures { OutlinesAreTreesWithoutPlaces }
{}
