//! Laws of the definitions: what a reader expects of lines, positions and edits.
ghost use Rattle.srb_text.specs.Laws.{LinesAreUnique, StartsEndFronts, StartsAreBoundaries, EncodingsWeigh, OffsetsComeBack, PositionsRise, OffsetsRise, OffsetsAreStarts, EmptyEditsKeep, EditsHaveSizes};

/// Each text is cut into lines in one way.
pub fn lines_are_unique()
    ensures { LinesAreUnique }
{}

/// A start is where a front of the text ends.
pub fn starts_end_fronts()
    ensures { StartsEndFronts }
{}

/// A start is where the UTF-8 of the text may be cut.
pub fn starts_are_boundaries()
    ensures { StartsAreBoundaries }
{}

/// Each character counts something in each encoding.
pub fn encodings_weigh()
    ensures { EncodingsWeigh }
{}

/// A start comes back from its position, but one between the two characters of a line's end.
pub fn offsets_come_back()
    ensures { OffsetsComeBack }
{}

/// A later offset has no earlier position.
pub fn positions_rise()
    ensures { PositionsRise }
{}

/// A later position has no earlier offset.
pub fn offsets_rise()
    ensures { OffsetsRise }
{}

/// The offset of a position is a start.
pub fn offsets_are_starts()
    ensures { OffsetsAreStarts }
{}

/// An edit that puts nothing in the place of nothing changes nothing.
pub fn empty_edits_keep()
    ensures { EmptyEditsKeep }
{}

/// An edited text has the bytes of the text, without those of the part and with those of what was put there.
pub fn edits_have_sizes()
    ensures { EditsHaveSizes }
{}
