//! Consequences of the definitions.
ghost use Rattle.yf_positions.specs.Laws.{ColumnsCount, LaterLinesAreEnd, OffsetsAreExact, OffsetsInvert, PositionsInvert};

/// The offset of an offset's position is that offset, if it is between two characters and not inside a CR LF.
pub fn positions_invert()
    ensures { PositionsInvert }
{}

/// The offset of a position is the offset of its own position, so a second conversion loses no information.
pub fn offsets_invert()
    ensures { OffsetsInvert }
{}

/// A column counts the units of the characters between a line's start and an offset in the line.
pub fn columns_count()
    ensures { ColumnsCount }
{}

/// The offset of a position in a line of the text is the last one in this line that is not after the position.
pub fn offsets_are_exact()
    ensures { OffsetsAreExact }
{}

/// A position in a line that the text does not have is the end of the text.
pub fn later_lines_are_end()
    ensures { LaterLinesAreEnd }
{}
