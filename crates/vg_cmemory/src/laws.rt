//! Laws of the memory's definitions, each as the contract of a function that does nothing.
ghost use Rattle.vg_cmemory.specs.Laws.{RowsAreNamed, WritesAreSeen, WritesAreSeenThereAlone, WritesStayInside, FrameWritesStayInside, StartsStacked};
ghost use Rattle.vg_cmemory.specs.Laws.{StaysStacked, ChunksAreApart, StaysGone, StaysGoneAtLoans, EndsLife, CellsAreElsewhere, NamesChangeNothing};

/// A write is seen in its own object, and changes no other.
pub fn writes_stay_inside()
    ensures seen { WritesAreSeen }
    ensures alone { WritesAreSeenThereAlone }
    ensures objects { WritesStayInside }
    ensures frame { FrameWritesStayInside }
{}

/// Chunks that are lent have no byte in common.
pub fn chunks_are_apart()
    ensures starts { StartsStacked }
    ensures stays { StaysStacked }
    ensures apart { ChunksAreApart }
{}

/// An object that is gone stays so.
pub fn gone_stays_gone()
    ensures stays { StaysGone }
    ensures stays_at_loans { StaysGoneAtLoans }
    ensures ends { EndsLife }
{}

/// A cell of the library is no object of this memory, and naming one changes nothing here.
pub fn cells_are_elsewhere()
    ensures elsewhere { CellsAreElsewhere }
    ensures names { NamesChangeNothing }
{}

/// The rows of the library's calls for the frame are those with their names.
pub fn rows_are_named()
    ensures { RowsAreNamed }
{}
