//! Laws of pictures.

ghost use Rattle.lab_plot.specs.Laws.{AxesHaveRoundTicks, AxesHaveTwelveTicks, AxesJoinTheirNumbers};
ghost use Rattle.lab_plot.specs.Laws.{FirstLinesTellTables};
ghost use Rattle.lab_plot.specs.Laws.{NamesAreShownSo, PetitCyclesHaveTheirNumbers, PointsStandOnTheirPanels};
ghost use Rattle.lab_plot.specs.Laws.{RowsHaveFaults, RowsTellPoints};

/// A law: an axis of two numbers goes from a tick at the lesser or before it to one at the greater or behind it.
pub fn axes_join_their_numbers()
    ensures { AxesJoinTheirNumbers }
{}

/// A law: an axis has at most twelve ticks, so that all of them are drawn.
pub fn axes_have_twelve_ticks()
    ensures { AxesHaveTwelveTicks }
{}

/// A law: each point of a panel's columns stands on it, whichever points a picture has.
pub fn points_stand_on_their_panels()
    ensures { PointsStandOnTheirPanels }
{}

/// A law: these rows of tables tell these points, and these cells these numbers. All are in thousandths.
#[tactic(auto, unfolding(crate::specs::Cells::cell_number, crate::specs::Cells::trimmed))]
pub fn rows_tell_points()
    ensures { RowsTellPoints }
{}

/// A law: examples of first lines, each with the kind of table that has this line, or with the answer that none has.
#[tactic(auto, unfolding(crate::specs::Cells::trimmed, crate::specs::Rows::has_names))]
pub fn first_lines_tell_tables()
    ensures { FirstLinesTellTables }
{}

/// A law: these lines of a table of two columns have no fault, or this one.
#[tactic(auto, unfolding(crate::specs::Cells::cell_number, crate::specs::Cells::trimmed, crate::specs::Rows::fault_from))]
pub fn rows_have_faults()
    ensures { RowsHaveFaults }
{}

/// A law: these axes have these ticks, these bins this width.
pub fn axes_have_round_ticks()
    ensures { AxesHaveRoundTicks }
{}

/// A law: of petit cycles 8 and 9 each begins at a line and has its number in its middle; none begins at the end.
#[tactic(auto, unfolding(crate::specs::Ticks::cycle_tick))]
pub fn petit_cycles_have_their_numbers()
    ensures { PetitCyclesHaveTheirNumbers }
{}

/// A law: names that fit are shown whole, with what XML asks for; of others the beginning and an ellipsis.
#[tactic(auto, unfolding(crate::specs::Cells::escaped, crate::specs::Cells::trimmed))]
pub fn names_are_shown_so()
    ensures { NamesAreShownSo }
{}
