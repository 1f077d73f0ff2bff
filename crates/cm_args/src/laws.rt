//! The law of command lines: which lines ask for something, and which do not.

ghost use Rattle.cm_args.specs.Laws.{BadLinesAskForNothing, LinesAskFor};

/// A law: of these lines each asks for what stands beside it, and of these each asks for nothing.
pub fn lines_and_bad_lines()
    ensures lines { LinesAskFor }
    ensures bad_lines { BadLinesAskForNothing }
{}
