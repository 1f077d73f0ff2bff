//! Laws: what some lines ask for, and what others are refused for.

ghost use Rattle.lab_args.specs.AskingLines.{LinesAreRequests};
ghost use Rattle.lab_args.specs.RefusedLines.{LinesAreRefused};

/// A law: these lines ask for these things.
pub fn lines_ask_for()
    ensures { LinesAreRequests }
{}

/// A law: these lines ask for nothing, and for these faults.
pub fn lines_are_refused()
    ensures { LinesAreRefused }
{}
