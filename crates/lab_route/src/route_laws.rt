//! Laws of routes: what each function is named for holds, of every machine; and worked lines.

ghost use Rattle.lab_route.specs.RouteLaws.{WaysAreToldSo, WhoNeedNotWaitCrosses};

/// A message that has to cross a dimension, and for which no reason to wait is told, is the one that crosses it.
pub fn who_need_not_wait_crosses()
    ensures { WhoNeedNotWaitCrosses }
{}

/// On a cube of four dimensions a message to processor 15 of chip 0 goes so, and these are the lines that tell it.
pub fn ways_are_told_so()
    ensures { WaysAreToldSo }
{}
