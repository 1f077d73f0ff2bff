//! Laws over the steps on one chip, of every chip and at every size of the machine.

ghost use Rattle.cm_news.specs.Laws.{InsideAndEdgeAreAll, StepsAreTheTorus};

/// `inside` and `edge` together have each of a chip's sixteen bits, and none twice.
pub fn inside_and_edge_are_all()
    ensures { InsideAndEdgeAreAll }
{}

/// What comes in at a chip is what `inside` keeps of its own bits and one edge of one other chip.
pub fn steps_are_the_torus()
    ensures { StepsAreTheTorus }
{}
