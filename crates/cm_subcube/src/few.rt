//! How many rounds a run has.

ghost use Rattle.cm_subcube.specs.Few.{RoundsAreFew};

/// A run has no more rounds than acts, but for its petit cycles, each of which has as many as there are dimensions at
/// which blocks exchange.
pub fn rounds_are_few()
    ensures { RoundsAreFew }
{}
