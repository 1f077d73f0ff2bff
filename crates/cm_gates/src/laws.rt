//! The law of what a gate is told.

ghost use Rattle.cm_gates.specs.Gates.{RoundsAreToldByNumber};

/// A round is told by its number; a run has 4,416 at most.
pub fn rounds_are_told_by_number()
    ensures { RoundsAreToldByNumber }
{}
