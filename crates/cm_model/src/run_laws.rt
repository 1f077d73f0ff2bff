//! Laws of a run at each of its steps: what each function is named for holds, at every size of the machine.

ghost use Rattle.cm_model.specs.RunLaws.{SincesStayApart, RunsAreToldByPhases, MachinesAreSound};
ghost use Rattle.cm_model.specs.RunLaws.{StepsKeepSoundness, RoutingIsKept, DeliveredAreReceived};

/// At no step of a run have two messages at a chip come there at once, so who leaves is one and no other.
pub fn sinces_stay_apart()
    ensures { SincesStayApart }
{}

/// A run is the fold of its phases, one after another.
pub fn runs_are_told_by_phases()
    ensures { RunsAreToldByPhases }
{}

/// Every machine has what holds in the midst of a petit cycle too.
pub fn machines_are_sound()
    ensures { MachinesAreSound }
{}

/// Each step keeps what holds in the midst of a petit cycle too.
pub fn steps_keep_soundness()
    ensures { StepsKeepSoundness }
{}

/// No act changes which wires are cut, nor the rule.
pub fn routing_is_kept()
    ensures { RoutingIsKept }
{}

/// Each message that is delivered stood at the chip, bound for it, and is received there unaltered.
pub fn delivered_are_received()
    ensures { DeliveredAreReceived }
{}
