//! Laws over the definitions: what each function is named for holds, at every size of the machine.

ghost use Rattle.cm_model.specs.Laws.{NeighboursLeadBack, MessagesAreFound, InjectedStandInTheAccount, BlankIsMachine};
ghost use Rattle.cm_model.specs.Laws.{StepsAreToldByBuffers, RunsKeepRoom, RunsCanBeCut, RunsAreToldByBuffers};
ghost use Rattle.cm_model.specs.Laws.{LogsOnlyGrow, AccountIsConserved, TagsStayApart};
ghost use Rattle.cm_model.specs.Laws.{CutsAreFew, RoutingsAreToldByWires};
ghost use Rattle.cm_model.specs.Laws.{MachinesAreKept, RunsKeepMachines};
ghost use Rattle.cm_model.specs.StepLaws.{SendersAreAcknowledged, DeliveriesAreApart, NobodyIsPassedOver};
ghost use Rattle.cm_model.specs.StepLaws.{PayloadsAreReceived};
ghost use Rattle.cm_model.specs.StepLaws.{LeaversHaveTheirSince, LeaversAreUnique, LeaversStandAtTheirPlace};
ghost use Rattle.cm_model.specs.StepLaws.{NobodyCrossesACutWire, CrossingsKeepRoom};
ghost use Rattle.cm_model.specs.StepLaws.{TargetsAreKept, RoomIsKept, InstructionsKeepTheAccount};

/// A step on the grid and one back end where they began.
pub fn neighbours_lead_back()
    ensures { NeighboursLeadBack }
{}

/// A machine has at most as many cut wires as its cube has wires.
pub fn cuts_are_few()
    ensures { CutsAreFew }
{}

/// Two routings that cut the same wires of their cube, by one rule, are one.
pub fn routings_are_told_by_wires()
    ensures { RoutingsAreToldByWires }
{}

/// A run cut in two gives the same buffers and logs.
pub fn runs_can_be_cut()
    ensures { RunsCanBeCut }
{}

/// A run on the set of messages is the fold of its acts told by the buffers alone.
pub fn runs_are_told_by_buffers()
    ensures { RunsAreToldByBuffers }
{}

/// At each step of a run, too, the set of messages and the buffers tell one machine.
pub fn steps_are_told_by_buffers()
    ensures { StepsAreToldByBuffers }
{}

/// By either rule who leaves a chip goes before all others that have to cross, or else, at a full chip, behind all.
pub fn leavers_have_their_since()
    ensures { LeaversHaveTheirSince }
{}

/// Where no two records at a chip have one since, nobody but its leaver is its leaver.
pub fn leavers_are_unique()
    ensures { LeaversAreUnique }
{}

/// By either rule the buffer alone tells at which place who leaves a chip stands.
pub fn leavers_stand_at_their_place()
    ensures { LeaversStandAtTheirPlace }
{}

/// A dimension step keeps every target.
pub fn targets_are_kept()
    ensures { TargetsAreKept }
{}

/// Nobody crosses a wire that is cut, in either direction.
pub fn nobody_crosses_a_cut_wire()
    ensures { NobodyCrossesACutWire }
{}

/// In no dimension does a buffer overflow, whichever wires are cut and by either rule.
pub fn crossings_keep_room()
    ensures { CrossingsKeepRoom }
{}

/// No buffer overflows.
pub fn room_is_kept()
    ensures { RoomIsKept }
{}

/// At no step of a run does a buffer overflow.
pub fn runs_keep_room()
    ensures { RunsKeepRoom }
{}

/// A run only adds to the logs.
pub fn logs_only_grow()
    ensures { LogsOnlyGrow }
{}

/// No message is lost, altered or made twice: a run adds to the account what was injected, and nothing else.
pub fn account_is_conserved()
    ensures { AccountIsConserved }
{}

/// An instruction leaves the account as it is.
pub fn instructions_keep_the_account()
    ensures { InstructionsKeepTheAccount }
{}

/// Tags that differ go on to differ, and births stay below the counter.
pub fn tags_stay_apart()
    ensures { TagsStayApart }
{}

/// Each act keeps what every machine keeps.
pub fn machines_are_kept()
    ensures { MachinesAreKept }
{}

/// A run keeps what every machine keeps.
pub fn runs_keep_machines()
    ensures { RunsKeepMachines }
{}

/// Every message that was injected stands in the account, and goes on to.
pub fn injected_stand_in_the_account()
    ensures { InjectedStandInTheAccount }
{}

/// What is delivered to a processor stands in its memory, unaltered.
pub fn payloads_are_received()
    ensures { PayloadsAreReceived }
{}

/// The blank machine has what every machine keeps.
pub fn blank_is_machine()
    ensures { BlankIsMachine }
{}

/// Injection tells each processor whether its message was taken.
pub fn senders_are_acknowledged()
    ensures { SendersAreAcknowledged }
{}

/// A processor is delivered one message at most in a petit cycle, and only where its RECV was 0.
pub fn deliveries_are_apart()
    ensures { DeliveriesAreApart }
{}

/// A message is kept at a delivery only where it has not arrived, or its processor cannot receive, or another is
/// delivered to that one.
pub fn nobody_is_passed_over()
    ensures { NobodyIsPassedOver }
{}

/// Where the message of a tag is found, there it is.
pub fn messages_are_found()
    ensures { MessagesAreFound }
{}
