//! What is told of any queue is told of buffers.

ghost use Rattle.cm_slots.specs.Queues.{LeaversAreThoseOfBuffers};

/// Who leaves a queue of messages by the rule of this crate is who leaves a buffer.
#[tactic(auto, unfolding(crate::specs::Queues::place_of_leaver, cm_model::specs::Buffers::leaving_place))]
pub fn leavers_are_those_of_buffers()
    ensures law { LeaversAreThoseOfBuffers }
{}
