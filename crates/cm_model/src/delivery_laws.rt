//! Laws of what a run delivers: what each function is named for holds, at every size of the machine.

ghost use Rattle.cm_model.specs.Deliveries.{MessagesStandOrWereDelivered, MessagesAreInOnePlace};
ghost use Rattle.cm_model.specs.Deliveries.{DeliveriesAreOfMessages};

/// What stood in the routers and what was injected stands there now or was delivered, at every step of a run.
pub fn messages_stand_or_were_delivered()
    ensures { MessagesStandOrWereDelivered }
{}

/// After a run every message stands in exactly one router or was delivered once, unaltered, to the processor
/// that it is for.
pub fn messages_are_in_one_place()
    ensures { MessagesAreInOnePlace }
{}

/// What a log tells was delivered is a message that stood in a router or was injected before, as it was; at the chip
/// that it was bound for it was received at one moment of the run, by its processor, which had RECV 0.
pub fn deliveries_are_of_messages()
    ensures { DeliveriesAreOfMessages }
{}
