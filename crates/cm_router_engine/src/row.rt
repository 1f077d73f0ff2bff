//! The row in which messages stay, and the tickets for them.

ghost use Rattle.std.specs.Prelude.{◌≡◌, ℕ, ◌+◌, ◌*◌, ◌<◌, ◌≤◌, ◌++◌, ◌∷◌, [], length, map, slice_set, vec_len};
ghost use Rattle.std.specs.Prelude.{vec_capacity, List, Some, false, IsFalse, if◌then◌else◌};
ghost use Rattle.std.specs.List.{All, slice_get};
ghost use Rattle.std.specs.Option.{option_map};
ghost use Rattle.cm_model.specs.declared.message.Event.TheVariants as event;
ghost use Rattle.cm_model.specs.declared.message.Message.{Message};
ghost use Rattle.cm_model.specs.Processor.{Processor};
ghost use Rattle.cm_model.specs.Delivery.{HasDelivered, HasHandedOver};
ghost use Rattle.cm_model.specs.Chip.{IsPlane};
ghost use Rattle.cm_model.specs.Letters.{can_receive, chip_after_delivery, is_among, messages_sent};
ghost use Rattle.cm_model.specs.Array.{Chips, chip_at, nth_or_nil};
ghost use Rattle.cm_router_engine.specs.Standing.{message_of_ticket, standing, all_standing, HaveMessages, AreTogether};
ghost use Rattle.cm_model.specs.OneChip.{delivered_here, kept_here};
ghost use Rattle.cm_router_engine.specs.Standing.{HasMessage, IsWritten, AreLaidOut};
ghost use Rattle.cm_router.specs.Deliveries.{chip_handed, run_after, AreBefore};
ghost use Rattle.cm_router.specs.Logs.{log_room};
ghost use Rattle.cm_slots.specs.declared.ticket.Ticket.{Ticket};

use cm_bits::Plane;
use cm_element::Run;
use cm_message::{Event, Message};
use cm_router::{
    ChipRecords, Deliveries, Senders, receives, tell_injected, who_has_not_arrived_is_kept,
    with_one,
};
use cm_slots::{Ticket, TicketQueues};

/// Gives each message a place in the second row, those of a chip side by side, and its ticket tells that.
pub(crate) fn compact(row: &[Message], spare: &mut Vec<Message>, slots: &mut TicketQueues)
    requires few { length slots.old ≤ 4096 }
    requires capacity { 15 * length slots.old ≤ vec_capacity spare.old }
    requires kept { All (HaveMessages (length row.now)) slots.old }
    ensures value { all_standing spare.new.items slots.new ≡ all_standing row.now slots.old }
    ensures kept { All (HaveMessages (length spare.new.items)) slots.new }
    ensures together { All (AreTogether spare.new.items) slots.new }
    ensures filled { vec_len spare.new ≤ 15 * length slots.old }
    ensures capacity { vec_capacity spare.old ≤ vec_capacity spare.new }
{
    spare.clear();
    for c in 0..slots.chips() {
        carry_over(row, spare, slots, c);
    }
}

/// Gives the messages of one chip places in the second row.
fn carry_over(row: &[Message], spare: &mut Vec<Message>, slots: &mut TicketQueues, here: usize)
    requires here { here < length slots.old }
    requires few { vec_len spare.old + 15 ≤ 65535 }
    requires capacity { vec_len spare.old + 15 ≤ vec_capacity spare.old }
    requires kept { HaveMessages (length row.now) (nth_or_nil slots.old here) }
    ensures items { spare.new.items ≡ spare.old.items ++ standing row.now (nth_or_nil slots.old here) }
    ensures value { AreLaidOut row.now spare.new.items (nth_or_nil slots.old here) (nth_or_nil slots.new here) }
    ensures others { IsWritten here slots.old slots.new }
    ensures len { vec_len spare.new ≤ vec_len spare.old + 15 }
    ensures capacity { vec_capacity spare.old ≤ vec_capacity spare.new }
{
    let mut place = 0;
    while let Some(ticket) = slots.ticket(here, place) {
        let message = message_of(row, ticket);
        let number = keep(spare, &message);
        slots.replace(
            here,
            place,
            Ticket {
                rel: message.rel,
                number,
            },
        );
        place += 1;
    }
}

/// The messages of a chip as they stand side by side.
pub(crate) fn read_out<'a>(row: &'a [Message], slots: &TicketQueues, here: usize) -> &'a [Message]
    requires here { here < length slots.now }
    requires together { AreTogether row.now (nth_or_nil slots.now here) }
    ensures value { result.now ≡ standing row.now (nth_or_nil slots.now here) }
{
    let Some(first) = slots.ticket(here, 0) else {
        return &[];
    };
    let start = usize::from(first.number);
    &row[start..start + slots.len(here)]
}

/// Messages that processors of a chip send get places in the row, one after another, and stand last at their chip. The
/// log tells of each. A message goes to both as it is made: read back from one of them it would wait there.
pub(crate) fn store_injected(
    row: &mut Vec<Message>,
    slots: &mut TicketQueues,
    at: usize,
    mut senders: Senders,
    chip: &ChipRecords<'_>,
    here: u16,
    dims: u8,
    clock: u64,
    log: &mut Vec<Event>,
) -> Plane
    requires at { at < length slots.old }
    requires few { vec_len row.old + length senders ≤ 65535 }
    requires capacity { vec_len row.old + length senders ≤ vec_capacity row.old }
    requires kept { HaveMessages (length row.old.items) (nth_or_nil slots.old at) }
    requires room { length (nth_or_nil slots.old at) + length senders ≤ 15 }
    requires dims { dims ≤ 12 }
    requires log_room { length senders ≤ log_room log.old }
    ensures taken { IsPlane result (λ p. is_among p senders) }
    ensures items { row.new.items ≡ row.old.items ++ messages_sent dims clock here chip.now senders }
    ensures value { standing row.new.items (nth_or_nil slots.new at)
        ≡ standing row.old.items (nth_or_nil slots.old at) ++ messages_sent dims clock here chip.now senders }
    ensures kept { HaveMessages (length row.new.items) (nth_or_nil slots.new at) }
    ensures others { IsWritten at slots.old slots.new }
    ensures log { log.new.items ≡ log.old.items ++ map event.Injected (messages_sent dims clock here chip.now senders) }
    ensures log_len { vec_len log.new ≡ vec_len log.old + length senders }
    ensures log_capacity { vec_capacity log.old ≤ vec_capacity log.new }
    ensures len { vec_len row.new ≡ vec_len row.old + length senders }
    ensures capacity { vec_capacity row.old ≤ vec_capacity row.new }
{
    let mut taken: Plane = 0;
    while let Some(proc) = senders.next() {
        let sent = chip.message_sent(proc, here, dims, clock);
        stand(row, slots, at, &sent);
        tell_injected(log, &sent);
        taken = with_one(taken, proc);
    }
    taken
}

/// A message gets a place in the row, and stands last at its chip.
pub(crate) fn stand(
    row: &mut Vec<Message>,
    slots: &mut TicketQueues,
    here: usize,
    message: &Message,
)
    requires here { here < length slots.old }
    requires few { vec_len row.old < 65535 }
    requires capacity { vec_len row.old < vec_capacity row.old }
    requires kept { HaveMessages (length row.old.items) (nth_or_nil slots.old here) }
    requires room { length (nth_or_nil slots.old here) < 15 }
    ensures items { row.new.items ≡ row.old.items ++ message.now ∷ [] }
    ensures value { standing row.new.items (nth_or_nil slots.new here)
        ≡ standing row.old.items (nth_or_nil slots.old here) ++ message.now ∷ [] }
    ensures kept { HaveMessages (length row.new.items) (nth_or_nil slots.new here) }
    ensures others { IsWritten here slots.old slots.new }
    ensures long { length (nth_or_nil slots.new here) ≡ length (nth_or_nil slots.old here) + 1 }
    ensures len { vec_len row.new ≡ vec_len row.old + 1 }
    ensures capacity { vec_capacity row.old ≤ vec_capacity row.new }
{
    let number = keep(row, message);
    slots.arrive(
        here,
        Ticket {
            rel: message.rel,
            number,
        },
    );
}

/// Keeps a message in the row, and tells its place there.
fn keep(row: &mut Vec<Message>, message: &Message) -> u16
    requires few { vec_len row.old < 65535 }
    requires room { vec_len row.old < vec_capacity row.old }
    ensures number { result ≡ length row.old.items }
    ensures items { row.new.items ≡ row.old.items ++ message.now ∷ [] }
    ensures len { vec_len row.new ≡ vec_len row.old + 1 }
    ensures capacity { vec_capacity row.old ≤ vec_capacity row.new }
{
    let number = row.len() as u16;
    row.push_reserved(*message);
    number
}

/// Writes down the messages of the tickets that leave.
pub(crate) fn collect(row: &[Message], tickets: &[Option<Ticket>], leavers: &mut [Option<Message>])
    requires count { length leavers.old ≡ length tickets.now }
    requires kept { All (HasMessage (length row.now)) tickets.now }
    ensures value { leavers.new ≡ map (λ t. option_map (message_of_ticket row.now) t) tickets.now }
{
    for c in 0..tickets.len() {
        leavers[c] = match tickets[c] {
            Some(ticket) => Some(message_of(row, ticket)),
            None => None,
        };
    }
}

/// Delivers to one chip, message by message. What is delivered is written down, and put down at its processors later:
/// so the chip is told as it is after that.
pub(crate) fn deliver_at(
    row: &[Message],
    slots: &mut TicketQueues,
    run: &Run,
    deliveries: &mut Deliveries,
    chip: u16,
    here: u16,
    log: &mut Vec<Event>,
)
    requires stands { chip < length slots.old }
    requires kept { HaveMessages (length row.now) (nth_or_nil slots.old chip) }
    requires chip { chip < length run.now }
    requires before { AreBefore chip deliveries.old }
    requires room { length deliveries.old + length (nth_or_nil slots.old chip) ≤ 128 }
    requires log_room { length (nth_or_nil slots.old chip) ≤ log_room log.old }
    ensures value { standing row.now (nth_or_nil slots.new chip)
        ≡ kept_here (standing row.now (nth_or_nil slots.old chip)) (chip_at (run_after deliveries.old run.now) chip) }
    ensures kept { HaveMessages (length row.now) (nth_or_nil slots.new chip) }
    ensures fewer { length (nth_or_nil slots.new chip) ≤ length (nth_or_nil slots.old chip) }
    ensures others { IsWritten chip slots.old slots.new }
    ensures chip { run_after deliveries.new run.now ≡ slice_set (run_after deliveries.old run.now) chip
        (chip_after_delivery (delivered_here (standing row.now (nth_or_nil slots.old chip))
        (chip_at (run_after deliveries.old run.now) chip)) (chip_at (run_after deliveries.old run.now) chip)) }
    ensures before { AreBefore (chip + 1) deliveries.new }
    ensures log { log.new.items ≡ log.old.items ++ map (λ m. event.Delivered here m)
        (delivered_here (standing row.now (nth_or_nil slots.old chip))
        (chip_at (run_after deliveries.old run.now) chip)) }
    ensures len { vec_len log.new ≤ vec_len log.old + length (nth_or_nil slots.old chip) }
    ensures capacity { vec_capacity log.old ≤ vec_capacity log.new }
{
    let mut receivers = deliveries.receivers(run, chip);
    let at = chip as usize;
    let mut place = 0;
    while let Some(ticket) = slots.ticket(at, place) {
        if is_delivered(row, ticket, deliveries, &mut receivers, chip, here, log) {
            slots.remove(at, place);
            place = next_given(row, slots, at, place, receivers);
        } else {
            place = next_given(row, slots, at, place + 1, receivers);
        }
    }
}

/// The first place of a chip, from this one on, of a ticket whose message is delivered to one of these receivers; as
/// many as stand there, if there is none. Nothing is written meanwhile, so that where its slots lie is found once.
fn next_given(
    row: &[Message],
    slots: &TicketQueues,
    here: usize,
    from: usize,
    receivers: Plane,
) -> usize
    requires stands { here < length slots.now }
    requires kept { HaveMessages (length row.now) (nth_or_nil slots.now here) }
    requires from { from ≤ length (nth_or_nil slots.now here) }
    ensures passed { (j : ℕ) (t : Ticket) → from ≤ j → j < result → Some t ≡ slice_get (nth_or_nil slots.now here) j
        → (before chip : List Processor) → IsPlane receivers (can_receive chip) → (seen : List Message)
        → HasDelivered before seen chip → HasHandedOver false before seen (message_of_ticket row.now t) chip }
    ensures from { from ≤ result }
    ensures within { result ≤ length (nth_or_nil slots.now here) }
{
    let mut place = from;
    while let Some(ticket) = slots.ticket(here, place) {
        if is_given(row, ticket, receivers) {
            return place;
        }
        place += 1;
    }
    place
}

/// Whether the message of a ticket is delivered to one of these receivers.
fn is_given(row: &[Message], ticket: Ticket, receivers: Plane) -> bool
    requires kept { ticket.number < length row.now }
    ensures kept { IsFalse result → (before chip : List Processor) → IsPlane receivers (can_receive chip)
        → (seen : List Message) → HasDelivered before seen chip
        → HasHandedOver false before seen (message_of_ticket row.now ticket) chip }
{
    // Only a message that has arrived is read: where it is kept lies far from the others.
    if ticket.rel != 0 {
        who_has_not_arrived_is_kept();
        return false;
    }
    receives(receivers, row[usize::from(ticket.number)].proc)
}

/// Delivers the message of a ticket, if it has arrived and its processor can receive.
fn is_delivered(
    row: &[Message],
    ticket: Ticket,
    deliveries: &mut Deliveries,
    receivers: &mut Plane,
    chip: u16,
    here: u16,
    log: &mut Vec<Event>,
) -> bool
    requires kept { ticket.number < length row.now }
    requires room { length deliveries.old < 128 }
    requires log_room { 0 < log_room log.old }
    ensures step { (before now : List Processor) (seen : List Message) → HasDelivered before seen now
        → IsPlane receivers.old (can_receive now) → HasHandedOver result before seen (message_of_ticket row.now ticket)
        (chip_handed result (message_of_ticket row.now ticket) now) }
    ensures receivers { (before now : List Processor) (seen : List Message) → HasDelivered before seen now
        → IsPlane receivers.old (can_receive now)
        → IsPlane receivers.new (can_receive (chip_handed result (message_of_ticket row.now ticket) now)) }
    ensures later { (run : Chips) → run_after deliveries.new run ≡ slice_set (run_after deliveries.old run) chip
        (chip_handed result (message_of_ticket row.now ticket) (chip_at (run_after deliveries.old run) chip)) }
    ensures before { (k : ℕ) → chip < k → AreBefore k deliveries.old → AreBefore k deliveries.new }
    ensures count { length deliveries.new ≡ length deliveries.old + (if result then 1 else 0) }
    ensures log { log.new.items ≡ log.old.items
        ++ (if result then event.Delivered here (message_of_ticket row.now ticket) ∷ [] else []) }
    ensures len { vec_len log.new ≤ vec_len log.old + 1 }
    ensures quiet { IsFalse result → vec_len log.new ≡ vec_len log.old }
    ensures capacity { vec_capacity log.old ≤ vec_capacity log.new }
{
    // Only a message that has arrived is read: where it is kept lies far from the others.
    if ticket.rel != 0 {
        who_has_not_arrived_is_kept();
        return false;
    }
    deliveries.hand_over(receivers, &message_of(row, ticket), chip, here, log)
}

/// The message that a ticket stands for.
pub(crate) fn message_of(row: &[Message], ticket: Ticket) -> Message
    requires kept { ticket.number < length row.now }
    ensures value { result ≡ message_of_ticket row.now ticket }
{
    Message {
        rel: ticket.rel,
        ..row[usize::from(ticket.number)]
    }
}
