//! The node of one chip: a buffer of messages.

ghost use Rattle.std.specs.Prelude.{◌≡◌, ◌<◌, ◌≤◌, ◌==◌, [], ◌∷◌, ◌++◌, ◌+◌, length, map, slice_set, false};
ghost use Rattle.std.specs.Prelude.{vec_len, vec_capacity};
ghost use Rattle.cm_model.specs.Processor.{SEND, flag};
ghost use Rattle.cm_model.specs.Chip.{IsPlane, processor_at};
ghost use Rattle.cm_model.specs.Array.{chip_at};
ghost use Rattle.cm_model.specs.Router.{message_across};
ghost use Rattle.cm_model.specs.Letters.{is_among, chip_after_injection, chip_after_delivery};
ghost use Rattle.cm_model.specs.Buffers.{leaving_place, outgoing, without};
ghost use Rattle.cm_model.specs.OneChip.{taken_here, sent_here, delivered_here, kept_here};
ghost use Rattle.cm_router.specs.Buffer.{IsBuffer, holding};
ghost use Rattle.cm_router.specs.Logs.{log_room};

use crate::delivery::Deliveries;
use crate::leaving::chosen_place;
use crate::letters;
use crate::letters::{acknowledge, message_sent, take_none, tell_injected};
use crate::senders::{Senders, with_one};
use arrayvec::ArrayVec;
use cm_bits::Plane;
use cm_element::{ChipView, Run};
use cm_message::{Event, Message, Rule};
use std::marker::Model;

/// The buffer of one chip of the router (Hillis 1985; how large it is, is ours).
#[derive(Drop)]
pub struct Node {
    room: u8,
    messages: ArrayVec<Message, 15>,
}

impl Model for Node {
    ghost use Rattle.cm_router.specs.Buffer.{Buffer, IsBuffer};

    ghost Value = { Buffer };

    ghost view = { λ node. record { room = node.room; messages = node.messages.items } };

    ghost invariant = { λ node.
        IsBuffer (record { room = node.room; messages = node.messages.items }) };
}

impl Node {
    /// An empty node with room for so many messages.
    pub fn new(room: u8) -> Node
        requires some { 0 < room }
        requires most { room ≤ 15 }
        ensures value { result ≡ record { room = room; messages = [] } }
    {
        Node {
            room,
            messages: ArrayVec::new(),
        }
    }

    /// A second node, with the room and the messages of this one.
    pub fn copy(&self) -> Node
        ensures value { result ≡ self.now }
    {
        let mut messages = ArrayVec::new();
        messages.try_extend_from_slice(&self.messages).unwrap();
        Node {
            room: self.room,
            messages,
        }
    }

    /// How many messages it has room for.
    pub fn room(&self) -> u8
        ensures value { result ≡ self.now.room }
    {
        self.room
    }

    /// The messages that stand here, in order of arrival.
    pub fn messages(&self) -> &[Message]
        ensures value { result.now ≡ self.now.messages }
        ensures within { length result.now ≤ self.now.room }
        ensures whole { IsBuffer self.now }
    {
        self.messages.as_slice()
    }

    /// Takes all messages away.
    pub fn clear(&mut self)
        ensures value { self.new ≡ holding self.old [] }
    {
        self.messages.clear();
    }

    /// Whether there is no room left.
    pub fn is_full(&self) -> bool
        ensures value { result ≡ (length self.now.messages == self.now.room) }
        ensures whole { IsBuffer self.now }
    {
        self.messages.len() == usize::from(self.room)
    }

    /// Takes out what goes across a dimension, whose wire may be cut: then nobody. Else, of the messages that have to
    /// cross it, who goes first by the rule, or where none has to and the node is full, who goes last (which messages
    /// go, and that a full node refers one: ours).
    #[tactic(auto, unfolding(cm_model::specs::Buffers::leaving_place))]
    pub fn leave(&mut self, dim: u8, cut: bool, rule: Rule) -> Option<Message>
        requires dimension { dim < 12 }
        ensures value { result ≡ outgoing (record { cut = cut; rule = rule }) self.old.room dim self.old.messages }
        ensures stays { self.new ≡ holding self.old (without self.old.messages
            (leaving_place (record { cut = cut; rule = rule }) self.old.room dim self.old.messages)) }
        ensures room { cut ≡ false → length self.new.messages < self.new.room }
    {
        if cut {
            return None;
        }
        let place = chosen_place(&self.messages, self.room, dim, rule)?;
        Some(across(self.messages.remove(place), dim))
    }

    /// Takes in a message that comes across a dimension.
    pub fn arrive(&mut self, message: Message)
        requires room { length self.old.messages < self.old.room }
        ensures value { self.new ≡ holding self.old (self.old.messages ++ message ∷ []) }
    {
        self.messages.push(message);
    }

    /// Takes in messages of the processors that ask to send, by number, at most four and at most as
    /// many as there is room for. The log tells of each. The chip stands at place `chip` of the run, and its
    /// number in the machine, of a cube of `dims` dimensions, is `here`.
    #[tactic(auto, using(crate::proofs::Taking::idle))]
    pub fn inject(
        &mut self,
        run: &mut Run,
        chip: u16,
        here: u16,
        dims: u8,
        clock: u64,
        log: &mut Vec<Event>,
    )
        requires chip { chip < length run.old }
        requires dims { dims ≤ 12 }
        requires log_room { 4 ≤ log_room log.old }
        ensures messages { self.new ≡ holding self.old
            (self.old.messages ++ sent_here dims self.old.room clock here self.old.messages (chip_at run.old chip)) }
        ensures chip { run.new ≡ slice_set run.old chip
            (chip_after_injection (taken_here self.old.room self.old.messages (chip_at run.old chip))
            (chip_at run.old chip)) }
        ensures log { log.new.items
            ≡ log.old.items
            ++ map Event.Injected (sent_here dims self.old.room clock here self.old.messages (chip_at run.old chip)) }
        ensures len { vec_len log.new ≤ vec_len log.old + 4 }
        ensures capacity { vec_capacity log.old ≤ vec_capacity log.new }
    {
        let asking = letters::asking(run, chip);
        if asking == 0 {
            take_none(run, chip);
            return;
        }
        let taken = self.take_in(&run.view(chip), asking, here, dims, clock, log);
        acknowledge(run, chip, asking, taken);
    }

    /// Takes the messages in, and tells in a plane whose they are.
    fn take_in(
        &mut self,
        chip: &ChipView<'_>,
        asking: Plane,
        here: u16,
        dims: u8,
        clock: u64,
        log: &mut Vec<Event>,
    ) -> Plane
        requires asking { IsPlane asking (λ p. flag (processor_at chip.now p) SEND) }
        requires dims { dims ≤ 12 }
        requires log_room { 4 ≤ log_room log.old }
        ensures taken { IsPlane result (λ p. is_among p (taken_here self.old.room self.old.messages chip.now)) }
        ensures messages { self.new ≡ holding self.old
            (self.old.messages ++ sent_here dims self.old.room clock here self.old.messages chip.now) }
        ensures log { log.new.items
            ≡ log.old.items ++ map Event.Injected (sent_here dims self.old.room clock here self.old.messages chip.now) }
        ensures len { vec_len log.new ≤ vec_len log.old + 4 }
        ensures capacity { vec_capacity log.old ≤ vec_capacity log.new }
    {
        let mut senders = Senders::first(asking, usize::from(self.room) - self.messages.len());
        let mut taken: Plane = 0;
        while let Some(proc) = senders.next() {
            let sent = message_sent(chip, proc, here, dims, clock);
            tell_injected(log, &sent);
            self.messages.push(sent);
            taken = with_one(taken, proc);
        }
        taken
    }

    /// Delivers what has arrived: each message from the front whose processor can receive, at most
    /// one to each. The log tells of each. Place and number of the chip are as for `inject`.
    pub fn deliver(&mut self, run: &mut Run, chip: u16, here: u16, log: &mut Vec<Event>)
        requires chip { chip < length run.old }
        requires log_room { self.old.room ≤ log_room log.old }
        ensures stays { self.new ≡ holding self.old (kept_here self.old.messages (chip_at run.old chip)) }
        ensures chip { run.new ≡ slice_set run.old chip
            (chip_after_delivery (delivered_here self.old.messages (chip_at run.old chip)) (chip_at run.old chip)) }
        ensures log { log.new.items
            ≡ log.old.items
            ++ map (λ m. Event.Delivered here m) (delivered_here self.old.messages (chip_at run.old chip)) }
        ensures len { vec_len log.new ≤ vec_len log.old + self.old.room }
        ensures capacity { vec_capacity log.old ≤ vec_capacity log.new }
    {
        let mut deliveries = Deliveries::new();
        let mut receivers = deliveries.receivers(run, chip);
        let mut place = 0;
        while place < self.messages.len() {
            let message = self.messages[place];
            if deliveries.hand_over(&mut receivers, &message, chip, here, log) {
                self.messages.remove(place);
            } else {
                place += 1;
            }
        }
        deliveries.put_down(run);
    }
}

/// The message as it arrives across this dimension.
fn across(message: Message, dim: u8) -> Message
    requires dimension { dim < 12 }
    ensures value { result ≡ message_across dim message }
{
    Message {
        rel: message.rel ^ 1 << dim,
        ..message
    }
}
