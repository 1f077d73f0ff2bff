//! The buffers and logs of the plain router: who leaves a buffer, who is delivered, what a log takes.

ghost use Rattle.std.specs.Prelude.{◌≡◌, ℕ, ◌++◌, ◌<◌, List, [], Option, ◌∷◌, map, IfOk, OnOk};
ghost use Rattle.std.specs.Option.{option_to_list};
ghost use Rattle.cm_model.specs.Router.{message_across};
ghost use Rattle.cm_model.specs.Letters.{can_receive, is_among};
ghost use Rattle.cm_model.specs.Buffers.{leaving_place, outgoing, buffer_after_dimension, without};
ghost use Rattle.cm_model.specs.OneChip.{arrived_for, is_accepted, delivered, kept};
ghost use Rattle.cm_model.specs.declared.message.Event.TheVariants.{Injected, Delivered};

use crate::leaving::{Way, leaving_place};
use crate::letters::is_among;
use crate::machine::PlainChip;
use cm_bits::{FlagNo, NoMemory, Proc};
use cm_model::{Event, Message};
use std::alloc::Global;
use std::marker::Model;

/// The messages that stand at a chip, from the front.
#[derive(Drop)]
pub(crate) struct PlainBuffer {
    pub(crate) messages: Vec<Message>,
}

impl Model for PlainBuffer {
    ghost use Rattle.std.specs.Prelude.{List};
    ghost use Rattle.cm_model.specs.declared.message.Message.{Message};

    ghost Value = { List Message };

    ghost view = { λ buffer. buffer.messages.items };
}

/// The events of a chip, the oldest first.
#[derive(Drop)]
pub(crate) struct PlainLog {
    pub(crate) events: Vec<Event>,
}

impl Model for PlainLog {
    ghost use Rattle.std.specs.Prelude.{List};
    ghost use Rattle.cm_model.specs.declared.message.Event.{Event};

    ghost Value = { List Event };

    ghost view = { λ log. log.events.items };
}

/// The messages of a buffer that are delivered, and those that it keeps.
#[derive(Drop)]
pub(crate) struct Sorted {
    pub(crate) delivered: Vec<Message>,
    pub(crate) kept: Vec<Message>,
}

impl PlainBuffer {
    pub(crate) fn empty(alloc: Global) -> PlainBuffer
        ensures value { result ≡ [] }
    {
        PlainBuffer {
            messages: Vec::new(alloc),
        }
    }

    pub(crate) fn copy(&self, alloc: Global) -> Result<PlainBuffer, NoMemory>
        ensures value { IfOk result (λ buffer. buffer ≡ self.now) }
    {
        let messages = self.messages.to_vec(alloc)?;
        Ok(PlainBuffer { messages })
    }

    pub(crate) fn messages(&self) -> &[Message]
        ensures value { result.now ≡ self.entry.now }
    {
        &self.messages
    }

    /// The buffer with these messages behind its own.
    pub(crate) fn with(&self, alloc: Global, more: &[Message]) -> Result<PlainBuffer, NoMemory>
        ensures value { IfOk result (λ buffer. buffer ≡ self.now ++ more.now) }
    {
        let mut messages = self.messages.to_vec(alloc)?;
        let mut copies = more.to_vec(alloc)?;
        messages.append(&mut copies)?;
        Ok(PlainBuffer { messages })
    }

    /// What the buffer sends across a dimension, with room for so many messages.
    pub(crate) fn outgoing(&self, way: Way, room: usize, dim: usize) -> Option<Message>
        requires dim { dim < 16 }
        ensures value { result ≡ outgoing (record { cut = way.cut; rule = way.rule }) room dim self.now }
    {
        let leaving = leaving_place(&self.messages, way, room, dim)?;
        let message = self.messages.get(leaving)?;
        Some(message_across(message, dim))
    }

    /// The buffer after a dimension step: who leaves is gone, and what comes stands last.
    pub(crate) fn after_dimension(
        &self,
        alloc: Global,
        way: Way,
        room: usize,
        dim: usize,
        coming: Option<Message>,
    ) -> Result<PlainBuffer, NoMemory>
        requires dim { dim < 16 }
        ensures value { IfOk result (λ after. after
            ≡ buffer_after_dimension (record { cut = way.cut; rule = way.rule }) room dim self.now coming) }
    {
        let mut messages = self.messages.to_vec(alloc)?;
        leave(&mut messages, way, room, dim);
        come(&mut messages, coming)?;
        Ok(PlainBuffer { messages })
    }

    /// Which messages are delivered to the processors of a chip, and which stay.
    pub(crate) fn sorted(&self, alloc: Global, chip: &PlainChip) -> Result<Sorted, NoMemory>
        ensures delivered { IfOk result (λ sorted. sorted.delivered.items
            ≡ delivered (can_receive chip.now) [] self.now) }
        ensures kept { IfOk result (λ sorted. sorted.kept.items ≡ kept (can_receive chip.now) [] self.now) }
    {
        let mut delivered = Vec::new(alloc);
        let mut kept = Vec::new(alloc);
        let mut arrived = Vec::new(alloc);
        for message in &self.messages {
            let accepted = is_accepted(chip, &arrived, message);
            if accepted {
                put(&mut delivered, *message)?;
            } else {
                put(&mut kept, *message)?;
            }
            arrive(&mut arrived, message)?;
        }
        Ok(Sorted { delivered, kept })
    }
}

impl PlainLog {
    pub(crate) fn empty(alloc: Global) -> PlainLog
        ensures value { result ≡ [] }
    {
        PlainLog {
            events: Vec::new(alloc),
        }
    }

    pub(crate) fn copy(&self, alloc: Global) -> Result<PlainLog, NoMemory>
        ensures value { IfOk result (λ log. log ≡ self.now) }
    {
        let events = self.events.to_vec(alloc)?;
        Ok(PlainLog { events })
    }

    pub(crate) fn events(&self) -> &[Event]
        ensures value { result.now ≡ self.entry.now }
    {
        &self.events
    }

    /// The log with an event for each message that was taken in.
    pub(crate) fn with_injected(
        &self,
        alloc: Global,
        sent: &[Message],
    ) -> Result<PlainLog, NoMemory>
        ensures value { IfOk result (λ log. log ≡ self.now ++ map Injected sent.now) }
    {
        let mut events = self.events.to_vec(alloc)?;
        for message in sent {
            let Ok(()) = events.push(Event::Injected(*message)) else {
                return Err(NoMemory);
            };
        }
        Ok(PlainLog { events })
    }

    /// The log with an event for each message that was delivered at a chip.
    pub(crate) fn with_delivered(
        &self,
        alloc: Global,
        received: &[Message],
        chip: u16,
    ) -> Result<PlainLog, NoMemory>
        ensures value { IfOk result (λ log. log ≡ self.now ++ map (λ m. Delivered chip m) received.now) }
    {
        let mut events = self.events.to_vec(alloc)?;
        for message in received {
            let event = Event::Delivered {
                message: *message,
                chip,
            };
            let Ok(()) = events.push(event) else {
                return Err(NoMemory);
            };
        }
        Ok(PlainLog { events })
    }
}

/// Who leaves a buffer in a dimension goes.
fn leave(messages: &mut Vec<Message>, way: Way, room: usize, dim: usize)
    requires dim { dim < 16 }
    ensures value { messages.new.items ≡ without messages.old.items
        (leaving_place (record { cut = way.cut; rule = way.rule }) room dim messages.old.items) }
{
    if let Some(leaving) = leaving_place(messages, way, room, dim) {
        if leaving < messages.len() {
            messages.remove(leaving);
        }
    }
}

/// Puts the message that comes over the dimension, if there is one, behind all others.
fn come(messages: &mut Vec<Message>, coming: Option<Message>) -> Result<(), NoMemory>
    ensures ok { OnOk result (messages.new.items ≡ messages.old.items ++ option_to_list coming) }
{
    match coming {
        Some(message) => put(messages, message),
        None => Ok(()),
    }
}

fn put(messages: &mut Vec<Message>, message: Message) -> Result<(), NoMemory>
    ensures ok { OnOk result (messages.new.items ≡ messages.old.items ++ message ∷ []) }
{
    let Ok(()) = messages.push(message) else {
        return Err(NoMemory);
    };
    Ok(())
}

/// The processors for which messages have arrived, one message on.
fn arrive(procs: &mut Vec<Proc>, message: &Message) -> Result<(), NoMemory>
    ensures ok { OnOk result (procs.new.items ≡ arrived_for procs.old.items message.now) }
{
    if message.rel == 0 {
        let Ok(()) = procs.insert(0, message.proc) else {
            return Err(NoMemory);
        };
    }
    Ok(())
}

/// The message as it comes to the other chip of a dimension.
fn message_across(message: &Message, dim: usize) -> Message
    requires dim { dim < 16 }
    ensures value { result ≡ message_across dim message.now }
{
    Message {
        rel: message.rel ^ (1 << dim),
        proc: message.proc,
        payload: message.payload,
        tag: message.tag,
    }
}

/// Whether a message is delivered to a processor of a chip, where messages for these have arrived before it.
fn is_accepted(chip: &PlainChip, before: &[Proc], message: &Message) -> bool
    ensures value { result ≡ is_accepted (can_receive chip.now) before.now message.now }
{
    message.rel == 0
        && !chip.has_flag(message.proc, FlagNo::RECV)
        && !is_among(message.proc, before)
}
