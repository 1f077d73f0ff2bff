//! What the plain router reads in the plain chips, and what it leaves there: the fields of a record
//! that asks to send, and of one that was received.

ghost use Rattle.std.specs.Prelude.{◌≡◌, ℕ, true, ◌%◌, ◌^◌, ◌<◌, ◌≤◌, List, length, take, drop, slice_set, IfOk};
ghost use Rattle.std.specs.List.{find};
ghost use Rattle.cm_bits.specs.Bit.{bit};
ghost use Rattle.cm_model.specs.Processor.{Processor, flag, value, field_value};
ghost use Rattle.cm_model.specs.Chip.{processor_at};
ghost use Rattle.cm_model.specs.Array.{chip_at};
ghost use Rattle.cm_model.specs.Letters.{senders, message_sent, is_among, processor_after_injection};
ghost use Rattle.cm_model.specs.Letters.{chip_after_injection, is_for, with_field, processor_after_delivery};
ghost use Rattle.cm_model.specs.Letters.{chip_after_delivery};

use crate::machine::{PlainChip, PlainMachine, PlainProcessor, put};
use cm_bits::{FlagNo, NoMemory, PROCESSORS, Proc};
use cm_model::{Message, RECEIVED_PAYLOAD, SENT_PAYLOAD, SENT_PROC, SENT_REL, Tag};
use std::alloc::Global;

impl<const N: usize> PlainMachine<N> {
    pub(crate) fn chip(&self, chip: u16) -> &PlainChip
        requires chip { chip < 2 ^ N }
        ensures value { result.now ≡ chip_at self.now chip }
    {
        &self.chips[usize::from(chip)]
    }

    pub(crate) fn copy(&self, alloc: Global) -> Result<PlainMachine<N>, NoMemory>
        ensures value { IfOk result (λ machine. machine ≡ self.now) }
    {
        let mut chips = Vec::new(alloc);
        for chip in &self.chips {
            let copy = chip.copy(alloc)?;
            let Ok(()) = chips.push(copy) else {
                return Err(NoMemory);
            };
        }
        Ok(PlainMachine { chips })
    }

    /// The message that a processor sends in the petit cycle of this number.
    pub(crate) fn message_sent(&self, clock: u64, chip: u16, proc: Proc) -> Message
        requires dimension { N ≤ 12 }
        requires chip { chip < 2 ^ N }
        ensures value { result ≡ message_sent N clock chip (chip_at self.now chip) proc }
    {
        let sender = self.chip(chip).processor(proc);
        let rel = sender.field_value(usize::from(SENT_REL), 16) as u16 % Self::chip_count();
        let receiver = sender.field_value(usize::from(SENT_PROC), 4) as u8;
        Message {
            rel,
            proc: Proc::new(receiver).unwrap(),
            payload: sender.field_value(usize::from(SENT_PAYLOAD), 32),
            tag: Tag {
                chip,
                proc,
                birth: clock,
            },
        }
    }
}

impl PlainChip {
    fn copy(&self, alloc: Global) -> Result<PlainChip, NoMemory>
        ensures value { IfOk result (λ chip. chip ≡ self.now) }
    {
        let mut processors = Vec::new(alloc);
        for processor in &self.processors {
            let copy = processor.copy(alloc)?;
            let Ok(()) = processors.push(copy) else {
                return Err(NoMemory);
            };
        }
        Ok(PlainChip { processors })
    }

    fn processor(&self, proc: Proc) -> &PlainProcessor
        ensures value { result.now ≡ processor_at self.now proc }
    {
        &self.processors[usize::from(proc.get())]
    }

    /// Whether a flag of a processor is 1.
    pub(crate) fn has_flag(&self, proc: Proc, number: FlagNo) -> bool
        ensures value { result ≡ flag (processor_at self.now proc) number }
    {
        self.processor(proc).flag(number)
    }

    /// The processors that ask to send, by number.
    pub(crate) fn senders(&self, alloc: Global) -> Result<Vec<Proc>, NoMemory>
        ensures value { IfOk result (λ procs. procs.items ≡ senders self.now) }
    {
        let mut senders = Vec::new(alloc);
        for number in 0..PROCESSORS {
            let proc = Proc::new(number).unwrap();
            if self.has_flag(proc, FlagNo::SEND) {
                let Ok(()) = senders.push(proc) else {
                    return Err(NoMemory);
                };
            }
        }
        Ok(senders)
    }

    /// The chip after the messages of these processors were taken.
    pub(crate) fn after_injection(
        &self,
        alloc: Global,
        taken: &[Proc],
    ) -> Result<PlainChip, NoMemory>
        ensures value { IfOk result (λ after. after ≡ chip_after_injection taken.now self.now) }
    {
        let mut processors = Vec::new(alloc);
        for number in 0..PROCESSORS {
            let proc = Proc::new(number).unwrap();
            let was_taken = is_among(proc, taken);
            let after = self.processor(proc).after_injection(alloc, was_taken)?;
            let Ok(()) = processors.push(after) else {
                return Err(NoMemory);
            };
        }
        Ok(PlainChip { processors })
    }

    /// The chip after these messages were delivered, at most one to each processor.
    pub(crate) fn after_delivery(
        &self,
        alloc: Global,
        messages: &[Message],
    ) -> Result<PlainChip, NoMemory>
        ensures value { IfOk result (λ after. after ≡ chip_after_delivery messages.now self.now) }
    {
        let mut processors = Vec::new(alloc);
        for number in 0..PROCESSORS {
            let proc = Proc::new(number).unwrap();
            let received = message_for(proc, messages);
            let after = self.processor(proc).after_delivery(alloc, received)?;
            let Ok(()) = processors.push(after) else {
                return Err(NoMemory);
            };
        }
        Ok(PlainChip { processors })
    }
}

impl PlainProcessor {
    /// The value of the memory field of this length at this address.
    fn field_value(&self, at: usize, len: usize) -> u32
        requires length { len ≤ 32 }
        ensures value { result ≡ field_value self.now at len }
        ensures within { result < 2 ^ len }
    {
        value_of(first_bits(rest_of(&self.memory, at), len))
    }

    /// The processor after injection, where its message was taken or not.
    fn after_injection(&self, alloc: Global, was_taken: bool) -> Result<PlainProcessor, NoMemory>
        ensures value { IfOk result (λ after. after ≡ processor_after_injection was_taken self.now) }
    {
        let mut after = self.copy(alloc)?;
        if was_taken {
            after.poke_flag(FlagNo::SEND, false);
        }
        after.poke_flag(FlagNo::ACK, was_taken);
        Ok(after)
    }

    /// The processor after delivery, where it was given a message or none.
    fn after_delivery(
        &self,
        alloc: Global,
        message: Option<Message>,
    ) -> Result<PlainProcessor, NoMemory>
        ensures value { IfOk result (λ after. after ≡ processor_after_delivery message self.now) }
    {
        match message {
            None => self.copy(alloc),
            Some(received) => self.after_receipt(alloc, received.payload),
        }
    }

    fn after_receipt(&self, alloc: Global, payload: u32) -> Result<PlainProcessor, NoMemory>
        ensures value { IfOk result (λ after. after ≡ record {
          memory = with_field self.now.memory RECEIVED_PAYLOAD 32 payload;
          flags = slice_set self.now.flags 14 true;
        }) }
    {
        let memory = with_field(
            alloc,
            &self.memory,
            usize::from(RECEIVED_PAYLOAD),
            32,
            payload,
        )?;
        let mut flags = self.flags.to_vec(alloc)?;
        put(&mut flags, usize::from(FlagNo::RECV.get()), true);
        Ok(PlainProcessor { memory, flags })
    }
}

/// Whether a processor is one of these.
pub(crate) fn is_among(proc: Proc, procs: &[Proc]) -> bool
    ensures value { result ≡ is_among proc procs.now }
{
    procs.iter().any(|other| *other == proc)
}

/// The first message for a processor.
fn message_for(proc: Proc, messages: &[Message]) -> Option<Message>
    ensures value { result ≡ find (is_for proc) messages.now }
{
    messages
        .iter()
        .copied()
        .find(|message| message.proc == proc)
}

/// The number whose bits, the lowest first, these are.
fn value_of(bits: &[bool]) -> u32
    requires { length bits.now ≤ 32 }
    ensures value { result ≡ value bits.now }
    ensures within { result < 2 ^ length bits.now }
{
    match bits {
        [] => 0,
        [lowest, rest @ ..] => u32::from(*lowest) + 2 * value_of(rest),
    }
}

/// The bits with a number in the field of this length at this address.
fn with_field(
    alloc: Global,
    bits: &[bool],
    at: usize,
    len: usize,
    number: u32,
) -> Result<Vec<bool>, NoMemory>
    requires at { at ≤ 4096 }
    requires length { len ≤ 32 }
    ensures value { IfOk result (λ made. made.items ≡ with_field bits.now at len number) }
{
    let mut made = copied(alloc, first_bits(bits, at))?;
    for place in 0..len {
        let Ok(()) = made.push(bit_of(number, place)) else {
            return Err(NoMemory);
        };
    }
    let mut rest = copied(alloc, rest_of(bits, at + len))?;
    made.append(&mut rest)?;
    Ok(made)
}

fn bit_of(number: u32, place: usize) -> bool
    requires place { place < 32 }
    ensures value { result ≡ bit number place }
{
    number >> place & 1 == 1
}

fn copied(alloc: Global, bits: &[bool]) -> Result<Vec<bool>, NoMemory>
    ensures value { IfOk result (λ copy. copy.items ≡ bits.now) }
{
    let copy = bits.to_vec(alloc)?;
    Ok(copy)
}

fn first_bits(bits: &[bool], count: usize) -> &[bool]
    ensures value { result.now ≡ take count bits.entry.now }
{
    &bits[..count.min(bits.len())]
}

fn rest_of(bits: &[bool], from: usize) -> &[bool]
    ensures value { result.now ≡ drop from bits.entry.now }
{
    &bits[from.min(bits.len())..]
}
