//! What the router takes from the processors of a chip, and what it leaves there.

ghost use Rattle.std.specs.Prelude.{◌≡◌, ℕ, ◌+◌, ◌^◌, ◌<◌, ◌≤◌, ◌&&◌, not, IsFalse, IsTrue, List, [], ◌∷◌, ◌++◌};
ghost use Rattle.std.specs.Prelude.{length, slice_set, vec_len, vec_capacity};
ghost use Rattle.cm_bits.specs.Bit.{bit};
ghost use Rattle.std.specs.List.{list_any};
ghost use Rattle.cm_element.specs.Flags.{has_flag};
ghost use Rattle.cm_model.specs.Processor.{Processor, SEND, ACK, RECV, flag, field_value};
ghost use Rattle.cm_model.specs.Chip.{IsPlane, processor_at};
ghost use Rattle.cm_model.specs.Array.{chip_at};
ghost use Rattle.cm_model.specs.Whole.{IsChip};
ghost use Rattle.cm_model.specs.Letters.{senders_taken, is_among, message_sent};
ghost use Rattle.cm_model.specs.Letters.{chip_after_injection, chip_after_delivery};
ghost use Rattle.cm_router.specs.Idle.{IsIdle};
ghost use Rattle.cm_router.specs.Logs.{log_room};
ghost use Rattle.cm_router.specs.Records.{Held, AreRecords, record_of};

use cm_bits::{Field, FlagNo, Plane, Proc};
use cm_element::{ChipView, Run};
use cm_message::{Event, Message, Tag};
use cm_model::{RECEIVED_PAYLOAD, SENT_PAYLOAD, SENT_PROC, SENT_REL};

/// Whether some processor asks to send, found by words of one row.
pub fn may_ask(run: &Run) -> bool
    ensures value { result ≡ list_any (has_flag SEND) run.now }
{
    run.has_flag(FlagNo::SEND)
}

/// Whether an injection changes nothing in any chip: nobody asks to send, and nobody is acknowledged. Found by
/// words of two rows.
#[tactic(auto, using(crate::proofs::Taking::idle))]
pub fn is_idle(run: &Run) -> bool
    ensures value { result ≡ (not (list_any (has_flag SEND) run.now) && not (list_any (has_flag ACK) run.now)) }
    ensures idle { IsTrue result → (c : ℕ) → c < length run.now → IsIdle (chip_at run.now c) }
{
    !may_ask(run) && !run.has_flag(FlagNo::ACK)
}

/// Whether some processor of a chip asks to send.
#[tactic(auto, using(crate::proofs::Taking::idle))]
pub fn chip_asks(run: &Run, chip: u16) -> bool
    requires chip { chip < length run.now }
    ensures value { result ≡ has_flag SEND (chip_at run.now chip) }
    ensures none { IsFalse result → (cap standing : ℕ) → senders_taken cap standing (chip_at run.now chip) ≡ [] }
{
    run.chip_has_flag(chip, FlagNo::SEND)
}

/// Whether some processor of a chip is acknowledged. Where none is, an injection that takes no message in changes
/// nothing there.
#[tactic(auto, using(crate::proofs::Taking::idle))]
pub fn chip_is_acknowledged(run: &Run, chip: u16) -> bool
    requires chip { chip < length run.now }
    ensures value { result ≡ has_flag ACK (chip_at run.now chip) }
    ensures same { IsFalse result → chip_at run.now chip ≡ chip_after_injection [] (chip_at run.now chip) }
{
    run.chip_has_flag(chip, FlagNo::ACK)
}

/// Flag SEND of all processors of a chip: who asks to send.
pub fn asking(run: &Run, chip: u16) -> Plane
    requires chip { chip < length run.now }
    ensures value { IsPlane result (λ p. flag (processor_at (chip_at run.now chip) p) SEND) }
{
    run.flag_plane(chip, FlagNo::SEND)
}

/// What the record of a processor tells: where a message is to go, and its payload.
#[derive(Clone, Copy)]
pub(crate) struct Record {
    /// The relative address, of which a machine takes as many bits as its cube has dimensions.
    pub(crate) rel: u16,
    pub(crate) proc: Proc,
    pub(crate) payload: u32,
}

/// The message that a processor's record asks to send, from chip `here` of a cube of `dims` dimensions.
pub fn message_sent(chip: &ChipView<'_>, proc: Proc, here: u16, dims: u8, clock: u64) -> Message
    requires dims { dims ≤ 12 }
    ensures value { result ≡ message_sent dims clock here chip.now proc }
{
    message_with(record_of(chip, proc), proc, here, dims, clock)
}

/// The record of a processor, read bit by bit.
pub(crate) fn record_of(chip: &ChipView<'_>, proc: Proc) -> Record
    ensures value { result ≡ record_of (processor_at chip.now proc) }
{
    let relative = field_value(chip, proc, SENT_REL, 16);
    let target = field_value(chip, proc, SENT_PROC, 4);
    let payload = field_value(chip, proc, SENT_PAYLOAD, 32);
    Record {
        rel: relative as u16,
        proc: Proc::new(target as u8).unwrap(),
        payload: payload as u32,
    }
}

/// The message that a processor sends whose record this is.
pub(crate) fn message_with(sent: Record, proc: Proc, here: u16, dims: u8, clock: u64) -> Message
    requires dims { dims ≤ 12 }
    ensures value { (chip : List Processor) → sent ≡ record_of (processor_at chip proc)
        → result ≡ message_sent dims clock here chip proc }
{
    Message {
        rel: sent.rel % (1 << dims),
        proc: sent.proc,
        payload: sent.payload,
        tag: Tag {
            chip: here,
            proc,
            birth: clock,
        },
    }
}

/// Takes in no message: whoever asks to send goes on asking, and ACK is 0 everywhere on the chip.
/// Where it is so already, nothing is written.
#[tactic(auto, using(crate::proofs::Taking::idle))]
pub fn take_none(run: &mut Run, chip: u16)
    requires chip { chip < length run.old }
    ensures value { run.new ≡ slice_set run.old chip (chip_after_injection [] (chip_at run.old chip)) }
    ensures records { (held : Held) → AreRecords held run.old → AreRecords held run.new }
{
    if run.flag_plane(chip, FlagNo::ACK) != 0 {
        let asking = asking(run, chip);
        acknowledge(run, chip, asking, 0);
    }
}

/// Tells the processors of a chip whose messages were taken: their SEND falls, and ACK is 1 for them
/// alone.
#[tactic(auto, using(crate::proofs::Taking::told_both))]
pub fn acknowledge(run: &mut Run, chip: u16, asking: Plane, taken: Plane)
    requires chip { chip < length run.old }
    requires asking { IsPlane asking (λ p. flag (processor_at (chip_at run.old chip) p) SEND) }
    ensures value { (ps : List ℕ) → IsPlane taken (λ p. is_among p ps)
        → run.new ≡ slice_set run.old chip (chip_after_injection ps (chip_at run.old chip)) }
    ensures records { (held : Held) → AreRecords held run.old → AreRecords held run.new }
{
    run.poke_flag_plane(chip, FlagNo::SEND, asking & !taken);
    run.poke_flag_plane(chip, FlagNo::ACK, taken);
}

/// Flag RECV of all processors of a chip.
pub(crate) fn received(run: &Run, chip: u16) -> Plane
    requires chip { chip < length run.now }
    ensures value { IsPlane result (λ p. flag (processor_at (chip_at run.now chip) p) RECV) }
    ensures whole { IsChip (chip_at run.now chip) }
{
    run.flag_plane(chip, FlagNo::RECV)
}

/// Leaves the payload at the processor that the message is for.
#[tactic(auto, using(crate::proofs::Delivering::received))]
pub(crate) fn receive(run: &mut Run, chip: u16, message: &Message)
    requires chip { chip < length run.old }
    requires whole { IsChip (chip_at run.old chip) }
    requires there { message.now.proc < 16 }
    ensures value { run.new ≡ slice_set run.old chip (chip_after_delivery (message.now ∷ []) (chip_at run.old chip)) }
{
    run.poke_field(
        chip,
        message.proc,
        payload_field(),
        u64::from(message.payload),
    );
    run.poke_flag(chip, message.proc, FlagNo::RECV, true)
        .unwrap();
}

/// Whether the bit of a processor is 1 in a plane.
pub(crate) fn is_one(plane: Plane, proc: Proc) -> bool
    ensures value { result ≡ bit plane proc }
    ensures in_range { proc < 16 }
{
    plane >> proc.get() & 1 == 1
}

/// Tells a log of a message that was taken in.
pub fn tell_injected(log: &mut Vec<Event>, message: &Message)
    requires log_room { 0 < log_room log.old }
    ensures items { log.new.items ≡ log.old.items ++ Event.Injected message.now ∷ [] }
    ensures len { vec_len log.new ≡ vec_len log.old + 1 }
    ensures capacity { vec_capacity log.old ≤ vec_capacity log.new }
{
    log.push_reserved(Event::Injected(*message));
}

pub(crate) fn tell_delivered(log: &mut Vec<Event>, message: &Message, here: u16)
    requires log_room { 0 < log_room log.old }
    ensures items { log.new.items ≡ log.old.items ++ Event.Delivered here message.now ∷ [] }
    ensures len { vec_len log.new ≡ vec_len log.old + 1 }
    ensures capacity { vec_capacity log.old ≤ vec_capacity log.new }
{
    log.push_reserved(Event::Delivered {
        message: *message,
        chip: here,
    });
}

#[inline(always)]
#[tactic(auto, using(crate::proofs::Taking::fields))]
fn field_value(chip: &ChipView<'_>, proc: Proc, at: u16, len: u16) -> u64
    requires some { 1 ≤ len }
    requires narrow { len ≤ 64 }
    requires within { at + len ≤ 4096 }
    ensures value { result ≡ field_value (processor_at chip.now proc) at len }
    ensures below { result < 2 ^ len }
{
    chip.field(proc, Field::new(at, len).unwrap())
}

pub(crate) fn payload_field() -> Field
    ensures at { result.at ≡ RECEIVED_PAYLOAD }
    ensures len { result.len ≡ 32 }
{
    Field::new(RECEIVED_PAYLOAD, 32).unwrap()
}
