//! Delivery of one message, wherever it stands.

ghost use Rattle.std.specs.Prelude.{◌≡◌, ℕ, ◌<◌, ◌≤◌, ◌+◌, ◌&&◌, List, [], ◌∷◌, ◌++◌, IsFalse};
ghost use Rattle.std.specs.Prelude.{false, length, slice_set};
ghost use Rattle.std.specs.Prelude.{if◌then◌else◌, vec_len, vec_capacity};
ghost use Rattle.cm_model.specs.declared.message.Message.{Message};
ghost use Rattle.cm_model.specs.Processor.{Processor};
ghost use Rattle.std.specs.List.{All};
ghost use Rattle.cm_model.specs.Chip.{IsPlane};
ghost use Rattle.cm_model.specs.Array.{Chips, chip_at};
ghost use Rattle.cm_model.specs.Letters.{has_arrived, can_receive, chip_after_delivery};
ghost use Rattle.cm_model.specs.Delivery.{HasDelivered, HasHandedOver};
ghost use Rattle.cm_router.specs.Logs.{log_room};
ghost use Rattle.cm_router.specs.Deliveries.{chip_handed, run_after, AreBefore};

use crate::letters::{is_one, receive, received, tell_delivered};
use arrayvec::ArrayVec;
use cm_bits::{FlagNo, Plane, Proc};
use cm_element::Run;
use cm_message::{Event, Message};
use std::marker::Model;

/// Room for so many deliveries.
const MOST: usize = 128;

/// Most that one chip delivers at once.
const MOST_OF_A_CHIP: usize = 15;

/// A message that is delivered, and the place in its run of the chip at which it is to be put down.
#[derive(Clone, Copy, Default)]
pub struct Delivery {
    pub place: u16,
    pub message: Message,
}

/// Messages that are delivered and put down later, many after one another. So the next message need not wait, where it
/// is kept far from the others, until the bits of this one are put.
///
/// Contracts see the list of them.
#[derive(Drop)]
pub struct Deliveries {
    items: ArrayVec<Delivery, MOST>,
}

impl Model for Deliveries {
    ghost use Rattle.std.specs.Prelude.{List, length, ◌≤◌};
    ghost use Rattle.cm_router.specs.declared.delivery.Delivery.{Delivery};

    ghost Value = { List Delivery };

    ghost view = { λ deliveries. deliveries.items.items };

    ghost invariant = { λ deliveries. length deliveries.items.items ≤ 128 };
}

impl Deliveries {
    /// None is written down.
    pub fn new() -> Deliveries
        ensures value { result ≡ [] }
    {
        Deliveries {
            items: ArrayVec::new(),
        }
    }

    /// Who can receive at a chip for which none is written down yet. Nothing of its buffer has been gone through then.
    #[tactic(auto, using(crate::proofs::Delivering::length_run_after))]
    pub fn receivers(&self, run: &Run, place: u16) -> Plane
        requires place { place < length run.now }
        requires before { AreBefore place self.now }
        ensures gone { HasDelivered (chip_at (run_after self.now run.now) place) []
            (chip_at (run_after self.now run.now) place) }
        ensures value { IsPlane result (can_receive (chip_at (run_after self.now run.now) place)) }
        ensures chips { length (run_after self.now run.now) ≡ length run.now }
    {
        !received(run, place)
    }

    /// Delivers a message of a chip's buffer, if it has arrived and its processor can receive: it is written down, the
    /// processor can receive no other then, and the log tells. Whether it was delivered; if not, it is to be kept.
    /// Called for one message of a buffer after another, from the front, this is the delivery of a petit cycle. The
    /// chip stands at a place of its run, and its number in the machine is `here`.
    pub fn hand_over(
        &mut self,
        receivers: &mut Plane,
        message: &Message,
        place: u16,
        here: u16,
        log: &mut Vec<Event>,
    ) -> bool
        requires room { length self.old < 128 }
        requires log_room { 0 < log_room log.old }
        ensures step { (before chip : List Processor) (seen : List Message) → HasDelivered before seen chip
            → IsPlane receivers.old (can_receive chip)
            → HasHandedOver result before seen message.now (chip_handed result message.now chip) }
        ensures receivers { (before chip : List Processor) (seen : List Message) → HasDelivered before seen chip
            → IsPlane receivers.old (can_receive chip)
            → IsPlane receivers.new (can_receive (chip_handed result message.now chip)) }
        ensures later { (run : Chips) → run_after self.new run ≡ slice_set (run_after self.old run) place
            (chip_handed result message.now (chip_at (run_after self.old run) place)) }
        ensures before { (k : ℕ) → place < k → AreBefore k self.old → AreBefore k self.new }
        ensures count { length self.new ≡ length self.old + (if result then 1 else 0) }
        ensures log { log.new.items
            ≡ log.old.items ++ (if result then Event.Delivered here message.now ∷ [] else []) }
        ensures len { vec_len log.new ≤ vec_len log.old + 1 }
        ensures quiet { IsFalse result → vec_len log.new ≡ vec_len log.old }
        ensures capacity { vec_capacity log.old ≤ vec_capacity log.new }
    {
        if message.rel == 0 && is_one(*receivers, message.proc) {
            *receivers &= !(1 << message.proc.get());
            self.items.push(Delivery {
                place,
                message: *message,
            });
            tell_delivered(log, message, here);
            return true;
        }
        false
    }

    /// Puts all down, if fewer than fifteen more would find room.
    pub fn make_room(&mut self, run: &mut Run)
        requires within { AreBefore (length run.old) self.old }
        ensures value { run_after self.new run.new ≡ run_after self.old run.old }
        ensures room { length self.new + 15 ≤ 128 }
        ensures before { (k : ℕ) → AreBefore k self.old → AreBefore k self.new }
        ensures chips { length run.new ≡ length run.old }
    {
        if self.items.remaining_capacity() < MOST_OF_A_CHIP {
            self.put_down(run);
        }
    }

    /// Puts all down.
    pub fn put_down(&mut self, run: &mut Run)
        requires within { AreBefore (length run.old) self.old }
        ensures value { run.new ≡ run_after self.old run.old }
        ensures none { self.new ≡ [] }
        ensures chips { length run.new ≡ length run.old }
    {
        put_all_down(self.items.as_slice(), run);
        self.items.clear();
    }
}

fn put_all_down(deliveries: &[Delivery], run: &mut Run)
    requires within { AreBefore (length run.old) deliveries.now }
    ensures value { run.new ≡ run_after deliveries.now run.old }
    ensures chips { length run.new ≡ length run.old }
{
    for delivery in deliveries {
        put_one_down(delivery, run);
    }
}

/// The payload of a message stands at its processor then, and RECV is 1.
fn put_one_down(delivery: &Delivery, run: &mut Run)
    requires place { delivery.now.place < length run.old }
    ensures value { run.new ≡ slice_set run.old delivery.now.place
        (chip_after_delivery (delivery.now.message ∷ []) (chip_at run.old delivery.now.place)) }
{
    // Looked at for what it tells of the chip and of the processor's number.
    let _ = is_one(received(run, delivery.place), delivery.message.proc);
    receive(run, delivery.place, &delivery.message);
}

/// Nothing is done: a chip to which nothing is delivered stays as it is.
#[tactic(auto, using(crate::proofs::Delivering::nobody_yet))]
pub fn pass_over(run: &Run)
    ensures same { (c : ℕ) → c < length run.now
        → chip_at run.now c ≡ chip_after_delivery [] (chip_at run.now c) }
{
    let _ = run.flag_row(FlagNo::RECV);
}

/// Whether a processor can receive, of those that can. Where it cannot, a message for it is kept.
pub fn receives(receivers: Plane, proc: Proc) -> bool
    ensures kept { IsFalse result → (before chip : List Processor) (seen : List Message) (m : Message) → m.proc ≡ proc
        → IsPlane receivers (can_receive chip) → HasDelivered before seen chip
        → HasHandedOver false before seen m chip }
{
    is_one(receivers, proc)
}

/// A message that has not arrived is kept, whoever can receive.
pub fn who_has_not_arrived_is_kept()
    ensures law { (before : List Processor) (seen : List Message) (m : Message) (chip : List Processor)
        → has_arrived m ≡ false → HasDelivered before seen chip → HasHandedOver false before seen m chip }
{}
