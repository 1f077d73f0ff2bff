//! The messages of a run of chips.

ghost use Rattle.std.specs.Prelude.{◌≡◌, ◌↔◌, ℕ, ◌+◌, ◌*◌, ◌%◌, ◌^◌, ◌<◌, ◌≤◌, ◌++◌, ◌⊎◌, [], ◌∷◌, IfOk, IsTrue};
ghost use Rattle.std.specs.Prelude.{length, map, min, None, true, false};
ghost use Rattle.std.specs.Prelude.{slice_set, slice_index_or, bit_xor, vec_len, vec_capacity};
ghost use Rattle.std.specs.List.{All, list_any};
ghost use Rattle.std.specs.Option.{option_to_list};
ghost use Rattle.cm_model.specs.declared.message.Event.TheVariants as event;
ghost use Rattle.cm_model.specs.Chip.{IsPlane};
ghost use Rattle.cm_model.specs.Letters.{has_arrived, chip_after_injection, chip_after_delivery};
ghost use Rattle.cm_model.specs.Letters.{is_among, messages_sent};
ghost use Rattle.cm_model.specs.Each.{tabulate};
ghost use Rattle.cm_model.specs.Array.{each_chip, chip_at, nth_or_nil};
ghost use Rattle.cm_model.specs.Wiring.{is_cut, way_of};
ghost use Rattle.cm_model.specs.Buffers.{leaving_place, without, outgoing, buffer_after_dimension};
ghost use Rattle.cm_model.specs.OneChip.{taken_here, sent_here, delivered_here, kept_here};
ghost use Rattle.cm_router.specs.Deliveries.{run_after, AreBefore};
ghost use Rattle.cm_router.specs.Idle.{IsPassedOver};
ghost use Rattle.cm_router.specs.Logs.{log_room};
ghost use Rattle.cm_router.specs.Records.{AreRecords};
ghost use Rattle.cm_router.specs.Routes.{routing_of};
ghost use Rattle.cm_router_engine.specs.Arrived.{HaveArrivedAt};

use crate::ranking::{rearrange, renumber, risen_to, sort_numbers};
use crate::routed::{cross, leave};
use crate::row::{collect, compact, deliver_at, read_out, stand, store_injected};
use cm_bits::{NoMemory, Plane};
use cm_element::Run;
use cm_message::{Event, Message, Rule};
use cm_router::{
    ChipRecords, Deliveries, MOST_INJECTED, Records, Routing, Senders, acknowledge, asking,
    chip_asks, chip_is_acknowledged, take_none,
};
use cm_slots::{Arrivals, Shape, Ticket, TicketQueues};
use std::alloc::Global;
use std::marker::Model;
use std::mem;

/// Most places of the row: as many as tickets can tell.
const MOST_PLACES: usize = 65535;

/// So many dimensions, a petit cycle of the largest machine, are crossed chip by chip before the row is put in the
/// order of age: this takes twice as long, and a list that ends before has no use for it.
const PATIENCE: u8 = 12;

/// The messages of a run of chips, for as long as these live (ours). A message stays where it is kept; what
/// crosses is a ticket, the relative address and the place of the message. Where its chip's messages are to
/// be read as one slice, and where places run out, all are gathered into a second row, which takes the
/// place of the first.
#[derive(Drop)]
pub struct RouterEngine {
    /// The messages as they were when they got their tickets; some may have been delivered.
    row: Vec<Message>,
    /// Room for as many, for the next time that all are gathered.
    spare: Vec<Message>,
    /// Most messages that the row may have.
    places: usize,
    /// By chip, the tickets of the messages that stand there.
    slots: TicketQueues,
    /// Between the halves of a dimension that leads out of these chips, who leaves each; else anything.
    leavers: Vec<Option<Ticket>>,
    /// Whether nothing has moved since all were gathered.
    gathered: bool,
    /// How many of the row's first messages are known to stand in the order of age.
    risen: usize,
    /// How many dimensions were crossed since the row was made while it was not in that order; past the patience, that
    /// it was put in order, or that it cannot be.
    waited: u8,
    /// Room for what the messages' numbers are sorted by.
    keys: Vec<u128>,
    /// Room for where each message goes when they are put in order.
    moved: Vec<u16>,
}

impl Model for RouterEngine {
    ghost use Rattle.std.specs.Prelude.{◌-◌, vec_len};
    ghost use Rattle.cm_router_engine.specs.Standing.{InFlight, all_standing, IsRouterEngine};

    ghost Value = { InFlight };

    ghost view = { λ crossing. record {
      buffers = all_standing crossing.row.items crossing.slots;
      free = crossing.places - vec_len crossing.row;
      gathered = crossing.gathered;
    } };

    ghost invariant = { λ crossing. IsRouterEngine crossing.row crossing.spare crossing.places crossing.slots
        crossing.leavers crossing.gathered crossing.risen };
}

impl RouterEngine {
    /// Working room for so many chips, at which no message stands.
    pub fn new(alloc: Global, chips: usize) -> Result<RouterEngine, NoMemory>
        requires few { chips ≤ 4096 }
        ensures value { IfOk result (λ crossing. crossing.buffers ≡ tabulate 0 chips (λ c. [])) }
        ensures count { IfOk result (λ crossing. length crossing.buffers ≡ chips) }
        ensures gathered { IfOk result (λ crossing. IsTrue crossing.gathered) }
        ensures free { IfOk result (λ crossing. crossing.free ≡ min 65535 (32 * chips + 4)) }
    {
        let places = MOST_PLACES.min(32 * chips + MOST_INJECTED);
        let row = Vec::with_capacity(alloc, places)?;
        let spare = Vec::with_capacity(alloc, places)?;
        let slots = TicketQueues::new(alloc, chips)?;
        let leavers = no_leavers(alloc, chips)?;
        let keys = Vec::with_capacity(alloc, places)?;
        let moved = Vec::with_capacity(alloc, places)?;
        Ok(RouterEngine {
            row,
            spare,
            places,
            slots,
            leavers,
            gathered: true,
            risen: 0,
            waited: 0,
            keys,
            moved,
        })
    }

    /// A second one, with the messages of this one.
    pub fn copy(&self, alloc: Global) -> Result<RouterEngine, NoMemory>
        ensures value { IfOk result (λ crossing. crossing ≡ self.now) }
    {
        let mut row = Vec::with_capacity(alloc, self.places)?;
        row.extend_from_slice(&self.row)?;
        let spare = Vec::with_capacity(alloc, self.places)?;
        let slots = self.slots.copy(alloc)?;
        let leavers = no_leavers(alloc, self.slots.chips())?;
        let keys = Vec::with_capacity(alloc, self.places)?;
        let moved = Vec::with_capacity(alloc, self.places)?;
        Ok(RouterEngine {
            row,
            spare,
            places: self.places,
            slots,
            leavers,
            gathered: self.gathered,
            risen: 0,
            waited: 0,
            keys,
            moved,
        })
    }

    /// How many chips there are.
    pub fn chips(&self) -> usize
        ensures value { result ≡ length self.now.buffers }
        ensures few { result ≤ 4096 }
    {
        self.slots.chips()
    }

    /// How many messages stand at a chip.
    pub fn len(&self, chip: usize) -> usize
        requires chip { chip < length self.now.buffers }
        ensures value { result ≡ length (nth_or_nil self.now.buffers chip) }
        ensures most { result ≤ 15 }
        ensures few { length self.now.buffers ≤ 4096 }
    {
        self.slots.len(chip)
    }

    /// The first chip from this one on at which a message has arrived; as many as there are, if there is none. What is
    /// known of the chips that stand beside it goes from chip to chip.
    pub fn next_arrived(&self, known: &mut Arrivals, sizes: Shape, from: usize) -> usize
        requires from { from ≤ length self.now.buffers }
        requires within { All (λ ms. length ms ≤ sizes.room) self.now.buffers }
        requires known { HaveArrivedAt known.old from self.now.buffers }
        ensures known { HaveArrivedAt known.new from self.now.buffers }
        ensures none { (c : ℕ) → from ≤ c → c < result → list_any has_arrived (nth_or_nil self.now.buffers c) ≡ false }
        ensures from { from ≤ result }
        ensures most { result ≤ length self.now.buffers }
        ensures arrived { result < length self.now.buffers
            → list_any has_arrived (nth_or_nil self.now.buffers result) ≡ true }
    {
        self.slots.next_arrived(known, from, sizes)
    }

    /// The messages that stand at a chip, in order of arrival, where all have been gathered.
    pub fn buffer(&self, chip: usize) -> &[Message]
        requires chip { chip < length self.now.buffers }
        requires gathered { IsTrue self.now.gathered }
        ensures value { result.now ≡ nth_or_nil self.now.buffers chip }
    {
        read_out(&self.row, &self.slots, chip)
    }

    /// Makes of each chip's messages one slice of the row, if anything has moved since they were that.
    pub fn gather(&mut self)
        ensures value { self.new.buffers ≡ self.old.buffers }
        ensures gathered { IsTrue self.new.gathered }
    {
        if !self.gathered {
            self.gather_anew();
        }
    }

    /// Gives all messages new places, chip by chip, and with these all places back that nobody needs.
    #[tactic(auto, using(crate::proofs::Rising::none_rising))]
    fn gather_anew(&mut self)
        ensures value { self.new.buffers ≡ self.old.buffers }
        ensures gathered { IsTrue self.new.gathered }
        ensures free { 4 ≤ self.new.free }
    {
        compact(&self.row, &mut self.spare, &mut self.slots);
        mem::swap(&mut self.row, &mut self.spare);
        self.gathered = true;
        self.risen = 0;
        self.waited = 0;
    }

    /// Makes places for all that a chip takes in at once.
    fn make_places(&mut self)
        ensures value { self.new.buffers ≡ self.old.buffers }
        ensures free { 4 ≤ self.new.free }
    {
        if self.places - self.row.len() < MOST_INJECTED {
            self.gather_anew();
        }
    }

    /// Takes out all messages.
    pub fn clear(&mut self)
        ensures value { self.new.buffers ≡ tabulate 0 (length self.old.buffers) (λ c. []) }
        ensures gathered { IsTrue self.new.gathered }
    {
        self.row.clear();
        self.slots.clear();
        self.gathered = true;
        self.risen = 0;
        self.waited = 0;
    }

    /// A message comes to stand last at a chip.
    pub fn arrive(&mut self, chip: usize, message: Message)
        requires chip { chip < length self.old.buffers }
        requires room { length (nth_or_nil self.old.buffers chip) < 15 }
        ensures value { self.new.buffers
            ≡ slice_set self.old.buffers chip (nth_or_nil self.old.buffers chip ++ message ∷ []) }
    {
        self.make_places();
        self.stand(chip, &message);
    }

    /// The same where there is a place.
    fn stand(&mut self, chip: usize, message: &Message)
        requires chip { chip < length self.old.buffers }
        requires free { 0 < self.old.free }
        requires room { length (nth_or_nil self.old.buffers chip) < 15 }
        ensures value { self.new.buffers
            ≡ slice_set self.old.buffers chip (nth_or_nil self.old.buffers chip ++ message.now ∷ []) }
    {
        stand(&mut self.row, &mut self.slots, chip, message);
        self.gathered = false;
    }

    /// Messages that processors of a chip send come to stand last there, where there are places. The log tells of each.
    /// Whose they are, as a plane.
    fn store_injected(
        &mut self,
        at: usize,
        senders: Senders,
        chip: &ChipRecords<'_>,
        here: u16,
        dims: u8,
        clock: u64,
        log: &mut Vec<Event>,
    ) -> Plane
        requires at { at < length self.old.buffers }
        requires free { length senders ≤ self.old.free }
        requires room { length (nth_or_nil self.old.buffers at) + length senders ≤ 15 }
        requires dims { dims ≤ 12 }
        requires log_room { length senders ≤ log_room log.old }
        ensures taken { IsPlane result (λ p. is_among p senders) }
        ensures value { self.new.buffers ≡ slice_set self.old.buffers at
            (nth_or_nil self.old.buffers at ++ messages_sent dims clock here chip.now senders) }
        ensures log { log.new.items
            ≡ log.old.items ++ map event.Injected (messages_sent dims clock here chip.now senders) }
        ensures len { vec_len log.new ≡ vec_len log.old + length senders }
        ensures capacity { vec_capacity log.old ≤ vec_capacity log.new }
    {
        self.gathered = false;
        store_injected(
            &mut self.row,
            &mut self.slots,
            at,
            senders,
            chip,
            here,
            dims,
            clock,
            log,
        )
    }

    /// Whether no message stands here.
    pub fn is_empty(&self) -> bool
        ensures none { IsTrue result ↔ All (λ ms. ms ≡ []) self.now.buffers }
    {
        self.slots.is_within(0)
    }

    /// Whether at no chip stand more messages than this.
    pub fn is_within(&self, room: u8) -> bool
        ensures within { IsTrue result ↔ All (λ ms. length ms ≤ room) self.now.buffers }
    {
        self.slots.is_within(usize::from(room))
    }

    /// The first chip from this one on at which an injection may change something; as many as there are, if there is
    /// none.
    pub fn next_injecting(&self, sizes: Shape, run: &Run, from: usize) -> usize
        requires run { length run.now ≡ length self.now.buffers }
        requires from { from ≤ length self.now.buffers }
        ensures none { (c : ℕ) → from ≤ c → c < result
            → IsPassedOver sizes.room (nth_or_nil self.now.buffers c) (chip_at run.now c) }
        ensures from { from ≤ result }
        ensures most { result ≤ length self.now.buffers }
    {
        let chips = self.chips() as u16;
        let mut chip = from as u16;
        while chip < chips && self.is_passed_over(sizes, run, chip) {
            chip += 1;
        }
        usize::from(chip)
    }

    /// Whether an injection surely changes nothing at a chip: nobody is acknowledged there, and nobody asks to send or
    /// no room is left.
    fn is_passed_over(&self, sizes: Shape, run: &Run, chip: u16) -> bool
        requires chip { chip < length self.now.buffers }
        requires run { length run.now ≡ length self.now.buffers }
        ensures passed { IsTrue result
            → IsPassedOver sizes.room (nth_or_nil self.now.buffers chip) (chip_at run.now chip) }
    {
        !chip_is_acknowledged(run, chip)
            && (!chip_asks(run, chip) || self.is_full(sizes, usize::from(chip)))
    }

    /// Whether no room is left at a chip: somebody stands in the last place.
    fn is_full(&self, sizes: Shape, chip: usize) -> bool
        requires chip { chip < length self.now.buffers }
        ensures full { IsTrue result → sizes.room ≤ length (nth_or_nil self.now.buffers chip) }
    {
        self.slots.is_taken(chip, usize::from(sizes.room - 1))
    }

    /// At one chip, takes in messages of the processors that ask to send, by number, at most four and
    /// at most as many as there is room for. The log tells of each. The chip stands at place `chip` here and in
    /// the run; `here` is its number in the machine. The records go from chip to chip.
    pub fn inject(
        &mut self,
        sizes: Shape,
        run: &mut Run,
        records: &mut Records,
        chip: u16,
        here: u16,
        clock: u64,
        log: &mut Vec<Event>,
    )
        requires chip { chip < length self.old.buffers }
        requires run { length run.old ≡ length self.old.buffers }
        requires records { AreRecords records.old run.old }
        requires within { All (λ ms. length ms ≤ sizes.room) self.old.buffers }
        requires log_room { 4 ≤ log_room log.old }
        ensures value { self.new.buffers ≡ slice_set self.old.buffers chip (nth_or_nil self.old.buffers chip
            ++ sent_here sizes.dims sizes.room clock here (nth_or_nil self.old.buffers chip) (chip_at run.old chip)) }
        ensures chip { run.new ≡ slice_set run.old chip (chip_after_injection
            (taken_here sizes.room (nth_or_nil self.old.buffers chip) (chip_at run.old chip)) (chip_at run.old chip)) }
        ensures log { log.new.items ≡ log.old.items ++ map event.Injected
            (sent_here sizes.dims sizes.room clock here (nth_or_nil self.old.buffers chip) (chip_at run.old chip)) }
        ensures records { AreRecords records.new run.new }
        ensures len { vec_len log.new ≤ vec_len log.old + 4 }
        ensures capacity { vec_capacity log.old ≤ vec_capacity log.new }
        ensures within { All (λ ms. length ms ≤ sizes.room) self.new.buffers }
    {
        let at = usize::from(chip);
        let room = usize::from(sizes.room) - self.len(at);
        if room == 0 || !chip_asks(run, chip) {
            take_none(run, chip);
            return;
        }
        let asking = asking(run, chip);
        let senders = Senders::first(asking, room);
        self.make_places();
        records.look(run, chip);
        let chip_records = records.of(run, chip);
        let taken = self.store_injected(at, senders, &chip_records, here, sizes.dims, clock, log);
        acknowledge(run, chip, asking, taken);
    }

    /// The messages cross a dimension that the 2^`span` chips span, as the machine routes. The first chip is chip
    /// `first` of it.
    pub fn cross(&mut self, sizes: Shape, span: u8, routing: &Routing, first: u16, dim: u8)
        requires cube { routing.now.cuts.dims ≡ sizes.dims }
        requires dim { dim < span }
        requires count { length self.old.buffers ≡ 2 ^ span }
        requires begins { first % 2 ^ span ≡ 0 }
        requires band { first + 2 ^ span ≤ 2 ^ sizes.dims }
        requires within { All (λ ms. length ms ≤ sizes.room) self.old.buffers }
        ensures value { self.new.buffers ≡ each_chip span (λ c. buffer_after_dimension
            (way_of (routing_of routing.now) (first + c) dim) sizes.room dim (nth_or_nil self.old.buffers c)
            (outgoing (way_of (routing_of routing.now) (first + c) dim) sizes.room dim
            (nth_or_nil self.old.buffers (bit_xor c (2 ^ dim))))) }
        ensures count { length self.new.buffers ≡ 2 ^ span }
        ensures within { All (λ ms. length ms ≤ sizes.room) self.new.buffers }
    {
        if routing.rule == Rule::Oldest && span == sizes.dims {
            self.rank();
        }
        self.cross_in_order(sizes, span, routing, first, dim);
    }

    /// Puts the row in the order of age, if it is not, and if it pays.
    fn rank(&mut self)
        ensures value { self.new.buffers ≡ self.old.buffers }
    {
        self.look_at_order();
        if self.risen < self.row.len() && self.waited <= PATIENCE {
            self.waited += 1;
            if self.waited > PATIENCE {
                self.rank_anew();
                self.look_at_order();
            }
        }
    }

    /// Looks how many of the first messages of the row stand in the order of age.
    fn look_at_order(&mut self)
        ensures value { self.new ≡ self.old }
    {
        self.risen = risen_to(&self.row, self.risen);
    }

    /// Gives all messages new places in the row, in the order of age.
    fn rank_anew(&mut self)
        ensures value { self.new.buffers ≡ self.old.buffers }
    {
        sort_numbers(&self.row, &mut self.keys);
        if rearrange(&self.row, &self.keys, &mut self.spare, &mut self.moved) {
            renumber(&mut self.slots, &self.moved);
            mem::swap(&mut self.row, &mut self.spare);
            self.gathered = false;
            self.risen = 0;
        }
    }

    /// The same where what is known of the row's order stays so.
    fn cross_in_order(&mut self, sizes: Shape, span: u8, routing: &Routing, first: u16, dim: u8)
        requires cube { routing.now.cuts.dims ≡ sizes.dims }
        requires dim { dim < span }
        requires count { length self.old.buffers ≡ 2 ^ span }
        requires begins { first % 2 ^ span ≡ 0 }
        requires band { first + 2 ^ span ≤ 2 ^ sizes.dims }
        requires within { All (λ ms. length ms ≤ sizes.room) self.old.buffers }
        ensures value { self.new.buffers ≡ each_chip span (λ c. buffer_after_dimension
            (way_of (routing_of routing.now) (first + c) dim) sizes.room dim (nth_or_nil self.old.buffers c)
            (outgoing (way_of (routing_of routing.now) (first + c) dim) sizes.room dim
            (nth_or_nil self.old.buffers (bit_xor c (2 ^ dim))))) }
        ensures count { length self.new.buffers ≡ 2 ^ span }
        ensures within { All (λ ms. length ms ≤ sizes.room) self.new.buffers }
    {
        let in_order = self.risen == self.row.len();
        let gone = self.leavers.as_mut_slice();
        cross(
            &self.row,
            in_order,
            &mut self.slots,
            sizes,
            span,
            routing,
            first,
            dim,
            gone,
        );
        self.gathered = false;
    }

    /// The first half of a dimension by itself: what leaves each chip is taken out, and written down as it
    /// arrives across.
    pub fn leave(
        &mut self,
        sizes: Shape,
        routing: &Routing,
        first: u16,
        dim: u8,
        leavers: &mut [Option<Message>],
    )
        requires cube { routing.now.cuts.dims ≡ sizes.dims }
        requires dim { dim < sizes.dims }
        requires count { length leavers.old ≡ length self.old.buffers }
        requires band { first + length self.old.buffers ≤ 2 ^ sizes.dims }
        requires within { All (λ ms. length ms ≤ sizes.room) self.old.buffers }
        ensures value { self.new.buffers ≡ tabulate 0 (length self.old.buffers) (λ c. without
            (nth_or_nil self.old.buffers c) (leaving_place (way_of (routing_of routing.now) (first + c) dim)
            sizes.room dim (nth_or_nil self.old.buffers c))) }
        ensures going { leavers.new ≡ tabulate 0 (length self.old.buffers) (λ c. outgoing
            (way_of (routing_of routing.now) (first + c) dim) sizes.room dim (nth_or_nil self.old.buffers c)) }
        ensures within { All (λ ms. length ms ≤ sizes.room) self.new.buffers }
        ensures space { (c : ℕ) → c < length self.old.buffers → is_cut (routing_of routing.now) (first + c) dim ≡ false
            → length (nth_or_nil self.new.buffers c) < sizes.room }
    {
        let gone = self.leavers.as_mut_slice();
        leave(&self.row, &mut self.slots, sizes, routing, first, dim, gone);
        collect(&self.row, gone, leavers);
        self.gathered = false;
    }

    /// The second half by itself: each chip takes in what was written down for it, behind all that stand
    /// there. Nothing is written down then. Where something is, there is room for it.
    pub fn take_in(&mut self, sizes: Shape, leavers: &mut [Option<Message>])
        requires count { length leavers.old ≡ length self.old.buffers }
        requires within { All (λ ms. length ms ≤ sizes.room) self.old.buffers }
        requires space { (c : ℕ) → c < length self.old.buffers
            → (slice_index_or leavers.old c None ≡ None) ⊎ (length (nth_or_nil self.old.buffers c) < sizes.room) }
        ensures value { self.new.buffers ≡ tabulate 0 (length self.old.buffers)
            (λ c. nth_or_nil self.old.buffers c ++ option_to_list (slice_index_or leavers.old c None)) }
        ensures blank { All (λ leaver. leaver ≡ None) leavers.new }
        ensures within { All (λ ms. length ms ≤ sizes.room) self.new.buffers }
    {
        for chip in 0..leavers.len() {
            if let Some(message) = leavers[chip] {
                self.arrive(chip, message);
                leavers[chip] = None;
            }
        }
    }

    /// At one chip, delivers what has arrived: each message from the front whose processor can receive,
    /// at most one to each. It is written down, and put down at its processor later: so the run is told as it is after
    /// that. The log tells of each. Place and number of the chip are as for `inject`.
    pub fn deliver(
        &mut self,
        sizes: Shape,
        run: &Run,
        deliveries: &mut Deliveries,
        chip: u16,
        here: u16,
        log: &mut Vec<Event>,
    )
        requires chip { chip < length self.old.buffers }
        requires run { length run.now ≡ length self.old.buffers }
        requires within { All (λ ms. length ms ≤ sizes.room) self.old.buffers }
        requires before { AreBefore chip deliveries.old }
        requires space { length deliveries.old + 15 ≤ 128 }
        requires log_room { sizes.room ≤ log_room log.old }
        ensures value { self.new.buffers ≡ slice_set self.old.buffers chip
            (kept_here (nth_or_nil self.old.buffers chip) (chip_at (run_after deliveries.old run.now) chip)) }
        ensures chip { run_after deliveries.new run.now ≡ slice_set (run_after deliveries.old run.now) chip
            (chip_after_delivery (delivered_here (nth_or_nil self.old.buffers chip)
            (chip_at (run_after deliveries.old run.now) chip)) (chip_at (run_after deliveries.old run.now) chip)) }
        ensures before { AreBefore (chip + 1) deliveries.new }
        ensures log { log.new.items ≡ log.old.items ++ map (λ m. event.Delivered here m)
            (delivered_here (nth_or_nil self.old.buffers chip) (chip_at (run_after deliveries.old run.now) chip)) }
        ensures len { vec_len log.new ≤ vec_len log.old + sizes.room }
        ensures capacity { vec_capacity log.old ≤ vec_capacity log.new }
        ensures within { All (λ ms. length ms ≤ sizes.room) self.new.buffers }
    {
        deliver_at(&self.row, &mut self.slots, run, deliveries, chip, here, log);
        self.gathered = false;
    }
}

/// Room for who leaves so many chips.
fn no_leavers(alloc: Global, chips: usize) -> Result<Vec<Option<Ticket>>, NoMemory>
    ensures count { IfOk result (λ leavers. length leavers.items ≡ chips) }
{
    Ok(vec![in alloc; None; chips]?)
}
