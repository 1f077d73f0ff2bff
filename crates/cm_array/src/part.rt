//! Parts of a machine: some of its chips, one after another, with what stands at them.

ghost use Rattle.std.specs.Prelude.{◌≡◌, ℕ, ◌+◌, ◌<◌, ◌≤◌, ◌^◌, ◌++◌, [], true, None, IsTrue, length};
ghost use Rattle.std.specs.Prelude.{◌⊎◌, IfOk, OnOk, false, slice_index_or, slice_set};
ghost use Rattle.std.specs.List.{All};
ghost use Rattle.cm_model.specs.Array.{nth_or_nil};
ghost use Rattle.cm_model.specs.Keeping.{AreSizes};
ghost use Rattle.cm_model.specs.Wiring.{is_cut};
ghost use Rattle.cm_model.specs.Steps.{Cross};
ghost use Rattle.cm_blocks.specs.Parcels.{Mail, due};
ghost use Rattle.cm_blocks.specs.Steps.{less, absorbed};
ghost use Rattle.cm_blocks.specs.Parts.{sliced, chip_in, buffer_in, log_in};
ghost use Rattle.cm_router.specs.Routes.{routing_of};
ghost use Rattle.cm_array.specs.Parts.{AreParts};
ghost use Rattle.cm_array.specs.Cuts.{IsCut, IsLaid, IsRoomFor};

use crate::chip_state::ChipState;
use crate::put::route_as;
use crate::row::lay_told;
use cm_bits::NoMemory;
use cm_element::{ChipView, Run};
use cm_message::{Event, Message};
use cm_router::Routing;
use cm_router_engine::{RouterEngine, Shape};
use std::alloc::Global;
use std::marker::Model;
use std::mem;

/// Some chips of a machine, one after another by number, with their buffers and logs, the counter, how messages go, and
/// the working room to go on by themselves.
///
/// Contracts see of which cube they are, the part, how many events more each log takes before it has to
/// grow, and whether the messages can be read.
#[derive(Drop)]
pub struct Part {
    /// The number of the first chip.
    pub(crate) first: u16,
    /// The chips by place, the first at place 0.
    pub(crate) state: ChipState,
}

impl Model for Part {
    ghost use Rattle.cm_array.specs.Cuts.{PartView, part_view, IsPart};

    ghost Value = { PartView };

    ghost view = { λ part. part_view part.first part.state };

    ghost invariant = { λ part. IsPart part.first part.state };
}

impl Part {
    /// Exchanges its logs for those of its chips in a list by number, as far as this has them.
    pub(crate) fn exchange_logs(&mut self, logs: &mut [Vec<Event>]) {
        exchange(&mut self.state.logs, usize::from(self.first), logs);
    }

    /// The dimensions of the cube that its chips are of.
    pub fn dims(&self) -> u8
        ensures value { result ≡ self.now.dims }
        ensures sizes { AreSizes self.now.dims self.now.room }
    {
        self.state.shape.dims
    }

    /// The number of its first chip.
    pub fn first(&self) -> u16
        ensures value { result ≡ self.now.part.first }
    {
        self.first
    }

    /// How many chips it has.
    pub fn chips(&self) -> usize
        ensures value { result ≡ self.now.part.count }
    {
        self.state.run.chips()
    }

    /// Petit cycles so far.
    pub fn clock(&self) -> u64
        ensures value { result ≡ self.now.part.clock }
        ensures within { result < 2 ^ 63 }
    {
        self.state.clock
    }

    /// How messages go: which wires of the cube are cut, and the rule.
    pub fn routing(&self) -> &Routing
        ensures value { routing_of result.now ≡ self.now.part.routing }
        ensures cube { result.now.cuts.dims ≡ self.now.dims }
    {
        &self.state.routing
    }

    /// The chip of that number in the whole, to be read.
    pub fn chip(&self, number: u16) -> ChipView<'_>
        requires from { self.now.part.first ≤ number }
        requires below { number < self.now.part.first + self.now.part.count }
        ensures value { result ≡ chip_in self.now.part number }
    {
        self.state.run.view(number - self.first)
    }

    /// The messages that stand in the router of the chip of that number in the whole, in order of arrival.
    pub fn buffer(&self, number: u16) -> &[Message]
        requires from { self.now.part.first ≤ number }
        requires below { number < self.now.part.first + self.now.part.count }
        requires gathered { IsTrue self.now.gathered }
        ensures value { result.now ≡ buffer_in self.now.part number }
    {
        self.state.crossing.buffer(usize::from(number - self.first))
    }

    /// The events of the chip of that number in the whole, the oldest first.
    pub fn log(&self, number: u16) -> &[Event]
        requires from { self.now.part.first ≤ number }
        requires below { number < self.now.part.first + self.now.part.count }
        ensures value { result.now ≡ log_in self.now.part number }
    {
        &self.state.logs[usize::from(number - self.first)]
    }
}

impl Part {
    /// The first half of a dimension that leads out of it: what leaves each chip is taken out, and written down
    /// for the chip across.
    pub fn leave(&mut self, dim: u8, leavers: &mut [Option<Message>])
        requires dim { dim < self.old.dims }
        requires lanes { length leavers.old ≡ self.old.part.count }
        ensures value { self.new ≡ record self.old {
          part = less self.old.room (Cross dim) self.old.part;
          gathered = self.new.gathered;
        } }
        ensures going { Mail leavers.new ≡ due self.old.dims self.old.room (Cross dim) self.old.part }
        ensures space { (c : ℕ) → c < self.new.part.count
            → is_cut self.new.part.routing (self.new.part.first + c) dim ≡ false
            → length (nth_or_nil self.new.part.buffers c) < self.new.room }
    {
        self.state.crossing.leave(
            self.state.shape,
            &self.state.routing,
            self.first,
            dim,
            leavers,
        );
    }

    /// The second half: each chip takes in what was written down for it, behind all that stand there. The list is blank
    /// afterwards.
    pub fn take_in(&mut self, leavers: &mut [Option<Message>])
        requires lanes { length leavers.old ≡ self.old.part.count }
        requires space { (c : ℕ) → c < self.old.part.count → (slice_index_or leavers.old c None ≡ None)
            ⊎ (length (nth_or_nil self.old.part.buffers c) < self.old.room) }
        ensures value { (dim : ℕ) → self.new ≡ record self.old {
          part = absorbed self.old.dims self.old.room (Cross dim) (Mail leavers.old) self.old.part;
          gathered = self.new.gathered;
        } }
        ensures blank { All (λ leaver. leaver ≡ None) leavers.new }
    {
        self.state.crossing.take_in(self.state.shape, leavers);
    }

    /// Makes its messages readable, if any has moved since they were.
    pub fn gather(&mut self)
        ensures value { self.new ≡ record self.old { gathered = true } }
    {
        self.state.crossing.gather();
    }
}

/// Room for so many chips of a machine of this shape, whatever stands in it: that of a part which is not needed any
/// more, if it is of as many chips of such a machine, else new.
pub(crate) fn room_for(
    alloc: Global,
    shape: Shape,
    chips: u16,
    used: Option<Part>,
) -> Result<ChipState, NoMemory>
    requires few { chips ≤ 4096 }
    ensures value { IfOk result (λ state. IsRoomFor shape.dims shape.room chips state) }
{
    match used {
        Some(part)
            if part.chips() == usize::from(chips)
                && part.dims() == shape.dims
                && part.state.shape.room == shape.room => { Ok(part.state) }
        _ => ChipState::blank(alloc, shape, chips, 0),
    }
}

impl ChipState {
    /// Becomes the state of so many chips of a whole machine of the same shape, from `first` on.
    pub(crate) fn lay(&mut self, from: &ChipState, first: u16, count: u16) -> Result<(), NoMemory>
        requires from { AreParts from.now.shape.dims from.now.shape.room from.now }
        requires there { first + count ≤ 2 ^ from.now.shape.dims }
        requires room { IsRoomFor from.now.shape.dims from.now.shape.room count self.old }
        ensures value { OnOk result (IsCut first count from.now self.new) }
    {
        let at = usize::from(first);
        let chips = usize::from(count);
        lay_chips(&mut self.run, &from.run, first, count);
        lay_told(&mut self.logs, first, &from.logs[at..at + chips], &from.row)?;
        lay_all_buffers(&mut self.crossing, &from.crossing, at, chips);
        self.clock = from.clock;
        route_as(&mut self.routing, &from.routing);
        Ok(())
    }
}

/// Makes of all chips of a run some of those of another.
pub(crate) fn lay_chips(run: &mut Run, from: &Run, first: u16, count: u16)
    requires here { length run.old ≡ count }
    requires there { first + count ≤ length from.now }
    ensures value { run.new ≡ sliced first count from.now }
{
    run.lay(0, from, first, count);
}

/// Puts the messages of some chips in the place of all that stand elsewhere, at as many chips.
pub(crate) fn lay_all_buffers(
    crossing: &mut RouterEngine,
    from: &RouterEngine,
    first: usize,
    count: usize,
)
    requires here { length crossing.old.buffers ≡ count }
    requires there { first + count ≤ length from.now.buffers }
    requires gathered { IsTrue from.now.gathered }
    requires few { length from.now.buffers ≤ 4096 }
    requires within { All (λ ms. length ms ≤ 15) from.now.buffers }
    ensures value { crossing.new.buffers ≡ sliced first count from.now.buffers }
    ensures gathered { IsTrue crossing.new.gathered }
{
    crossing.clear();
    lay_buffers(crossing, 0, from, first, count);
    crossing.gather();
}

/// Copies the messages of so many chips, from `first` on, to as many others from `at` on, where none stand.
pub(crate) fn lay_buffers(
    to: &mut RouterEngine,
    at: usize,
    from: &RouterEngine,
    first: usize,
    count: usize,
)
    requires here { at + count ≤ length to.old.buffers }
    requires there { first + count ≤ length from.now.buffers }
    requires few { length to.old.buffers ≤ 4096 }
    requires few_there { length from.now.buffers ≤ 4096 }
    requires gathered { IsTrue from.now.gathered }
    requires within { All (λ ms. length ms ≤ 15) from.now.buffers }
    requires empty { (c : ℕ) → at ≤ c → nth_or_nil to.old.buffers c ≡ [] }
    ensures value { IsLaid at (sliced first count from.now.buffers) to.old.buffers to.new.buffers }
{
    for i in 0..count {
        arrive_all(to, at + i, from.buffer(first + i));
    }
}

/// Exchanges the logs of parts for those of their chips in a list by number.
pub(crate) fn exchange_all(parts: &mut [Part], logs: &mut [Vec<Event>]) {
    for part in parts {
        part.exchange_logs(logs);
    }
}

/// Exchanges logs for those from a place on in another list, as far as this has them.
fn exchange(logs: &mut [Vec<Event>], first: usize, others: &mut [Vec<Event>]) {
    let there = others.len().saturating_sub(first);
    for i in 0..logs.len().min(there) {
        mem::swap(&mut logs[i], &mut others[first + i]);
    }
}

/// Messages come to stand last at a chip, in their order.
fn arrive_all(to: &mut RouterEngine, chip: usize, messages: &[Message])
    requires chip { chip < length to.old.buffers }
    requires room { length (nth_or_nil to.old.buffers chip) + length messages.now ≤ 15 }
    ensures value { to.new.buffers
        ≡ slice_set to.old.buffers chip (nth_or_nil to.old.buffers chip ++ messages.now) }
{
    for message in messages {
        to.arrive(chip, *message);
    }
}
