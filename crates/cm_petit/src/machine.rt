//! The petit cycle of a whole machine: all its events go into one row, one behind the other.

ghost use Rattle.std.specs.Prelude.{◌≡◌, ℕ, ◌+◌, ◌*◌, ◌^◌, ◌<◌, ◌≤◌, List, length, vec_len, vec_capacity};
ghost use Rattle.cm_model.specs.declared.act.Act.TheVariants as act;
ghost use Rattle.cm_model.specs.declared.message.Event.{Event as Told};
ghost use Rattle.cm_model.specs.Steps.{Inject, Deliver};
ghost use Rattle.cm_model.specs.Buffers.{after_act};
ghost use Rattle.cm_model.specs.Wiring.{Routing as Routes};
ghost use Rattle.cm_blocks.specs.Parcels.{Blank};
ghost use Rattle.cm_blocks.specs.Steps.{part_after};
ghost use Rattle.cm_router.specs.Routes.{routing_of};
ghost use Rattle.cm_router.specs.Logs.{log_room};
ghost use Rattle.cm_router.specs.Rows.{with_row};
ghost use Rattle.cm_petit.specs.Routers.{machine_from, part_from, HaveBuffers};

use crate::phases::cross_all;
use cm_element::Run;
use cm_message::Event;
use cm_router::{Deliveries, Records, Routing, is_idle, pass_over};
use cm_router_engine::{Arrivals, RouterEngine, Shape};

/// One petit cycle of a whole machine: every router takes messages in, they cross each dimension, from the lowest on,
/// and those that have arrived go to their processors (a dimension at a time: Hillis 1985; the order: ours). The
/// counter is one more then. All events go into one row: behind logs by chip the row stands for more events of each.
pub fn cycle(
    sizes: Shape,
    routing: &Routing,
    run: &mut Run,
    crossing: &mut RouterEngine,
    row: &mut Vec<Event>,
    clock: &mut u64,
)
    requires cube { routing.now.cuts.dims ≡ sizes.dims }
    requires buffers { HaveBuffers (2 ^ sizes.dims) sizes.room run.old crossing.old.buffers }
    requires log_room { 2 ^ sizes.dims * (4 + sizes.room) ≤ log_room row.old }
    requires counter { clock.old < 2 ^ 63 }
    ensures value { (logs : List (List Told)) → length logs ≡ 2 ^ sizes.dims
        → machine_from (routing_of routing.now) run.new crossing.new.buffers (with_row logs row.new.items) clock.new
        ≡ after_act sizes.dims sizes.room
        (machine_from (routing_of routing.now) run.old crossing.old.buffers (with_row logs row.old.items) clock.old)
        act.Cycle }
    ensures counter { clock.new ≡ clock.old + 1 }
    ensures buffers { HaveBuffers (2 ^ sizes.dims) sizes.room run.new crossing.new.buffers }
    ensures len { vec_len row.new ≤ vec_len row.old + 2 ^ sizes.dims * (4 + sizes.room) }
    ensures capacity { vec_capacity row.old ≤ vec_capacity row.new }
{
    inject(sizes, run, crossing, row, *clock);
    *clock += 1;
    if crossing.is_empty() {
        pass_over(run);
        return;
    }
    cross_all(sizes, routing, crossing);
    deliver(sizes, run, crossing, row);
}

/// Every router takes in messages of its chip's processors. A chip that this leaves as it is is passed over.
fn inject(
    sizes: Shape,
    run: &mut Run,
    crossing: &mut RouterEngine,
    row: &mut Vec<Event>,
    clock: u64,
)
    requires buffers { HaveBuffers (2 ^ sizes.dims) sizes.room run.old crossing.old.buffers }
    requires log_room { 2 ^ sizes.dims * 4 ≤ log_room row.old }
    ensures value { (routing : Routes) (logs : List (List Told)) → length logs ≡ 2 ^ sizes.dims
        → part_from routing 0 (2 ^ sizes.dims) run.new crossing.new.buffers (with_row logs row.new.items) clock
        ≡ part_after sizes.dims sizes.room Inject Blank
        (part_from routing 0 (2 ^ sizes.dims) run.old crossing.old.buffers (with_row logs row.old.items) clock) }
    ensures buffers { HaveBuffers (2 ^ sizes.dims) sizes.room run.new crossing.new.buffers }
    ensures len { vec_len row.new ≤ vec_len row.old + 2 ^ sizes.dims * 4 }
    ensures capacity { vec_capacity row.old ≤ vec_capacity row.new }
{
    if is_idle(run) {
        return;
    }
    let chips = run.chips();
    let mut records = Records::new();
    let mut c = crossing.next_injecting(sizes, run, 0);
    while c < chips {
        let chip = c as u16;
        crossing.inject(sizes, run, &mut records, chip, chip, clock, row);
        c = crossing.next_injecting(sizes, run, c + 1);
    }
}

/// Messages that have arrived go to their processors. A chip at which none has arrived is passed over.
fn deliver(sizes: Shape, run: &mut Run, crossing: &mut RouterEngine, row: &mut Vec<Event>)
    requires buffers { HaveBuffers (2 ^ sizes.dims) sizes.room run.old crossing.old.buffers }
    requires log_room { 2 ^ sizes.dims * sizes.room ≤ log_room row.old }
    ensures value { (routing : Routes) (logs : List (List Told)) (clock : ℕ) → length logs ≡ 2 ^ sizes.dims
        → part_from routing 0 (2 ^ sizes.dims) run.new crossing.new.buffers (with_row logs row.new.items) (clock + 1)
        ≡ part_after sizes.dims sizes.room Deliver Blank
        (part_from routing 0 (2 ^ sizes.dims) run.old crossing.old.buffers (with_row logs row.old.items) clock) }
    ensures buffers { HaveBuffers (2 ^ sizes.dims) sizes.room run.new crossing.new.buffers }
    ensures len { vec_len row.new ≤ vec_len row.old + 2 ^ sizes.dims * sizes.room }
    ensures capacity { vec_capacity row.old ≤ vec_capacity row.new }
{
    pass_over(run);
    let chips = run.chips();
    let mut deliveries = Deliveries::new();
    let mut known = Arrivals::new();
    let mut c = crossing.next_arrived(&mut known, sizes, 0);
    while c < chips {
        deliveries.make_room(run);
        let chip = c as u16;
        crossing.deliver(sizes, run, &mut deliveries, chip, chip, row);
        c = crossing.next_arrived(&mut known, sizes, c + 1);
    }
    deliveries.put_down(run);
}
