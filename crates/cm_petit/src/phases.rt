//! The phases of a petit cycle where each chip has a log: for parts of a machine, and for the laboratory. Each phase
//! goes through all chips before the next begins.

ghost use Rattle.std.specs.Prelude.{◌≡◌, ℕ, ◌+◌, ◌^◌, ◌≤◌, List, length, map};
ghost use Rattle.std.specs.List.{All, range_with_len};
ghost use Rattle.cm_model.specs.declared.message.Event.{Event as Told};
ghost use Rattle.cm_model.specs.Array.{Chips};
ghost use Rattle.cm_model.specs.Steps.{Inject, Cross, Deliver};
ghost use Rattle.cm_model.specs.Buffers.{after_steps};
ghost use Rattle.cm_model.specs.Wiring.{Routing as Routes};
ghost use Rattle.cm_blocks.specs.Parcels.{Blank};
ghost use Rattle.cm_blocks.specs.Steps.{part_after};
ghost use Rattle.cm_router.specs.Routes.{routing_of};
ghost use Rattle.cm_router.specs.Logs.{log_rooms_of, HaveLogRoom, LoseAtMost};
ghost use Rattle.cm_petit.specs.Routers.{machine_from, part_from_logs, AreRouters};

use cm_element::Run;
use cm_message::Event;
use cm_router::{Deliveries, Records, Routing, is_idle, pass_over};
use cm_router_engine::{Arrivals, RouterEngine, Shape};

/// Every router of a run of chips takes in messages of its chip's processors. The run begins at chip `first` of
/// the machine. A chip that this leaves as it is is passed over.
pub fn inject(
    sizes: Shape,
    first: u16,
    run: &mut Run,
    crossing: &mut RouterEngine,
    logs: &mut [Vec<Event>],
    clock: u64,
)
    requires band { first + length run.old ≤ 2 ^ sizes.dims }
    requires routers { AreRouters (length run.old) sizes.room run.old crossing.old.buffers logs.old }
    requires log_room { HaveLogRoom 4 (log_rooms_of logs.old) }
    ensures value { (routing : Routes)
        → part_from_logs routing first (length run.old) run.new crossing.new.buffers logs.new clock
        ≡ part_after sizes.dims sizes.room Inject Blank
        (part_from_logs routing first (length run.old) run.old crossing.old.buffers logs.old clock) }
    ensures routers { AreRouters (length run.old) sizes.room run.new crossing.new.buffers logs.new }
    ensures log_room { LoseAtMost 4 (log_rooms_of logs.old) (log_rooms_of logs.new) }
{
    if is_idle(run) {
        return;
    }
    let mut records = Records::new();
    let mut c = crossing.next_injecting(sizes, run, 0);
    while c < logs.len() {
        let chip = c as u16;
        let here = first + chip;
        crossing.inject(sizes, run, &mut records, chip, here, clock, &mut logs[c]);
        c = crossing.next_injecting(sizes, run, c + 1);
    }
}

/// Messages of a whole machine cross each dimension, from the lowest on. Where no message stands nothing is done.
pub fn cross_all(sizes: Shape, routing: &Routing, crossing: &mut RouterEngine)
    requires cube { routing.now.cuts.dims ≡ sizes.dims }
    requires count { length crossing.old.buffers ≡ 2 ^ sizes.dims }
    requires within { All (λ ms. length ms ≤ sizes.room) crossing.old.buffers }
    ensures value { (chips : Chips) (logs : List (List Told)) (clock : ℕ)
        → machine_from (routing_of routing.now) chips crossing.new.buffers logs clock
        ≡ after_steps sizes.dims sizes.room
        (machine_from (routing_of routing.now) chips crossing.old.buffers logs clock)
        (map Cross (range_with_len 0 sizes.dims)) }
    ensures count { length crossing.new.buffers ≡ 2 ^ sizes.dims }
    ensures within { All (λ ms. length ms ≤ sizes.room) crossing.new.buffers }
{
    if crossing.is_empty() {
        return;
    }
    for dim in 0..sizes.dims {
        crossing.cross(sizes, sizes.dims, routing, 0, dim);
    }
}

/// Messages of a run of chips that have arrived go to their processors. The run begins at chip `first` of the
/// machine. A chip at which none has arrived is passed over.
pub fn deliver(
    sizes: Shape,
    first: u16,
    run: &mut Run,
    crossing: &mut RouterEngine,
    logs: &mut [Vec<Event>],
)
    requires band { first + length run.old ≤ 2 ^ sizes.dims }
    requires routers { AreRouters (length run.old) sizes.room run.old crossing.old.buffers logs.old }
    requires log_room { HaveLogRoom sizes.room (log_rooms_of logs.old) }
    ensures value { (routing : Routes) (clock : ℕ)
        → part_from_logs routing first (length run.old) run.new crossing.new.buffers logs.new (clock + 1)
        ≡ part_after sizes.dims sizes.room Deliver Blank
        (part_from_logs routing first (length run.old) run.old crossing.old.buffers logs.old clock) }
    ensures routers { AreRouters (length run.old) sizes.room run.new crossing.new.buffers logs.new }
    ensures log_room { LoseAtMost sizes.room (log_rooms_of logs.old) (log_rooms_of logs.new) }
{
    pass_over(run);
    let mut deliveries = Deliveries::new();
    let mut known = Arrivals::new();
    let mut c = crossing.next_arrived(&mut known, sizes, 0);
    while c < logs.len() {
        deliveries.make_room(run);
        let chip = c as u16;
        crossing.deliver(
            sizes,
            run,
            &mut deliveries,
            chip,
            first + chip,
            &mut logs[c],
        );
        c = crossing.next_arrived(&mut known, sizes, c + 1);
    }
    deliveries.put_down(run);
}
