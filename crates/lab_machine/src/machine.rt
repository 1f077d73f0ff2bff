//! A machine of the laboratory: its sizes are values, so its routers may have any room.

ghost use Rattle.std.specs.Prelude.{◌≡◌, ◌≢◌, ◌^◌, ◌<◌, ◌≤◌, IfOk, IfErr, OnOk, OnErr, IsTrue, Some, None, length};
ghost use Rattle.std.specs.Prelude.{[], IfSome, IsErrOf, IsOk};
ghost use Rattle.std.specs.List.{All};
ghost use Rattle.cm_model.specs.Keeping.{AreSizes};
ghost use Rattle.cm_model.specs.Array.{chip_at, nth_or_nil};
ghost use Rattle.cm_model.specs.Wiring.{is_cut};
ghost use Rattle.cm_model.specs.declared.act.Act.TheVariants as act;
ghost use Rattle.cm_model.specs.declared.act.Act.TheVariants.{Sense};
ghost use Rattle.lab_machine.specs.Machines.{lab_after, room_fault};
ghost use Rattle.cm_model.specs.Buffers.{machine_after_injection, machine_after_dimension, machine_after_delivery};

use crate::copying::{copied_engine, copied_logs, copied_run};
use crate::log_room::make_room;
use cm_array::{LAST_CLOCK, MOST_ROOM, MachineOf, Sizes, step};
use cm_bits::{NoMemory, Plane};
use cm_element::{ChipView, Run};
use cm_message::{Event, Message, Rule};
use cm_model::{Act, Nano};
use cm_petit::{cross_all, deliver, inject};
use cm_router::{MOST_INJECTED, Routing};
use cm_router_engine::{RouterEngine, Shape};
use std::alloc::Global;
use std::marker::Model;
use thiserror::Error;

/// Why a machine has not such a room.
#[derive(Clone, Copy, Debug, PartialEq, Eq, Error)]
pub enum RoomFault {
    #[error("a router has room for 1 to 15 messages, not {0}")]
    Room(u16),
    /// More messages stand in some router.
    #[error("more than {0} messages stand in a router")]
    Crowded(u16),
    #[error("out of memory")]
    Memory,
}

impl From<NoMemory> for RoomFault {
    ghost use Rattle.std.specs.Prelude.{◌≡◌};
    ghost use Rattle.lab_machine.specs.declared.machine.RoomFault.TheVariants.{Memory};

    ghost from_gives = { λ _ fault. fault ≡ Memory };

    fn from(_: NoMemory) -> RoomFault {
        RoomFault::Memory
    }
}

/// A machine of a cube of some dimensions, whose routers have some room.
///
/// Contracts see both, and the machine.
#[derive(Drop)]
pub struct LabMachine {
    shape: Shape,
    routing: Routing,
    run: Run,
    engine: RouterEngine,
    logs: Vec<Vec<Event>>,
    clock: u64,
}

impl Model for LabMachine {
    ghost use Rattle.lab_machine.specs.Machines.{LabView, lab_view, IsLabMachine};

    ghost Value = { LabView };

    ghost view = { λ lab. lab_view lab.shape.dims lab.shape.room lab.routing lab.run lab.engine.buffers
        lab.logs.items lab.clock };

    ghost invariant = { λ lab. IsLabMachine lab.shape.dims lab.shape.room lab.routing lab.run lab.engine.buffers
        lab.logs.items lab.clock lab.engine.gathered };
}

impl LabMachine {
    /// A machine as it is.
    pub fn own<S: Sizes>(alloc: Global, machine: &MachineOf<S>) -> Result<LabMachine, NoMemory>
        ensures value { IfOk result (λ lab. lab ≡ record { n = S.n; cap = S.cap; machine = machine.now.machine }) }
    {
        // For the prover alone: a call brings in what holds of every machine.
        let (_dims, _clock) = (machine.dims(), machine.clock());
        let engine = copied_engine(alloc, machine)?;
        LabMachine::around(alloc, machine, machine.room(), engine)
    }

    /// The same, with room for so many messages in each router.
    pub fn with_room<S: Sizes>(
        alloc: Global,
        machine: &MachineOf<S>,
        room: u16,
    ) -> Result<LabMachine, RoomFault>
        ensures value { IfOk result (λ lab. lab ≡ record { n = S.n; cap = room; machine = machine.now.machine }) }
        ensures fits { IfOk result (λ lab. room_fault room machine.now.machine.buffers ≡ None) }
        ensures refused { IfErr result (λ fault. fault ≢ RoomFault.Memory
            → room_fault room machine.now.machine.buffers ≡ Some fault) }
        ensures room { IfSome (room_fault room []) (λ fault. IsErrOf result fault) }
    {
        if room == 0 || usize::from(room) > MOST_ROOM {
            return Err(RoomFault::Room(room));
        }
        let engine = copied_engine(alloc, machine)?;
        if !engine.is_within(room as u8) {
            return Err(RoomFault::Crowded(room));
        }
        let lab = LabMachine::around(alloc, machine, room as u8, engine)?;
        Ok(lab)
    }

    /// The same around its messages, which fit into this room.
    fn around<S: Sizes>(
        alloc: Global,
        machine: &MachineOf<S>,
        room: u8,
        engine: RouterEngine,
    ) -> Result<LabMachine, NoMemory>
        requires some { 1 ≤ room }
        requires most { room ≤ 15 }
        requires messages { engine.buffers ≡ machine.now.machine.buffers }
        requires gathered { IsTrue engine.gathered }
        requires within { All (λ ms. length ms ≤ room) engine.buffers }
        ensures value { IfOk result (λ lab. lab ≡ record { n = S.n; cap = room; machine = machine.now.machine }) }
    {
        let dims = machine.dims();
        let clock = machine.clock();
        let run = copied_run(alloc, machine)?;
        let logs = copied_logs(alloc, machine)?;
        let routing = machine.routing().copy()?;
        let shape = Shape { dims, room };
        Ok(LabMachine {
            shape,
            routing,
            run,
            engine,
            logs,
            clock,
        })
    }

    /// The dimensions of its cube.
    pub fn dims(&self) -> u8
        ensures value { result ≡ self.now.n }
        ensures sizes { AreSizes self.now.n self.now.cap }
        ensures buffers { length self.now.machine.buffers ≡ 2 ^ self.now.n }
    {
        self.shape.dims
    }

    /// How many chips it has.
    pub fn chips(&self) -> u16
        ensures value { result ≡ 2 ^ self.now.n }
        ensures most { result ≤ 4096 }
        ensures sizes { AreSizes self.now.n self.now.cap }
    {
        1 << self.shape.dims
    }

    /// How many messages a router has room for.
    pub fn room(&self) -> u8
        ensures value { result ≡ self.now.cap }
        ensures sizes { AreSizes self.now.n self.now.cap }
    {
        self.shape.room
    }

    /// Petit cycles so far.
    pub fn clock(&self) -> u64
        ensures value { result ≡ self.now.machine.clock }
        ensures within { result < 2 ^ 63 }
    {
        self.clock
    }

    /// The chip of that number, to be read.
    pub fn chip(&self, number: u16) -> ChipView<'_>
        requires number { number < 2 ^ self.now.n }
        ensures value { result ≡ chip_at self.now.machine.chips number }
    {
        self.run.view(number)
    }

    /// The messages that stand in a chip's router, in order of arrival.
    pub fn buffer(&self, chip: u16) -> &[Message]
        requires chip { chip < 2 ^ self.now.n }
        ensures value { result.now ≡ nth_or_nil self.now.machine.buffers chip }
        ensures within { length result.now ≤ self.now.cap }
    {
        self.engine.buffer(usize::from(chip))
    }

    /// A chip's events, the oldest first.
    pub fn log(&self, chip: u16) -> &[Event]
        requires chip { chip < 2 ^ self.now.n }
        ensures value { result.now ≡ nth_or_nil self.now.machine.logs chip }
    {
        &self.logs[usize::from(chip)]
    }

    /// Whether a chip's wire over a dimension is cut.
    pub fn cut(&self, chip: u16, dim: u8) -> bool
        requires chip { chip < 2 ^ self.now.n }
        requires dim { dim < self.now.n }
        ensures value { result ≡ is_cut self.now.machine.routing chip dim }
        ensures sizes { AreSizes self.now.n self.now.cap }
    {
        self.routing.cuts.has(chip, dim)
    }

    /// By which rule its routers choose who leaves.
    pub fn rule(&self) -> Rule
        ensures value { result ≡ self.now.machine.routing.rule }
    {
        self.routing.rule
    }

    /// Does one act. It is refused for want of memory, and where the counter has no room for a petit cycle; the
    /// machine stays as it was then.
    pub fn go_on(&mut self, alloc: Global, act: &Act) -> Result<(), NoMemory>
        ensures ok { OnOk result (self.new ≡ lab_after self.old act.now) }
        ensures sense { act.now ≡ Sense → IsOk result }
        ensures err { OnErr result (self.new ≡ self.old) }
    {
        // For the prover alone: a call brings in what holds of every machine.
        let _dims = self.dims();
        match act {
            Act::Nano(nano) => self.instruct(alloc, nano),
            Act::Sense => Ok(()),
            Act::Cycle => self.cycle(),
        }
    }

    fn instruct(&mut self, alloc: Global, nano: &Nano) -> Result<(), NoMemory>
        ensures ok { OnOk result (self.new ≡ lab_after self.old (act.Nano nano.now)) }
        ensures err { OnErr result (self.new ≡ self.old) }
    {
        let chips = usize::from(self.chips());
        let mut sent = blank_planes(alloc, chips)?;
        let mut incoming = blank_planes(alloc, chips)?;
        self.step(nano, &mut sent, &mut incoming);
        Ok(())
    }

    /// The same with working room.
    fn step(&mut self, nano: &Nano, sent: &mut [Plane], incoming: &mut [Plane])
        requires sent_count { length sent.old ≡ 2 ^ self.old.n }
        requires incoming_count { length incoming.old ≡ 2 ^ self.old.n }
        ensures value { self.new ≡ lab_after self.old (act.Nano nano.now) }
    {
        step(self.shape.dims, &mut self.run, nano, sent, incoming);
    }

    fn cycle(&mut self) -> Result<(), NoMemory>
        ensures ok { OnOk result (self.new ≡ lab_after self.old act.Cycle) }
        ensures err { OnErr result (self.new ≡ self.old) }
    {
        if self.clock == LAST_CLOCK {
            return Err(NoMemory);
        }
        make_room(&mut self.logs, MOST_INJECTED + usize::from(self.shape.room))?;
        inject(
            self.shape,
            0,
            &mut self.run,
            &mut self.engine,
            &mut self.logs,
            self.clock,
        );
        cross_all(self.shape, &self.routing, &mut self.engine);
        deliver(
            self.shape,
            0,
            &mut self.run,
            &mut self.engine,
            &mut self.logs,
        );
        self.clock += 1;
        self.engine.gather();
        Ok(())
    }

    /// Every router takes messages in: the first step of a petit cycle.
    pub fn inject(&mut self) -> Result<(), NoMemory>
        ensures ok { OnOk result (self.new ≡ record self.old {
          machine = machine_after_injection self.old.n self.old.cap self.old.machine;
        }) }
        ensures err { OnErr result (self.new ≡ self.old) }
    {
        make_room(&mut self.logs, MOST_INJECTED)?;
        inject(
            self.shape,
            0,
            &mut self.run,
            &mut self.engine,
            &mut self.logs,
            self.clock,
        );
        self.engine.gather();
        Ok(())
    }

    /// Messages cross a dimension.
    pub fn cross(&mut self, dim: u8)
        requires dim { dim < self.old.n }
        ensures value { self.new ≡ record self.old {
          machine = machine_after_dimension self.old.n self.old.cap dim self.old.machine;
        } }
    {
        self.engine
            .cross(self.shape, self.shape.dims, &self.routing, 0, dim);
        self.engine.gather();
    }

    /// Messages that have arrived go to their processors: the last step.
    pub fn deliver(&mut self) -> Result<(), NoMemory>
        ensures ok { OnOk result (self.new ≡ record self.old {
          machine = machine_after_delivery self.old.n self.old.machine;
        }) }
        ensures err { OnErr result (self.new ≡ self.old) }
    {
        if self.clock == LAST_CLOCK {
            return Err(NoMemory);
        }
        make_room(&mut self.logs, usize::from(self.shape.room))?;
        deliver(
            self.shape,
            0,
            &mut self.run,
            &mut self.engine,
            &mut self.logs,
        );
        self.clock += 1;
        self.engine.gather();
        Ok(())
    }
}

fn blank_planes(alloc: Global, count: usize) -> Result<Vec<Plane>, NoMemory>
    ensures count { IfOk result (λ planes. length planes.items ≡ count) }
{
    Ok(vec![in alloc; 0; count]?)
}
