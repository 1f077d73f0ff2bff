//! A machine of 2^N chips.

ghost use Rattle.std.specs.Prelude.{◌≡◌, ◌+◌, ◌*◌, ◌^◌, ◌<◌, ◌≤◌, ◌↔◌, ℕ, IfOk, IfSome, IsErr, IsErrOf, IsOk};
ghost use Rattle.std.specs.Prelude.{IsOkUnless, IsTrue, OnOk, OnErr, None, [], false, length, map, slice_index};
ghost use Rattle.std.specs.List.{All};
ghost use Rattle.cm_model.specs.Processor.{ZERO, memory_bit};
ghost use Rattle.cm_model.specs.Chip.{IsPlane, processor_at};
ghost use Rattle.cm_model.specs.Array.{chip_at, wire, nth_or_nil};
ghost use Rattle.cm_model.specs.Wiring.{is_cut};
ghost use Rattle.cm_model.specs.Machine.{blank_machine, run_of};
ghost use Rattle.cm_model.specs.Found.{found_in, IsWhereabouts};
ghost use Rattle.cm_model.specs.Keeping.{IsMachine, AreSizes};
ghost use Rattle.cm_element.specs.Laid.{AreLaid};
ghost use Rattle.cm_blocks.specs.Parts.{part};
ghost use Rattle.cm_array.specs.Acts.{cycles_in};
ghost use Rattle.cm_router.specs.Logs.{HaveLogRoom};
ghost use Rattle.cm_router.specs.Routes.{routing_of};
ghost use Rattle.cm_array.specs.Cuts.{joined, AreWhole};
ghost use Rattle.cm_array.specs.SavedLogs.{unlogged, logs_appended, TakeIn};
ghost use Rattle.cm_array.specs.Faults.{size_fault};
ghost use Rattle.cm_array.specs.Parts.{LacksLogRoom};
ghost use Rattle.cm_array.specs.Pokes.{machine_with_memory_bit, machine_with_flag};

use crate::chip_state::{ChipState, blank_logs};
use crate::finding::{delivered_to, router_of, told_in};
use crate::limits::{MOST_DIMENSIONS, MOST_ROOM};
use crate::log_view::Log;
use crate::part::{Part, exchange_all, room_for};
use crate::put::{IntoPart, keep};
use crate::row::{deal_out, has_events};
use crate::saved_logs::{InTurn, LogAppender, SavedLogs};
use crate::sizes::{Fixed, Sizes};
use cm_bits::{Addr, FlagNo, NoMemory, Plane, Proc};
use cm_element::{ChipView, PITCH, Run, ZeroFlag};
use cm_message::{Message, Tag};
use cm_model::{Act, Found};
use cm_router::{Routing, Rule};
use cm_router_engine::Shape;
use std::alloc::Global;
use std::marker::{Model, PhantomData};
use std::mem;
use thiserror::Error;

/// Why a machine was not made.
#[derive(Clone, Copy, Debug, PartialEq, Eq, Error)]
pub enum MachineFault {
    #[error("more than 12 dimensions")]
    Dim,
    #[error("a router's buffer has room for 1 to 15 messages")]
    Cap,
    #[error("out of memory")]
    Memory,
}

impl From<NoMemory> for MachineFault {
    ghost use Rattle.std.specs.Prelude.{◌≡◌};
    ghost use Rattle.cm_array.specs.declared.machine.MachineFault.TheVariants.{Memory};

    ghost from_gives = { λ _ fault. fault ≡ Memory };

    fn from(_: NoMemory) -> MachineFault {
        MachineFault::Memory
    }
}

/// A machine of 2^`N` chips, whose routers have room for `CAP` messages each.
pub type Machine<const N: usize, const CAP: usize> = MachineOf<Fixed<N, CAP>>;

/// A machine of these sizes.
///
/// It tells the events of all chips into one row, in the order in which they come; they are dealt out to the
/// logs of their chips when somebody looks (`deal_out`), or when logs are set aside.
///
/// Contracts see its chips by number, the buffer and the log of each, wherever its events lie, and the count of its
/// petit cycles; beside these, by chip its share of how many events more the row takes before it has to grow. No tag
/// stands twice in its account, and each message whose injection a log tells of stands there once.
#[derive(Drop)]
pub struct MachineOf<S: Sizes> {
    pub(crate) state: ChipState,
    pub(crate) sizes: PhantomData<S>,
}

impl<S: Sizes> Model for MachineOf<S> {
    ghost use Rattle.cm_array.specs.Parts.{MachineView, view_of, AreParts};

    ghost Value = { MachineView };

    ghost view = { λ machine. view_of machine.state };

    ghost invariant = { λ machine. AreParts S.n S.cap machine.state };
}

impl<const N: usize, const CAP: usize> Machine<N, CAP> {
    /// A machine with all bits and flags 0, no message and no event.
    pub fn blank(alloc: Global) -> Result<Self, MachineFault>
        ensures value { IfOk result (λ kept. kept.machine ≡ blank_machine N) }
        ensures refused { IfSome (size_fault N CAP) (λ fault. IsErrOf result fault) }
        ensures otherwise { size_fault N CAP ≡ None → IsOkUnless result MachineFault.Memory }
    {
        Self::blank_at(alloc, N, CAP, 0)
    }
}

impl<S: Sizes> MachineOf<S> {
    /// A machine of 2^`n` chips with all bits and flags 0, no message and no event, whose count of petit cycles begins
    /// at `clock`.
    pub(crate) fn blank_at(
        alloc: Global,
        n: usize,
        cap: usize,
        clock: u64,
    ) -> Result<Self, MachineFault>
        requires n { n ≡ S.n }
        requires cap { cap ≡ S.cap }
        requires clock { clock < 2 ^ 63 }
        ensures value { IfOk result (λ kept. kept.machine ≡ record (blank_machine S.n) { clock = clock }) }
        ensures refused { IfSome (size_fault S.n S.cap) (λ fault. IsErrOf result fault) }
        ensures otherwise { size_fault S.n S.cap ≡ None → IsOkUnless result MachineFault.Memory }
    {
        if n > MOST_DIMENSIONS {
            return Err(MachineFault::Dim);
        }
        if cap == 0 || cap > MOST_ROOM {
            return Err(MachineFault::Cap);
        }
        let shape = Shape {
            dims: n as u8,
            room: cap as u8,
        };
        let state = ChipState::blank(alloc, shape, 1 << n, clock)?;
        Ok(MachineOf {
            state,
            sizes: PhantomData,
        })
    }

    /// A second machine, the same as this one, its logs too.
    pub fn copy(&self, alloc: Global) -> Result<Self, NoMemory>
        ensures value { IfOk result (λ kept. kept.machine ≡ self.now.machine) }
    {
        let state = self.state.copy(alloc)?;
        Ok(MachineOf {
            state,
            sizes: PhantomData,
        })
    }

    /// A part of it: so many of its chips, from `first` on, each with room in its log for so many petit cycles.
    pub fn part(
        &self,
        alloc: Global,
        first: u16,
        count: u16,
        cycles: usize,
    ) -> Result<Part, NoMemory>
        requires there { first + count ≤ 2 ^ S.n }
        ensures value { IfOk result (λ kept. kept.part ≡ part first count self.now.machine) }
        ensures dims { IfOk result (λ kept. kept.dims ≡ S.n) }
        ensures room { IfOk result (λ kept. kept.room ≡ S.cap) }
        ensures log_room { IfOk result (λ kept. HaveLogRoom (cycles * (4 + S.cap)) kept.log_rooms) }
        ensures gathered { IfOk result (λ kept. IsTrue kept.gathered) }
    {
        self.part_in(alloc, first, count, cycles, None)
    }

    /// The same in the room of a part that is not needed any more, if that part has as many chips and is of a machine
    /// of the same sizes: then memory is taken for the logs alone, as far as they have to grow.
    pub fn part_in(
        &self,
        alloc: Global,
        first: u16,
        count: u16,
        cycles: usize,
        used: Option<Part>,
    ) -> Result<Part, NoMemory>
        requires there { first + count ≤ 2 ^ S.n }
        ensures value { IfOk result (λ kept. kept.part ≡ part first count self.now.machine) }
        ensures dims { IfOk result (λ kept. kept.dims ≡ S.n) }
        ensures room { IfOk result (λ kept. kept.room ≡ S.cap) }
        ensures log_room { IfOk result (λ kept. HaveLogRoom (cycles * (4 + S.cap)) kept.log_rooms) }
        ensures gathered { IfOk result (λ kept. IsTrue kept.gathered) }
    {
        let state = &self.state;
        let mut cut = room_for(alloc, state.shape, count, used)?;
        cut.lay(state, first, count)?;
        cut.reserve_logs(cycles)?;
        Ok(Part { first, state: cut })
    }

    /// Becomes the machine that these are in their order. No memory is taken.
    pub fn put<P: IntoPart + Drop>(&mut self, pieces: Vec<P>)
        requires whole { AreWhole S.n S.cap (map (λ piece. (P.held piece).part) pieces.items) }
        ensures value { self.new.machine ≡ joined (map (λ piece. (P.held piece).part) pieces.items) }
    {
        let mut none = Vec::new(*self.state.logs.allocator());
        self.put_and_keep(pieces, &mut none);
    }

    /// The same, and keeps parts as `part_in` takes them, as many as there are places for. No memory is taken.
    pub fn put_and_keep<P: IntoPart + Drop>(&mut self, pieces: Vec<P>, used: &mut Vec<Part>)
        requires whole { AreWhole S.n S.cap (map (λ piece. (P.held piece).part) pieces.items) }
        ensures value { self.new.machine ≡ joined (map (λ piece. (P.held piece).part) pieces.items) }
    {
        let state = &mut self.state;
        state.crossing.clear();
        state.row.clear();
        let mut at = 0;
        for piece in pieces {
            let mut part = piece.into_part();
            at = state.put(at, &mut part);
            keep(used, part);
        }
        state.crossing.gather();
    }

    /// Sets its logs aside, each with room for so many petit cycles, and stands there without events.
    pub fn set_logs_aside(&mut self, alloc: Global, cycles: usize) -> Result<SavedLogs, NoMemory>
        ensures ok { OnOk result (self.new.machine ≡ unlogged S.n self.old.machine) }
        ensures logs { IfOk result (λ earlier. earlier.logs ≡ self.old.machine.logs) }
        ensures log_room { IfOk result (λ earlier. HaveLogRoom (cycles * (4 + S.cap)) earlier.log_rooms) }
        ensures err { OnErr result (self.new.machine ≡ self.old.machine) }
    {
        let state = &mut self.state;
        deal_out(&mut state.logs, &mut state.row)?;
        state.reserve_logs(cycles)?;
        let none = blank_logs(alloc, state.run.chips())?;
        Ok(SavedLogs {
            logs: mem::replace(&mut state.logs, none),
        })
    }

    /// Puts logs that were set aside back before its own, whose events stand behind them. No memory is taken.
    pub fn put_logs_back(&mut self, earlier: SavedLogs)
        requires whole { IsMachine S.n S.cap (logs_appended S.n earlier.logs self.old.machine) }
        requires count { length earlier.logs ≡ 2 ^ S.n }
        requires room { TakeIn earlier.log_rooms self.old.machine.logs }
        ensures value { self.new.machine ≡ logs_appended S.n earlier.logs self.old.machine }
    {
        let mut none = Vec::new(*self.state.logs.allocator());
        self.put_logs_back_by(&InTurn, earlier, &mut none);
    }

    /// The same by somebody who does it. The logs that it had go into parts that are not needed any more.
    pub fn put_logs_back_by<B: LogAppender>(
        &mut self,
        by: &B,
        earlier: SavedLogs,
        used: &mut Vec<Part>,
    )
        requires ready { B.ready }
        requires whole { IsMachine S.n S.cap (logs_appended S.n earlier.logs self.old.machine) }
        requires count { length earlier.logs ≡ 2 ^ S.n }
        requires room { TakeIn earlier.log_rooms self.old.machine.logs }
        ensures value { self.new.machine ≡ logs_appended S.n earlier.logs self.old.machine }
    {
        let mut logs = earlier.logs;
        by.append_logs(&mut logs, &self.state.logs);
        let mut told = mem::replace(&mut self.state.logs, logs);
        exchange_all(used, &mut told);
    }

    /// The chip of that number, to be read.
    pub fn chip(&self, number: u16) -> ChipView<'_>
        requires number { number < 2 ^ S.n }
        ensures value { result ≡ chip_at self.now.machine.chips number }
        ensures whole { IsMachine S.n S.cap self.now.machine }
    {
        self.state.run.view(number)
    }

    /// The bits of all processors at an address, a plane for each chip in order.
    pub fn plane_row(&self, at: Addr) -> &[Plane]
        ensures count { length result.now ≡ 2 ^ S.n }
        ensures value { (c : ℕ) → c < 2 ^ S.n → IsPlane (slice_index result.now c)
            (λ p. memory_bit (processor_at (chip_at self.now.machine.chips c) p) at) }
    {
        self.state.run.plane_row(at)
    }

    /// Whether memory has a row for an address: where it has none, the bits of all processors are 0 there.
    pub fn is_in_use(&self, at: Addr) -> bool
        ensures blank { result ≡ false → (c : ℕ) → c < 2 ^ S.n
            → IsPlane 0 (λ p. memory_bit (processor_at (chip_at self.now.machine.chips c) p) at) }
    {
        self.state.run.is_in_use(at)
    }

    /// Copies so many chips, from `first` on, to the front of a run: there the planes of a chip lie nearer to
    /// each other.
    pub fn copy_chips(&self, first: u16, count: u16, to: &mut Run)
        requires there { first + count ≤ 2 ^ S.n }
        requires room { count ≤ length to.old }
        ensures value { AreLaid 0 first count self.now.machine.chips to.old to.new }
    {
        to.lay(0, &self.state.run, first, count);
    }

    /// Writes the memory planes of so many chips, from `first` on, chip by chip: `PITCH` words of cm_element apart. The
    /// words behind those of the last chip stay.
    pub fn write_planes(&self, first: u16, count: u16, memory: &mut [Plane])
        requires chips { first + count ≤ 2 ^ S.n }
        requires memory { count * 4128 ≤ length memory.old }
        ensures value { (c a : ℕ) → c < count → a < 4096 → IsPlane (slice_index memory.new (c * 4128 + a))
            (λ p. memory_bit (processor_at (chip_at self.now.machine.chips (first + c)) p) a) }
        ensures others { (i : ℕ) → count * 4128 ≤ i → slice_index memory.new i ≡ slice_index memory.old i }
    {
        let written = usize::from(count) * PITCH;
        self.state
            .run
            .write_planes(first, count, &mut memory[..written]);
    }

    /// The messages that stand in a chip's router, in order of arrival.
    pub fn buffer(&self, chip: u16) -> &[Message]
        requires chip { chip < 2 ^ S.n }
        ensures value { result.now ≡ nth_or_nil self.now.machine.buffers chip }
        ensures whole { IsMachine S.n S.cap self.now.machine }
    {
        self.state.crossing.buffer(usize::from(chip))
    }

    /// A chip's events since the machine was made, the oldest first; a copy has those of its original.
    pub fn log(&self, chip: u16) -> Log<'_>
        requires chip { chip < 2 ^ S.n }
        ensures value { result ≡ nth_or_nil self.now.machine.logs chip }
        ensures whole { IsMachine S.n S.cap self.now.machine }
    {
        Log::of(chip, &self.state.logs[usize::from(chip)], &self.state.row)
    }

    /// Deals events that lie in one row out to the logs of their chips, as far as memory is not refused. Who looks at
    /// logs and has them dealt out before finds each whole (`Log::whole`).
    pub fn deal_out(&mut self) -> Result<(), NoMemory>
        ensures machine { self.new.machine ≡ self.old.machine }
    {
        let state = &mut self.state;
        deal_out(&mut state.logs, &mut state.row)
    }

    /// Whether some chip has told an event.
    pub fn has_events(&self) -> bool
        ensures none { result ≡ false → All (λ log. log ≡ []) self.now.machine.logs }
    {
        !self.state.row.is_empty() || has_events(&self.state.logs)
    }

    /// The dimensions of its cube.
    pub fn dims(&self) -> u8
        ensures value { result ≡ S.n }
        ensures sizes { AreSizes S.n S.cap }
    {
        self.state.shape.dims
    }

    /// How many chips it has.
    pub fn chip_count(&self) -> u16
        ensures value { result ≡ 2 ^ S.n }
        ensures few { result ≤ 4096 }
    {
        1 << self.state.shape.dims
    }

    /// How many messages the router of a chip has room for.
    pub fn room(&self) -> u8
        ensures value { result ≡ S.cap }
        ensures sizes { AreSizes S.n S.cap }
    {
        self.state.shape.room
    }

    /// Petit cycles so far.
    pub fn clock(&self) -> u64
        ensures value { result ≡ self.now.machine.clock }
        ensures within { result < 2 ^ 63 }
        ensures sizes { AreSizes S.n S.cap }
        ensures whole { IsMachine S.n S.cap self.now.machine }
    {
        self.state.clock
    }

    /// Whether a chip's wire over a dimension is cut: nobody crosses it then, in either direction.
    pub fn cut(&self, chip: u16, dim: u8) -> bool
        requires chip { chip < 2 ^ S.n }
        requires dim { dim < S.n }
        ensures value { result ≡ is_cut self.now.machine.routing chip dim }
    {
        self.state.routing.cuts.has(chip, dim)
    }

    /// By which rule its routers choose who leaves.
    pub fn rule(&self) -> Rule
        ensures value { result ≡ self.now.machine.routing.rule }
    {
        self.state.routing.rule
    }

    /// How its messages go: which wires are cut, and the rule.
    pub fn routing(&self) -> &Routing
        ensures value { routing_of result.now ≡ self.now.machine.routing }
        ensures cube { result.now.cuts.dims ≡ S.n }
        ensures whole { IsMachine S.n S.cap self.now.machine }
    {
        &self.state.routing
    }

    /// Where the message of a tag is: in a router, or else delivered, or else nowhere.
    pub fn find(&self, tag: Tag) -> Found
        ensures value { result ≡ found_in S.n self.now.machine tag }
        ensures there { IsWhereabouts S.n self.now.machine tag result }
        ensures whole { IsMachine S.n S.cap self.now.machine }
    {
        if let Some(chip) = router_of(&self.state.crossing, &tag) {
            return Found::Router(chip);
        }
        if let Some(place) = delivered_to(&self.state.logs, &tag) {
            return Found::Delivered(place.chip, place.proc);
        }
        match told_in(&self.state.row, self.state.logs.len(), &tag) {
            Some(place) => Found::Delivered(place.chip, place.proc),
            None => Found::Unknown,
        }
    }

    /// The global wire: whether flag GLOBAL is 1 in some processor (Hillis 1985).
    pub fn wire(&self) -> bool
        ensures value { result ≡ wire self.now.machine.chips }
        ensures whole { IsMachine S.n S.cap self.now.machine }
    {
        cm_wire::wire(&self.state.run)
    }

    /// Puts a bit into the memory of one processor.
    pub fn poke(&mut self, chip: u16, proc: Proc, at: Addr, bit: bool)
        requires chip { chip < 2 ^ S.n }
        ensures value { self.new
            ≡ record self.old { machine = machine_with_memory_bit self.old.machine chip proc at bit } }
    {
        self.state.run.poke(chip, proc, at, bit);
    }

    /// Puts a bit into a flag of one processor, but not into flag 8.
    pub fn poke_flag(
        &mut self,
        chip: u16,
        proc: Proc,
        number: FlagNo,
        bit: bool,
    ) -> Result<(), ZeroFlag>
        requires chip { chip < 2 ^ S.n }
        ensures zero_flag { IsErr result ↔ (number ≡ ZERO) }
        ensures ok { OnOk result (self.new
            ≡ record self.old { machine = machine_with_flag self.old.machine chip proc number bit }) }
        ensures err { OnErr result (self.new ≡ self.old) }
    {
        self.state.run.poke_flag(chip, proc, number, bit)
    }

    /// Runs acts, so many of them petit cycles, one after another, or none of them.
    pub(crate) fn run(&mut self, acts: &[Act], cycles: usize) -> Result<(), NoMemory>
        requires cycles { cycles ≡ cycles_in acts.now }
        requires few { cycles ≤ 64 }
        requires clock { self.old.machine.clock + cycles < 2 ^ 63 }
        ensures no_cycles { cycles ≡ 0 → IsOk result }
        ensures memory { OnErr result (LacksLogRoom (cycles * (4 + S.cap)) self.old.log_rooms) }
        ensures ok { OnOk result (self.new.machine ≡ run_of S.n S.cap self.old.machine acts.now) }
        ensures err { OnErr result (self.new.machine ≡ self.old.machine) }
    {
        if !self.state.pass_time(acts, cycles) {
            self.state.reserve_row(cycles)?;
            self.state.run(acts);
        }
        Ok(())
    }
}
