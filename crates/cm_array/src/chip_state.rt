//! The state of some chips of a machine, or of all, and what acts do to it.

ghost use Rattle.std.specs.Prelude.{◌≡◌, ◌+◌, ◌*◌, ◌^◌, ◌<◌, ◌≤◌, [], ◌∷◌, IfOk, IsOk, IsFalse, IsTrue, OnErr};
ghost use Rattle.std.specs.Prelude.{OnOk};
ghost use Rattle.std.specs.List.{list_any};
ghost use Rattle.std.specs.Prelude.{length, vec_len, vec_capacity};
ghost use Rattle.cm_model.specs.Each.{tabulate};
ghost use Rattle.cm_model.specs.Machine.{run_of};
ghost use Rattle.cm_model.specs.Buffers.{after_act};
ghost use Rattle.cm_router.specs.Logs.{log_room, log_rooms_of, HaveLogRoom};
ghost use Rattle.cm_petit.specs.Routers.{events_of};
ghost use Rattle.cm_array.specs.Acts.{cycles_in, is_instruction};
ghost use Rattle.cm_array.specs.Fresh.{IsBlankState, IsCopy, IsStateOf};
ghost use Rattle.cm_array.specs.Parts.{machine_of, view_of, AreParts, AreUnderWay, LacksLogRoom};

use crate::stepping::step;
use cm_bits::{NoMemory, Plane};
use cm_element::Run;
use cm_message::Event;
use cm_model::Act;
use cm_petit::{cycle, is_at_rest};
use cm_router::{MOST_INJECTED, Routing};
use cm_router_engine::{RouterEngine, Shape};
use std::alloc::Global;

/// The state of some chips of a machine, or of all, and the working room of instructions and petit cycles, so that
/// these take no memory.
pub(crate) struct ChipState {
    /// Of which machine the chips are.
    pub(crate) shape: Shape,
    /// The chips, by number.
    pub(crate) run: Run,
    /// By chip, its events since the machine was made, as far as they are dealt out.
    pub(crate) logs: Vec<Vec<Event>>,
    /// The events of all chips that are not dealt out to the logs, in the order of their telling; a part has none.
    pub(crate) row: Vec<Event>,
    /// Petit cycles so far.
    pub(crate) clock: u64,
    /// By chip, what it sends over the grid or its chain.
    pub(crate) sent: Vec<Plane>,
    /// By chip, what comes in there over the grid.
    pub(crate) incoming: Vec<Plane>,
    /// By chip, the messages that stand in its router; in a whole machine they are gathered between two lists of acts.
    pub(crate) crossing: RouterEngine,
    /// Which wires are cut, and by which rule routers choose: no act changes it.
    pub(crate) routing: Routing,
}

impl Drop for ChipState {
    /// Frees all that a machine owns. A derived `drop` would be compiled and proved anew wherever a machine is freed.
    #[inline(never)]
    fn drop(self) {
        let ChipState {
            shape: _,
            run: _,
            logs: _,
            row: _,
            clock: _,
            sent: _,
            incoming: _,
            crossing: _,
            routing: _,
        } = self;
    }
}

impl ChipState {
    /// So many chips of a machine of this shape, with all bits and flags 0, no message, no event and no wire cut, after
    /// so many petit cycles.
    pub(crate) fn blank(
        alloc: Global,
        shape: Shape,
        chips: u16,
        clock: u64,
    ) -> Result<ChipState, NoMemory>
        requires few { chips ≤ 4096 }
        ensures value { IfOk result (λ state. IsBlankState shape.dims shape.room chips clock state) }
    {
        let count = usize::from(chips);
        let run = Run::blank(alloc, chips)?;
        let crossing = RouterEngine::new(alloc, count)?;
        let routing = Routing::plain(alloc, shape.dims)?;
        let mut state = ChipState::of(alloc, shape, run, clock, crossing, routing)?;
        state.logs = blank_logs(alloc, count)?;
        Ok(state)
    }

    /// The same once more, with working room of its own.
    pub(crate) fn copy(&self, alloc: Global) -> Result<ChipState, NoMemory>
        ensures value { IfOk result (λ copy. IsCopy self.now copy) }
    {
        let run = self.run.copy(alloc)?;
        let crossing = self.crossing.copy(alloc)?;
        let routing = self.routing.copy()?;
        let mut copy = ChipState::of(alloc, self.shape, run, self.clock, crossing, routing)?;
        copy.logs = copied_logs(alloc, &self.logs)?;
        copy.row = self.row.to_vec(alloc)?;
        Ok(copy)
    }

    /// The state of these chips and messages, with working room, and without a log or an event.
    fn of(
        alloc: Global,
        shape: Shape,
        run: Run,
        clock: u64,
        crossing: RouterEngine,
        routing: Routing,
    ) -> Result<ChipState, NoMemory>
        ensures value { IfOk result (λ state. IsStateOf run clock crossing routing state) }
        ensures shape { IfOk result (λ state. state.shape ≡ shape) }
    {
        let count = run.chips();
        let sent = blank_planes(alloc, count)?;
        let incoming = blank_planes(alloc, count)?;
        Ok(ChipState {
            shape,
            run,
            logs: Vec::new(alloc),
            row: Vec::new(alloc),
            clock,
            sent,
            incoming,
            crossing,
            routing,
        })
    }

    /// Runs acts one after another, in a whole machine, and gathers the messages then.
    pub(crate) fn run(&mut self, acts: &[Act])
        requires state { AreParts self.old.shape.dims self.old.shape.room self.old }
        requires clock { self.old.clock + cycles_in acts.now < 2 ^ 63 }
        requires log_room { cycles_in acts.now * (2 ^ self.old.shape.dims * (4 + self.old.shape.room))
            ≤ log_room self.old.row }
        ensures value { machine_of self.new
            ≡ run_of self.old.shape.dims self.old.shape.room (machine_of self.old) acts.now }
        ensures state { AreParts self.old.shape.dims self.old.shape.room self.new }
    {
        for act in acts {
            self.run_one(act);
        }
        self.crossing.gather();
    }

    fn run_one(&mut self, act: &Act)
        requires state { AreUnderWay self.old.shape.dims self.old.shape.room self.old }
        requires clock { self.old.clock + cycles_in (act.now ∷ []) < 2 ^ 63 }
        requires log_room { cycles_in (act.now ∷ []) * (2 ^ self.old.shape.dims * (4 + self.old.shape.room))
            ≤ log_room self.old.row }
        ensures value { machine_of self.new
            ≡ after_act self.old.shape.dims self.old.shape.room (machine_of self.old) act.now }
        ensures state { AreUnderWay self.old.shape.dims self.old.shape.room self.new }
        ensures clock { self.new.clock ≡ self.old.clock + cycles_in (act.now ∷ []) }
        ensures log_room { log_room self.old.row ≤ log_room self.new.row
            + cycles_in (act.now ∷ []) * (2 ^ self.old.shape.dims * (4 + self.old.shape.room)) }
    {
        match act {
            Act::Nano(nano) => step(
                self.shape.dims,
                &mut self.run,
                nano,
                &mut self.sent,
                &mut self.incoming,
            ),
            Act::Sense => {}
            Act::Cycle => cycle(
                self.shape,
                &self.routing,
                &mut self.run,
                &mut self.crossing,
                &mut self.row,
                &mut self.clock,
            ),
        }
    }

    /// Makes room in each log for so many petit cycles.
    pub(crate) fn reserve_logs(&mut self, cycles: usize) -> Result<(), NoMemory>
        ensures value { self.new ≡ record self.old { logs = self.new.logs } }
        ensures events { events_of self.new.logs.items ≡ events_of self.old.logs.items }
        ensures log_room { OnOk result
            (HaveLogRoom (cycles * (4 + self.old.shape.room)) (log_rooms_of self.new.logs.items)) }
    {
        let more = cycles.saturating_mul(MOST_INJECTED + usize::from(self.shape.room));
        reserve(&mut self.logs, more)
    }

    /// Makes room in the row for what all chips tell in so many petit cycles.
    pub(crate) fn reserve_row(&mut self, cycles: usize) -> Result<(), NoMemory>
        requires state { AreParts self.old.shape.dims self.old.shape.room self.old }
        requires few { cycles ≤ 64 }
        ensures machine { machine_of self.new ≡ machine_of self.old }
        ensures state { AreParts self.old.shape.dims self.old.shape.room self.new }
        ensures ok { OnOk result
            (cycles * (2 ^ self.old.shape.dims * (4 + self.old.shape.room)) ≤ log_room self.new.row) }
        ensures err { OnErr result (LacksLogRoom (cycles * (4 + self.old.shape.room)) (view_of self.old).log_rooms) }
        ensures no_more { cycles ≡ 0 → IsOk result }
    {
        let most = self.run.chips() * (MOST_INJECTED + usize::from(self.shape.room));
        make_room(&mut self.row, cycles * most)
    }

    /// Runs acts that change nothing but the counter, so many of them petit cycles: no instruction is among them, and a
    /// petit cycle of this machine changes nothing else. Whether it is so; if not, nothing is done.
    pub(crate) fn pass_time(&mut self, acts: &[Act], cycles: usize) -> bool
        requires state { AreParts self.old.shape.dims self.old.shape.room self.old }
        requires cycles { cycles ≡ cycles_in acts.now }
        requires clock { self.old.clock + cycles < 2 ^ 63 }
        ensures value { IsTrue result → machine_of self.new
            ≡ run_of self.old.shape.dims self.old.shape.room (machine_of self.old) acts.now }
        ensures state { AreParts self.old.shape.dims self.old.shape.room self.new }
        ensures same { IsFalse result → self.new ≡ self.old }
    {
        if has_instruction(acts) {
            return false;
        }
        if cycles == 0 {
            return true;
        }
        if !is_at_rest(self.shape, &self.run, &self.crossing) {
            return false;
        }
        self.clock += cycles as u64;
        true
    }
}

/// Whether an instruction is among acts.
fn has_instruction(acts: &[Act]) -> bool
    ensures value { result ≡ list_any is_instruction acts.now }
{
    acts.iter().any(|act| is_instruction(act))
}

fn is_instruction(act: &Act) -> bool
    ensures value { result ≡ is_instruction act.now }
{
    matches!(act, Act::Nano(_))
}

/// Makes room in each log for so many events more.
fn reserve(logs: &mut [Vec<Event>], more: usize) -> Result<(), NoMemory>
    ensures events { events_of logs.new ≡ events_of logs.old }
    ensures ok { OnOk result (HaveLogRoom more (log_rooms_of logs.new)) }
    ensures can_be { OnOk result (0 < length logs.old → more < 2 ^ 63) }
    ensures err { OnErr result (LacksLogRoom more (log_rooms_of logs.old)) }
    ensures no_more { more ≡ 0 → IsOk result }
{
    if more == 0 {
        return Ok(());
    }
    for c in 0..logs.len() {
        make_room(&mut logs[c], more)?;
    }
    Ok(())
}

/// Makes room in a log, or in a row, for so many events more. One that has to grow gets twice its room at least, and
/// twice of what is wanted, so that the lists of acts that follow find room: memory that was reserved and not
/// written yet costs nothing. Only the events that it holds are moved, not all that it had room for.
fn make_room(log: &mut Vec<Event>, more: usize) -> Result<(), NoMemory>
    ensures items { log.new.items ≡ log.old.items }
    ensures len { vec_len log.new ≡ vec_len log.old }
    ensures ok { OnOk result (vec_len log.new + more ≤ vec_capacity log.new) }
    ensures can_be { OnOk result (more < 2 ^ 63) }
    ensures succeeds { vec_len log.old + more ≤ vec_capacity log.old → IsOk result }
    ensures full { OnErr result (vec_capacity log.old < vec_len log.old + more) }
    ensures grows { OnOk result (vec_capacity log.old < vec_capacity log.new
        → 2 * vec_capacity log.old ≤ vec_capacity log.new) }
    ensures ample { OnOk result (vec_capacity log.old < vec_capacity log.new
        → 2 * (vec_len log.old + more) ≤ vec_capacity log.new) }
{
    if more <= log.capacity() - log.len() {
        return Ok(());
    }
    let wanted = log.len().saturating_add(more);
    let room = wanted.max(log.capacity()).saturating_mul(2);
    let mut grown = Vec::with_capacity(*log.allocator(), room)?;
    grown.extend_from_slice(log)?;
    *log = grown;
    Ok(())
}

pub(crate) fn blank_logs(alloc: Global, count: usize) -> Result<Vec<Vec<Event>>, NoMemory>
    ensures value { IfOk result (λ logs. events_of logs.items ≡ tabulate 0 count (λ c. [])) }
{
    Ok((0..count).map(|_| Vec::new(alloc)).collect(alloc)?)
}

/// Makes logs the same as others, in the room that they have or in more: those of a part, which may have taken over the
/// room of an earlier part (`part_in`). Where memory is refused the first of them are the same already.
pub(crate) fn lay_logs(logs: &mut [Vec<Event>], others: &[Vec<Event>]) -> Result<(), NoMemory>
    requires count { length others.now ≡ length logs.old }
    ensures value { OnOk result (events_of logs.new ≡ events_of others.now) }
{
    for c in 0..logs.len() {
        lay_log(&mut logs[c], &others[c])?;
    }
    Ok(())
}

fn lay_log(log: &mut Vec<Event>, other: &[Event]) -> Result<(), NoMemory>
    ensures value { OnOk result (log.new.items ≡ other.now) }
{
    log.clear();
    log.extend_from_slice(other)?;
    Ok(())
}

fn blank_planes(alloc: Global, count: usize) -> Result<Vec<Plane>, NoMemory>
    ensures count { IfOk result (λ planes. length planes.items ≡ count) }
{
    Ok(vec![in alloc; 0; count]?)
}

fn copied_logs(alloc: Global, logs: &[Vec<Event>]) -> Result<Vec<Vec<Event>>, NoMemory>
    ensures value { IfOk result (λ copies. events_of copies.items ≡ events_of logs.now) }
{
    Ok(logs.iter().map(|log| log.to_vec(alloc)).try_collect(alloc)?)
}
