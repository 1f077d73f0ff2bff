//! A machine that is built of planes and messages.

ghost use Rattle.std.specs.Prelude.{◌≡◌, ◌≢◌, ℕ, ◌+◌, ◌*◌, ◌^◌, ◌<◌, ◌≤◌, ◌↔◌, IfOk, IfErr, IfSome, IsErrOf, IsOk};
ghost use Rattle.std.specs.Prelude.{IsOkUnless, IsTrue, OnOk, None, Some, false, length, slice_index};
ghost use Rattle.cm_model.specs.Processor.{ZERO};
ghost use Rattle.cm_model.specs.Array.{nth_or_nil};
ghost use Rattle.cm_model.specs.Machine.{blank_machine};
ghost use Rattle.cm_model.specs.Keeping.{IsMessage, AreSizes};
ghost use Rattle.cm_model.specs.Unlogged.{standing_messages, has_tag_twice};
ghost use Rattle.cm_element.specs.Runs.{chips_beside};
ghost use Rattle.cm_array.specs.Faults.{size_fault, build_fault};
ghost use Rattle.cm_array.specs.Parts.{machine_of};
ghost use Rattle.cm_array.specs.Pokes.{machine_with_plane, machine_with_flag_plane, machine_with_chips};
ghost use Rattle.cm_array.specs.Pokes.{machine_with_message, machine_with_cut, machine_with_rule};

use crate::chip_state::ChipState;
use crate::machine::{MachineFault, MachineOf};
use crate::sizes::{Fixed, Sizes};
use crate::tags::has_tag_twice;
use cm_bits::{Addr, Edge, FlagNo, NoMemory, Plane};
use cm_element::{NearRun, Run};
use cm_message::Message;
use cm_router::Rule;
use std::alloc::Global;
use std::marker::{Model, PhantomData};
use std::mem;
use thiserror::Error;

/// Why what was built is no machine.
#[derive(Clone, Copy, Debug, PartialEq, Eq, Error)]
pub enum BuildFault {
    #[error("two messages have one tag")]
    TagTwice,
    #[error("out of memory")]
    Memory,
}

impl From<NoMemory> for BuildFault {
    ghost use Rattle.std.specs.Prelude.{◌≡◌};
    ghost use Rattle.cm_array.specs.declared.builder.BuildFault.TheVariants.{Memory};

    ghost from_gives = { λ _ fault. fault ≡ Memory };

    fn from(_: NoMemory) -> BuildFault {
        BuildFault::Memory
    }
}

/// A machine of 2^`N` chips, whose routers have room for `CAP` messages each, that is being built.
pub type Builder<const N: usize, const CAP: usize> = BuilderOf<Fixed<N, CAP>>;

/// A machine of these sizes that is being built. It has no log, and until it is done two of its messages may have one
/// tag.
///
/// Contracts see the machine that it is so far.
#[derive(Drop)]
pub struct BuilderOf<S: Sizes> {
    /// The chips, by number.
    run: NearRun,
    /// All else; its own run has no chips.
    state: ChipState,
    sizes: PhantomData<S>,
}

impl<S: Sizes> Model for BuilderOf<S> {
    ghost use Rattle.cm_model.specs.Machine.{Machine};

    ghost Value = { Machine };

    ghost use Rattle.cm_array.specs.Parts.{machine_of};
    ghost use Rattle.cm_array.specs.Building.{state_built, AreUnfinished};

    ghost view = { λ builder. machine_of (state_built builder.run builder.state) };

    ghost invariant = { λ builder. AreUnfinished S.n S.cap (state_built builder.run builder.state) };
}

impl<const N: usize, const CAP: usize> Builder<N, CAP> {
    /// Begins with all bits and flags 0, no message and no wire cut, at this count of petit cycles.
    pub fn start(alloc: Global, clock: u64) -> Result<Self, MachineFault>
        requires clock { clock < 2 ^ 63 }
        ensures value { IfOk result (λ built. built ≡ record (blank_machine N) { clock = clock }) }
        ensures refused { IfSome (size_fault N CAP) (λ fault. IsErrOf result fault) }
        ensures otherwise { size_fault N CAP ≡ None → IsOkUnless result MachineFault.Memory }
        ensures sizes { IsOk result → AreSizes N CAP }
    {
        Self::start_of(alloc, N, CAP, clock)
    }
}

impl<S: Sizes> BuilderOf<S> {
    /// The same, for a machine of 2^`n` chips whose routers have room for `cap` messages each.
    pub fn start_of(alloc: Global, n: usize, cap: usize, clock: u64) -> Result<Self, MachineFault>
        requires n { n ≡ S.n }
        requires cap { cap ≡ S.cap }
        requires clock { clock < 2 ^ 63 }
        ensures value { IfOk result (λ built. built ≡ record (blank_machine S.n) { clock = clock }) }
        ensures refused { IfSome (size_fault S.n S.cap) (λ fault. IsErrOf result fault) }
        ensures otherwise { size_fault S.n S.cap ≡ None → IsOkUnless result MachineFault.Memory }
        ensures sizes { IsOk result → AreSizes S.n S.cap }
    {
        let machine = MachineOf::<S>::blank_at(alloc, n, cap, clock)?;
        let mut state = machine.state;
        let run = take_near(alloc, &mut state.run, 1 << n)?;
        Ok(BuilderOf {
            run,
            state,
            sizes: PhantomData,
        })
    }

    /// The dimensions of its cube.
    pub fn dims(&self) -> u8
        ensures value { result ≡ S.n }
    {
        self.state.shape.dims
    }

    /// How many chips it has.
    pub fn chip_count(&self) -> u16
        ensures value { result ≡ 2 ^ S.n }
        ensures few { result ≤ 4096 }
    {
        1 << self.state.shape.dims
    }

    /// How many messages the router of a chip has room for.
    pub fn room(&self) -> u8
        ensures value { result ≡ S.cap }
    {
        self.state.shape.room
    }

    /// Petit cycles so far, before which each message has to be born.
    pub fn clock(&self) -> u64
        ensures value { result ≡ self.now.clock }
        ensures within { result < 2 ^ 63 }
    {
        self.state.clock
    }

    /// Whether a chip's router has no room for another message.
    pub fn is_full(&self, chip: u16) -> bool
        requires chip { chip < 2 ^ S.n }
        ensures value { IsTrue result ↔ (S.cap ≤ length (nth_or_nil self.now.buffers chip)) }
    {
        self.state.crossing.len(usize::from(chip)) >= usize::from(self.state.shape.room)
    }

    /// Cuts a wire: nobody crosses it then, in either direction.
    pub fn cut(&mut self, edge: Edge)
        requires chip { edge.chip < 2 ^ S.n }
        requires dim { edge.dim < S.n }
        ensures value { self.new ≡ machine_with_cut self.old edge }
    {
        self.state.routing.cuts.add(edge);
        // For the prover alone: a call brings in what holds of all cuts of a cube.
        let _dims = self.state.routing.cuts.dims();
    }

    /// Has the routers choose by a rule.
    pub fn rule(&mut self, rule: Rule)
        ensures value { self.new ≡ machine_with_rule self.old rule }
    {
        self.state.routing.rule = rule;
    }

    /// Puts a plane at an address of a chip: bit p is that of processor p.
    pub fn plane(&mut self, chip: u16, at: Addr, plane: Plane)
        requires chip { chip < 2 ^ S.n }
        ensures value { self.new ≡ machine_with_plane self.old chip at plane }
    {
        self.run.poke_plane(chip, at, plane);
    }

    /// Puts a plane into a flag of a chip, but not into flag 8.
    pub fn flag_plane(&mut self, chip: u16, number: FlagNo, plane: Plane)
        requires chip { chip < 2 ^ S.n }
        requires other { number ≢ ZERO }
        ensures value { self.new ≡ machine_with_flag_plane self.old chip number plane }
    {
        self.run.poke_flag_plane(chip, number, plane);
    }

    /// Puts the planes of so many chips into the chips from `first` on. They lie chip by chip: those of memory `PITCH`
    /// words of cm_element apart, sixteen of flags.
    pub fn chips(&mut self, first: u16, memory: &[Plane], flags: &[Plane], count: u16)
        requires chips { first + count ≤ 2 ^ S.n }
        requires memory { count * 4128 ≤ length memory.now }
        requires flags { count * 16 ≤ length flags.now }
        requires zero { (c : ℕ) → c < count → slice_index flags.now (c * 16 + 8) ≡ 0 }
        ensures value { self.new ≡ machine_with_chips self.old first (chips_beside memory.now flags.now count) }
    {
        self.run.lay_planes(first, memory, flags, count);
    }

    /// Puts a message behind those that stand in a chip's router.
    pub fn message(&mut self, chip: u16, message: Message)
        requires chip { chip < 2 ^ S.n }
        requires room { length (nth_or_nil self.old.buffers chip) < S.cap }
        requires rel { message.rel < 2 ^ S.n }
        requires origin { message.tag.chip < 2 ^ S.n }
        requires born { message.tag.birth < self.old.clock }
        ensures value { self.new ≡ machine_with_message self.old chip message }
    {
        look_at::<S>(&message);
        self.state.crossing.arrive(usize::from(chip), message);
    }

    /// The machine that was built, if no two of its messages have one tag.
    pub fn done(self) -> Result<MachineOf<S>, BuildFault>
        ensures value { IfOk result (λ kept. kept.machine ≡ self) }
        ensures ok { IsOk result → build_fault self ≡ None }
        ensures refused { IfErr result (λ fault. fault ≢ BuildFault.Memory → build_fault self ≡ Some fault) }
    {
        let mut state = self.state;
        state.run = self.run.into_run();
        state.crossing.gather();
        refuse_tag_twice(&state)?;
        Ok(MachineOf {
            state,
            sizes: PhantomData,
        })
    }
}

/// Refuses messages of which two have one tag.
fn refuse_tag_twice(state: &ChipState) -> Result<(), BuildFault>
    requires gathered { IsTrue state.now.crossing.gathered }
    ensures ok { OnOk result (has_tag_twice (standing_messages (machine_of state.now)) ≡ false) }
    ensures refused { IfErr result (λ fault. fault ≢ BuildFault.Memory
        → build_fault (machine_of state.now) ≡ Some fault) }
{
    let alloc = *state.logs.allocator();
    if has_tag_twice(alloc, &state.crossing)? {
        return Err(BuildFault::TagTwice);
    }
    Ok(())
}

/// Takes so many chips, which are all, out of a run, to fill them near.
fn take_near(alloc: Global, run: &mut Run, chips: u16) -> Result<NearRun, NoMemory>
    requires all { chips ≡ length run.old }
    ensures value { IfOk result (λ near. near ≡ run.old) }
{
    let far = mem::replace(run, Run::blank(alloc, 0)?);
    NearRun::of(alloc, far, chips)
}

/// Nothing is done: a message between chips of the cube is one of the cube, since its other numbers cannot be
/// out of range.
fn look_at<S: Sizes>(message: &Message)
    requires rel { message.now.rel < 2 ^ S.n }
    requires origin { message.now.tag.chip < 2 ^ S.n }
    ensures message { IsMessage S.n message.now }
{
    // For the prover alone: reading a number brings in its range. A payload has 32 bits,
    let _payload = message.payload;
    // the receiver's number is below 16,
    let _proc = message.proc.get();
    // and so is the sender's.
    let _sender = message.tag.proc.get();
}
