//! What is done to a machine of many chips, step by step, and the player of such steps.

ghost use Rattle.std.specs.Prelude.{◌≡◌, ◌<◌, ◌≤◌, ◌^◌, ◌↔◌, [], IsFalse, IsOk, IsTrue, OnOk, OnErr};
ghost use Rattle.cm_model.specs.Machine.{run_of};
ghost use Rattle.cm_array.specs.Acts.{is_late, is_long};

use cm_array::{Fixed, Machine, MachineFault, Plain, RunFault, Runner};
use cm_bits::{Dir, FlagNo, Plane};
use cm_model::{Act, Nano};
use cm_wire::chip_or;
use std::alloc::{AllocError, Global};
use test_generators::{address, flag, have_same_bits, poke_plane, processor};

/// What is done to a machine, or what has to be so of it.
#[derive(Clone, Copy)]
pub(crate) enum Step {
    /// A flag of the sixteen processors of a chip gets these bits.
    Poke(u16, u8, Plane),
    /// A memory bit of one processor becomes 1.
    Set(u16, u8, u16),
    /// Flag 8 of a processor cannot be poked.
    Zero(u16, u8),
    /// So many instructions that send flag 0 of every processor to flag 10, over the grid.
    News(Dir, usize, Result<(), RunFault>),
    /// One instruction that sends a flag of every processor to flag 11, over the chain.
    Chain(u8),
    /// So many looks at the wire.
    Senses(usize, Result<(), RunFault>),
    /// The machine is copied.
    Keep,
    /// Whether the machine has the bits and flags of its copy.
    IsKept(bool),
    /// The bits of a flag of a chip.
    Flag(u16, u8, Plane),
    /// The bits of flag 10 of a chip; it is 0 in all others.
    News10(u16, Plane),
    /// The bit of the global wire.
    Wire(bool),
    /// Whether a chip drives the wire.
    Drives(u16, bool),
}

/// A machine of which no contract tells anything, so that no proof carries it from step to step.
#[derive(Drop)]
struct Trial<const N: usize> {
    machine: Machine<N, 7>,
    kept: Option<Machine<N, 7>>,
}

impl Step {
    /// Whether a step goes as it says. Ranges are tested here, so that no step has a condition.
    fn is_so<const N: usize>(self, trial: &mut Trial<N>, alloc: Global, chips: u16) -> bool
        requires chips { chips ≡ 2 ^ N }
    {
        match self {
            Step::Poke(chip, number, plane) => trial.pokes(chip, number, plane, chips),
            Step::Set(chip, proc, at) => trial.sets(chip, proc, at, chips),
            Step::Zero(chip, proc) => trial.refuses(chip, proc, chips),
            Step::News(dir, count, end) => trial.sends(
                alloc,
                Act::Nano(over_news(dir)),
                count,
                end,
            ),
            Step::Chain(read) => read < 16
                && trial.sends(alloc, Act::Nano(over_chain(flag(read))), 1, Ok(())),
            Step::Senses(count, end) => trial.sends(alloc, Act::Sense, count, end),
            Step::Keep => trial.keeps(alloc),
            Step::IsKept(kept) => trial.is_kept(chips) == Some(kept),
            Step::Flag(chip, number, plane) => trial.has_flag(chip, number, plane, chips),
            Step::News10(chip, plane) => trial.has_only(chip, plane, chips),
            Step::Wire(bit) => trial.machine.wire() == bit,
            Step::Drives(chip, bit) => chip < chips && chip_or(&trial.machine.chip(chip)) == bit,
        }
    }
}

impl<const N: usize> Trial<N> {
    fn blank(alloc: Global) -> Result<Self, MachineFault> {
        let machine = Machine::blank(alloc)?;
        Ok(Trial {
            machine,
            kept: None,
        })
    }

    fn pokes(&mut self, chip: u16, number: u8, plane: Plane, chips: u16) -> bool
        requires chips { chips ≡ 2 ^ N }
    {
        if chip >= chips || number >= 16 {
            return false;
        }
        poke_plane(&mut self.machine, chip, flag(number), plane);
        true
    }

    fn sets(&mut self, chip: u16, proc: u8, at: u16, chips: u16) -> bool
        requires chips { chips ≡ 2 ^ N }
    {
        if chip >= chips || proc >= 16 || at >= 4096 {
            return false;
        }
        self.machine.poke(chip, processor(proc), address(at), true);
        true
    }

    fn refuses(&mut self, chip: u16, proc: u8, chips: u16) -> bool
        requires chips { chips ≡ 2 ^ N }
    {
        chip < chips
            && proc < 16
            && self
                .machine
                .poke_flag(chip, processor(proc), flag(8), true)
                .is_err()
    }

    fn sends(&mut self, alloc: Global, act: Act, count: usize, end: Result<(), RunFault>) -> bool {
        match repeated(alloc, act, count) {
            Ok(acts) => go_by(&mut Plain, &mut self.machine, acts.as_slice()) == end,
            Err(_) => false,
        }
    }

    fn keeps(&mut self, alloc: Global) -> bool {
        match self.machine.copy(alloc) {
            Ok(copy) => {
                self.kept = Some(copy);
                true
            }
            Err(_) => false,
        }
    }

    /// Whether the machine has the bits and flags of its copy, where there is one.
    fn is_kept(&self, chips: u16) -> Option<bool>
        requires chips { chips ≡ 2 ^ N }
    {
        match &self.kept {
            Some(kept) => Some(have_same_bits(&self.machine, kept, chips)),
            None => None,
        }
    }

    fn has_flag(&self, chip: u16, number: u8, plane: Plane, chips: u16) -> bool
        requires chips { chips ≡ 2 ^ N }
    {
        chip < chips && number < 16 && self.machine.chip(chip).flag_plane(flag(number)) == plane
    }

    fn has_only(&self, chip: u16, plane: Plane, chips: u16) -> bool
        requires chips { chips ≡ 2 ^ N }
    {
        for c in 0..chips {
            let wanted = if c == chip { plane } else { 0 };
            if !self.has_flag(c, 10, wanted, chips) {
                return false;
            }
        }
        true
    }
}

/// The place of the first step that does not go as it says, or else how many steps there are.
pub(crate) fn plays<const N: usize>(alloc: Global, chips: u16, steps: &[Step]) -> Option<usize>
    requires chips { chips ≡ 2 ^ N }
{
    let mut trial = Trial::<N>::blank(alloc).ok()?;
    Some(plays_on(alloc, &mut trial, chips, steps))
}

fn plays_on<const N: usize>(
    alloc: Global,
    trial: &mut Trial<N>,
    chips: u16,
    steps: &[Step],
) -> usize
    requires chips { chips ≡ 2 ^ N }
{
    for (place, step) in steps.iter().enumerate() {
        if !step.is_so(trial, alloc, chips) {
            return place;
        }
    }
    steps.len()
}

/// What a caller knows of any runner.
pub(crate) fn go_by<const N: usize, R: Runner<Fixed<N, 7>>>(
    runner: &mut R,
    machine: &mut Machine<N, 7>,
    acts: &[Act],
) -> Result<(), RunFault>
    requires runner { R.ready }
    ensures long { (result ≡ Err RunFault.Long) ↔ IsTrue (is_long acts.now) }
    ensures clock { (result ≡ Err RunFault.Clock)
        ↔ (IsFalse (is_long acts.now) × IsTrue (is_late machine.old.machine.clock acts.now)) }
    ensures empty { acts.now ≡ [] → IsOk result }
    ensures ok { OnOk result (machine.new.machine ≡ run_of N 7 machine.old.machine acts.now) }
    ensures err { OnErr result (machine.new.machine ≡ machine.old.machine) }
{
    runner.go(machine, acts)
}

/// Flag 0 of every processor goes to flag 10, over the grid.
pub(crate) fn over_news(dir: Dir) -> Nano {
    sending(flag(0), flag(10), dir)
}

/// A flag of every processor goes to flag 11, over the chain.
pub(crate) fn over_chain(read: FlagNo) -> Nano {
    sending(read, flag(11), Dir::North)
}

fn sending(read: FlagNo, write: FlagNo, dir: Dir) -> Nano {
    Nano {
        a: address(0),
        b: address(0),
        read,
        write,
        cond: flag(8),
        sense: false,
        mem_table: 0xf0,
        flag_table: 0xaa,
        dir,
    }
}

/// So many times the same act.
fn repeated(alloc: Global, act: Act, count: usize) -> Result<Vec<Act>, AllocError> {
    vec![in alloc; act; count]
}
