//! The plain machine: two of its answers worked by hand, and random machines beside it.

ghost use Rattle.std.specs.Prelude.{◌≡◌, ◌<◌, ◌≤◌, ◌^◌};

use crate::steps::{go_by, over_chain, over_news};
use cm_array::{Machine, Plain};
use cm_bits::{Dir, Proc};
use cm_model::Act;
use cm_plain::PlainMachine;
use std::alloc::{AllocError, Global};
use test_generators::{Draws, address, flag, processor};

const STRETCHES: u16 = 10;

// Only so many memory bits of each processor are used.
const ADDRESSES: u16 = 8;

// ---- beside a machine

/// A machine and the plain one beside it, of which no contract tells anything.
#[derive(Drop)]
struct Pair<const N: usize> {
    machine: Machine<N, 7>,
    plain: PlainMachine<N>,
}

impl<const N: usize> Pair<N> {
    fn blank(alloc: Global) -> Option<Self>
        requires dimension { N ≤ 12 }
    {
        let machine = Machine::blank(alloc).ok()?;
        let plain = PlainMachine::blank(alloc, ADDRESSES).ok()?;
        Some(Pair { machine, plain })
    }

    /// One flag of each processor gets a bit that looks random, and flag 8 none.
    fn poke_flags(&mut self, draws: &mut Draws, chips: u16)
        requires chips { chips ≡ 2 ^ N }
    {
        for c in 0..chips {
            for p in 0u8..16 {
                let bit = draws.below(2) == 1;
                let _ = self.machine.poke_flag(c, processor(p), flag(p), bit);
                self.plain.poke_flag(c, processor(p), flag(p), bit);
            }
        }
    }

    /// Runs the acts in both, and tells whether neither refused.
    fn go(&mut self, alloc: Global, acts: &[Act]) -> bool {
        go_by(&mut Plain, &mut self.machine, acts).is_ok() && self.steps(alloc, acts)
    }

    fn steps(&mut self, alloc: Global, acts: &[Act]) -> bool {
        for act in acts {
            if let Act::Nano(nano) = act {
                if self.plain.step(alloc, nano).is_err() {
                    return false;
                }
            }
        }
        true
    }

    /// Whether they agree after each of ten stretches of forty acts.
    fn stays_alike(&mut self, alloc: Global, chips: u16) -> Option<bool>
        requires chips { chips ≡ 2 ^ N }
    {
        let mut draws = Draws::new(0);
        self.poke_flags(&mut draws, chips);
        for _stretch in 0..STRETCHES {
            let acts = drawn_acts(alloc, &mut draws).ok()?;
            if !self.go(alloc, acts.as_slice()) || !self.agree(chips) {
                return Some(false);
            }
        }
        Some(true)
    }

    /// Whether both have the same flags, and the same bits at the first addresses.
    fn agree(&self, chips: u16) -> bool
        requires chips { chips ≡ 2 ^ N }
    {
        for c in 0..chips {
            for p in 0u8..16 {
                let proc = processor(p);
                if !self.have_same_flags(c, proc) || !self.have_same_bits(c, proc) {
                    return false;
                }
            }
        }
        true
    }

    fn have_same_flags(&self, chip: u16, proc: Proc) -> bool
        requires chip { chip < 2 ^ N }
    {
        for number in 0u8..16 {
            let number = flag(number);
            if self.machine.chip(chip).flag(proc, number) != self.plain.flag(chip, proc, number) {
                return false;
            }
        }
        true
    }

    fn have_same_bits(&self, chip: u16, proc: Proc) -> bool
        requires chip { chip < 2 ^ N }
    {
        for at in 0..ADDRESSES {
            let at = address(at);
            if self.machine.chip(chip).read(proc, at) != self.plain.read(chip, proc, at) {
                return false;
            }
        }
        true
    }
}

/// Forty acts on the first addresses, of which every eighth looks at the wire.
fn drawn_acts(alloc: Global, draws: &mut Draws) -> Result<Vec<Act>, AllocError> {
    let mut acts = Vec::new(alloc);
    for turn in 0..40 {
        let act = if turn % 8 == 7 {
            Act::Sense
        } else {
            let a = address(draws.below(ADDRESSES));
            let b = address(draws.below(ADDRESSES));
            Act::Nano(draws.nano(a, b))
        };
        let Ok(()) = acts.push(act) else {
            return Err(AllocError);
        };
    }
    Ok(acts)
}

/// Whether a machine agrees with a plain one after each of ten stretches of forty acts.
fn stays_plain<const N: usize>(alloc: Global, chips: u16) -> Option<bool>
    requires dimension { N ≤ 12 }
    requires chips { chips ≡ 2 ^ N }
{
    let mut pair = Pair::<N>::blank(alloc)?;
    pair.stays_alike(alloc, chips)
}

#[test]
fn every_size_goes_as_a_plain_machine_does(rt: HostRuntime) {
    let alloc = rt.alloc();
    let sizes = [
        stays_plain::<0>(alloc, 1),
        stays_plain::<1>(alloc, 2),
        stays_plain::<2>(alloc, 4),
        stays_plain::<3>(alloc, 8),
        stays_plain::<5>(alloc, 32),
    ];
    assert_eq!(rt; sizes, [Some(true); 5]);
}

// ---- alone

/// How many flags of two chips are not as wanted: after flag 0 of one processor has gone north, and then
/// along the chain, flag 10 is 1 in the processor north of it alone, and flag 11 in the next alone.
fn strays(machine: &PlainMachine<1>) -> usize {
    let mut strays: usize = 0;
    for chip in 0u16..2 {
        for p in 0u8..16 {
            let proc = processor(p);
            let from_the_south = machine.flag(chip, proc, flag(10));
            let from_before = machine.flag(chip, proc, flag(11));
            let wanted = ((chip, p) == (1, 13), (chip, p) == (0, 2));
            if (from_the_south, from_before) != wanted {
                strays = strays.saturating_add(1);
            }
        }
    }
    strays
}

/// Two chips after flag 0 of processor 1 of the first has gone north, and then along the chain.
fn after_two_steps(alloc: Global) -> Option<PlainMachine<1>> {
    let mut machine = PlainMachine::blank(alloc, 2).ok()?;
    if !takes_two_steps(alloc, &mut machine) {
        return None;
    }
    Some(machine)
}

fn takes_two_steps(alloc: Global, machine: &mut PlainMachine<1>) -> bool {
    machine.poke_flag(0, processor(1), flag(0), true);
    machine.step(alloc, &over_news(Dir::North)).is_ok()
        && machine.step(alloc, &over_chain(flag(0))).is_ok()
}

#[test]
fn one_step_moves_a_bit_over_the_edge_of_its_chip(rt: HostRuntime) {
    let strays = after_two_steps(rt.alloc()).map(|machine| strays(&machine));
    assert_eq!(rt; strays, Some(0));
}

/// Whether a 1 that is put at an address is there, and whether the processor before it has it.
fn poked_at(machine: &mut PlainMachine<0>, at: u16) -> (bool, bool)
    requires at { at < 4096 }
{
    let at = address(at);
    machine.poke(0, processor(7), at, true);
    (
        machine.read(0, processor(7), at),
        machine.read(0, processor(6), at),
    )
}

/// The same of flag 8.
fn poked_into_flag_8(machine: &mut PlainMachine<0>) -> (bool, bool) {
    machine.poke_flag(0, processor(7), flag(8), true);
    (
        machine.flag(0, processor(7), flag(8)),
        machine.flag(0, processor(6), flag(8)),
    )
}

/// What is read after three pokes of memory bits, of which there are four, and one of flag 8.
fn poked(alloc: Global) -> Option<[(bool, bool); 4]> {
    let mut machine = PlainMachine::<0>::blank(alloc, 4).ok()?;
    Some([
        poked_at(&mut machine, 3),
        poked_at(&mut machine, 4),
        poked_at(&mut machine, 4095),
        poked_into_flag_8(&mut machine),
    ])
}

#[test]
fn a_poke_beyond_the_memory_or_into_flag_8_is_dropped(rt: HostRuntime) {
    let wanted = [
        (true, false),
        (false, false),
        (false, false),
        (false, false),
    ];
    assert_eq!(rt; poked(rt.alloc()), Some(wanted));
}
