//! A machine that was cut into blocks and joined again is the machine that it was.

ghost use Rattle.std.specs.Prelude.{◌≡◌, ◌<◌, ◌^◌};

use cm_array::{Machine, Plain, Runner};
use cm_bits::FlagNo;
use cm_model::Act;
use cm_subcube::{SplitFault, copy_by_blocks};
use std::alloc::Global;
use test_generators::{address, are_same, processor};

/// All processors ask to send, to other chips and processors each.
fn ask_all<const N: usize, const CAP: usize>(machine: &mut Machine<N, CAP>, chips: u16)
    requires chips { chips ≡ 2 ^ N }
{
    for c in 0..chips {
        for p in 0u8..16 {
            let proc = processor(p);
            for i in 0u8..12 {
                let bit = (c >> i ^ u16::from(p) >> i) & 1 == 1;
                machine.poke(c, proc, address(3968 + u16::from(i)), bit);
            }
            machine.poke(c, proc, address(3984), p & 1 == 0);
            let _ = machine.poke_flag(c, proc, FlagNo::SEND, true);
        }
    }
}

/// A machine whose processors all did, two petit cycles later; the events of the first are dealt out.
fn busy<const N: usize, const CAP: usize>(alloc: Global, chips: u16) -> Option<Machine<N, CAP>>
    requires chips { chips ≡ 2 ^ N }
{
    let mut machine = Machine::<N, CAP>::blank(alloc).ok()?;
    ask_all(&mut machine, chips);
    Plain.go(&mut machine, &[Act::Cycle]).ok()?;
    machine.deal_out().ok()?;
    Plain.go(&mut machine, &[Act::Cycle]).ok()?;
    Some(machine)
}

/// Whether some chip's log tells of an event.
fn has_events<const N: usize, const CAP: usize>(machine: &Machine<N, CAP>, chips: u16) -> bool
    requires chips { chips ≡ 2 ^ N }
{
    for c in 0..chips {
        if !machine.log(c).is_empty() {
            return true;
        }
    }
    false
}

/// Whether a machine comes back from 2^`k` blocks, into another that goes through a petit cycle before.
fn comes_back_into<const N: usize, const CAP: usize>(
    alloc: Global,
    machine: &Machine<N, CAP>,
    k: u8,
    other: &mut Machine<N, CAP>,
    chips: u16,
) -> Option<bool>
    requires chips { chips ≡ 2 ^ N }
{
    Plain.go(other, &[Act::Cycle]).ok()?;
    copy_by_blocks(alloc, machine, k, other).ok()?;
    Some(has_events(machine, chips) && are_same(alloc, machine, other, chips))
}

/// Whether it does into one that was busy otherwise.
fn is_brought_back<const N: usize, const CAP: usize>(
    alloc: Global,
    machine: &Machine<N, CAP>,
    k: u8,
    chips: u16,
) -> Option<bool>
    requires chips { chips ≡ 2 ^ N }
{
    let mut other = busy::<N, CAP>(alloc, chips)?;
    comes_back_into(alloc, machine, k, &mut other, chips)
}

/// Whether a busy machine does.
fn comes_back<const N: usize, const CAP: usize>(alloc: Global, chips: u16, k: u8) -> Option<bool>
    requires chips { chips ≡ 2 ^ N }
{
    let machine = busy::<N, CAP>(alloc, chips)?;
    is_brought_back(alloc, &machine, k, chips)
}

#[test]
fn a_machine_comes_back_from_its_blocks(rt: HostRuntime) {
    let alloc = rt.alloc();
    let back = [
        comes_back::<0, 7>(alloc, 1, 0),
        comes_back::<1, 1>(alloc, 2, 1),
        comes_back::<3, 15>(alloc, 8, 0),
        comes_back::<4, 7>(alloc, 16, 2),
        comes_back::<5, 3>(alloc, 32, 3),
    ];
    assert_eq!(rt; back, [Some(true); 5]);
}

/// Why such a machine is not cut into blocks of two chips.
fn fault_of(alloc: Global, machine: &Machine<4, 7>) -> Option<SplitFault> {
    let mut other = Machine::<4, 7>::blank(alloc).ok()?;
    copy_by_blocks(alloc, machine, 3, &mut other).err()
}

/// Why sixteen chips are not.
fn refused(alloc: Global) -> Option<SplitFault> {
    let machine = Machine::<4, 7>::blank(alloc).ok()?;
    fault_of(alloc, &machine)
}

#[test]
fn blocks_of_less_than_a_row_are_refused(rt: HostRuntime) {
    assert_eq!(rt; refused(rt.alloc()), Some(SplitFault::Split));
}
