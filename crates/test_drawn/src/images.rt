//! Drawn machines, which both debuggers begin with.

ghost use Rattle.std.specs.Prelude.{◌≡◌, ◌<◌, ◌≤◌, ◌^◌};

use crate::draws::Draws;
use cm_array::{Builder, Machine};
use cm_bits::{Addr, Edge, FlagNo, Proc};
use cm_message::{Message, Rule, Tag};
use std::alloc::Global;

const LAST: u64 = u64::MAX >> 1;

/// A machine of so many chips with bits, flags and messages at each, of which one in two goes by the second rule and
/// one in two has cut wires; in one of four the counter of petit cycles is near its end.
pub(crate) fn machine<const N: usize, const CAP: usize>(
    alloc: Global,
    draws: &mut Draws,
    chips: u16,
) -> Option<Machine<N, CAP>>
    requires cube { chips ≡ 2 ^ N }
{
    let cycles = u64::from(draws.below(4));
    let clock = if draws.once_in(4) {
        LAST - cycles
    } else {
        4 + cycles
    };
    let mut builder = Builder::<N, CAP>::start(alloc, clock).ok()?;
    for chip in 0..chips {
        put_bits(&mut builder, draws, chip);
        put_messages(&mut builder, draws, chip, chips);
    }
    put_routing(&mut builder, draws, chips);
    builder.done().ok()
}

/// Either rule; and no wire is cut, or about a third of them.
fn put_routing<const N: usize, const CAP: usize>(
    builder: &mut Builder<N, CAP>,
    draws: &mut Draws,
    chips: u16,
)
    requires cube { chips ≡ 2 ^ N }
    requires dimension { N ≤ 12 }
{
    if draws.once_in(2) {
        builder.rule(Rule::Oldest);
    }
    if draws.once_in(2) {
        for chip in 0..chips {
            cut_some(builder, draws, chip);
        }
    }
}

/// Of the wires of a chip to higher ones about a third is cut.
fn cut_some<const N: usize, const CAP: usize>(
    builder: &mut Builder<N, CAP>,
    draws: &mut Draws,
    chip: u16,
)
    requires chip { chip < 2 ^ N }
    requires dimension { N ≤ 12 }
{
    for dim in 0..N as u8 {
        match Edge::new(chip, dim) {
            Some(edge) if draws.once_in(3) => builder.cut(edge),
            _ => {}
        }
    }
}

/// Bits of the first fields and of what is sent, and flags.
fn put_bits<const N: usize, const CAP: usize>(
    builder: &mut Builder<N, CAP>,
    draws: &mut Draws,
    chip: u16,
)
    requires chip { chip < 2 ^ N }
{
    for number in 0..60u16 {
        let at = if number < 8 { number } else { 3960 + number };
        if let Some(at) = Addr::new(at) {
            builder.plane(chip, at, draws.below(65_535));
        }
    }
    for number in 0..16u8 {
        match FlagNo::new(number) {
            Some(number) if number != FlagNo::ZERO => {
                builder.flag_plane(chip, number, draws.below(65_535));
            }
            _ => {}
        }
    }
}

/// Up to three messages, as long as there is room.
fn put_messages<const N: usize, const CAP: usize>(
    builder: &mut Builder<N, CAP>,
    draws: &mut Draws,
    chip: u16,
    chips: u16,
)
    requires cube { chips ≡ 2 ^ N }
    requires chip { chip < chips }
{
    for birth in 0..u64::from(draws.below(4)) {
        let (rel, payload) = (draws.below(chips), draws.number());
        let (to, from) = (draws.below(16) as u8, draws.below(16) as u8);
        let (Some(proc), Some(sender)) = (Proc::new(to), Proc::new(from)) else {
            return;
        };
        let tag = Tag {
            chip,
            proc: sender,
            birth,
        };
        let message = Message {
            rel,
            proc,
            payload,
            tag,
        };
        if !builder.is_full(chip) && birth < builder.clock() {
            builder.message(chip, message);
        }
    }
}
