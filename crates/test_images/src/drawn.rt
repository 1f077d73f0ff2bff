//! Machines with drawn planes, flags and messages.

ghost use Rattle.std.specs.Prelude.{◌≡◌, ◌<◌, ◌^◌};

use cm_array::{Builder, Machine};
use cm_bits::{Addr, Edge, FlagNo};
use cm_message::Rule;
use std::alloc::Global;
use test_generators::{Draws, put_flags, put_messages, put_planes};

/// A machine of so many chips with few planes and flags, and messages at each chip.
pub(crate) fn few<const N: usize, const CAP: usize>(
    alloc: Global,
    draws: &mut Draws,
    chips: u16,
) -> Option<Machine<N, CAP>>
    requires cube { chips ≡ 2 ^ N }
{
    begun(alloc, draws, chips)?.done().ok()
}

/// The same where some wires are cut, one over dimension 0, and the rule is drawn.
pub(crate) fn routed<const N: usize, const CAP: usize>(
    alloc: Global,
    draws: &mut Draws,
    chips: u16,
) -> Option<Machine<N, CAP>>
    requires cube { chips ≡ 2 ^ N }
{
    let mut builder = begun::<N, CAP>(alloc, draws, chips)?;
    put_routing(&mut builder, draws, chips);
    builder.done().ok()
}

/// The same where on each chip processors ask to send messages too.
pub(crate) fn asking<const N: usize, const CAP: usize>(
    alloc: Global,
    draws: &mut Draws,
    chips: u16,
) -> Option<Machine<N, CAP>>
    requires cube { chips ≡ 2 ^ N }
{
    let mut builder = begun::<N, CAP>(alloc, draws, chips)?;
    ask(&mut builder, draws, chips);
    put_routing(&mut builder, draws, chips);
    builder.done().ok()
}

fn ask<const N: usize, const CAP: usize>(
    builder: &mut Builder<N, CAP>,
    draws: &mut Draws,
    chips: u16,
)
    requires cube { chips ≡ 2 ^ N }
{
    for chip in 0..chips {
        put_planes(builder, draws, chip, 3968, 4020);
        builder.flag_plane(chip, FlagNo::SEND, 0x7ffe | draws.plane());
    }
}

/// It is not done yet.
fn begun<const N: usize, const CAP: usize>(
    alloc: Global,
    draws: &mut Draws,
    chips: u16,
) -> Option<Builder<N, CAP>>
    requires cube { chips ≡ 2 ^ N }
{
    let clock = 5 + u64::from(draws.below(1000));
    let mut builder = Builder::<N, CAP>::start(alloc, clock).ok()?;
    put_chips(&mut builder, draws, chips);
    Some(builder)
}

fn put_chips<const N: usize, const CAP: usize>(
    builder: &mut Builder<N, CAP>,
    draws: &mut Draws,
    chips: u16,
)
    requires cube { chips ≡ 2 ^ N }
{
    for chip in 0..chips {
        put_few_planes(builder, draws, chip);
        put_flags(builder, draws, chip, 3);
        put_messages(builder, draws, chip, chips, 9);
    }
}

/// A drawn rule, and up to nine wires that are cut, in no order.
fn put_routing<const N: usize, const CAP: usize>(
    builder: &mut Builder<N, CAP>,
    draws: &mut Draws,
    chips: u16,
)
    requires cube { chips ≡ 2 ^ N }
{
    if draws.below(2) == 1 {
        builder.rule(Rule::Oldest);
    }
    for _ in 0..draws.below(9) {
        put_cut(builder, draws.below(4096), draws.below(12) as u8, chips);
    }
    put_cut(builder, 0, 0, chips);
}

/// Cuts a wire, if there is one whose lower end this chip is.
fn put_cut<const N: usize, const CAP: usize>(
    builder: &mut Builder<N, CAP>,
    chip: u16,
    dimension: u8,
    chips: u16,
)
    requires cube { chips ≡ 2 ^ N }
{
    if let Some(edge) = Edge::new(chip, dimension)
        && chip < chips
        && usize::from(dimension) < N
    {
        builder.cut(edge);
    }
}

/// Up to five planes anywhere, some of them 0.
fn put_few_planes<const N: usize, const CAP: usize>(
    builder: &mut Builder<N, CAP>,
    draws: &mut Draws,
    chip: u16,
)
    requires chip { chip < 2 ^ N }
{
    for _ in 0..draws.below(6) {
        if let Some(at) = Addr::new(draws.below(4096)) {
            builder.plane(chip, at, draws.below(4));
        }
    }
}
