//! Parts of machines, drawn.

ghost use Rattle.std.specs.Prelude.{◌≡◌, ◌+◌, ◌<◌, ◌≤◌, ◌^◌};

use crate::drawing::Draws;
use crate::numbers::{address, flag, processor};
use cm_array::{Builder, Machine};
use cm_bits::{Addr, Edge, FlagNo, Plane, Proc};
use cm_message::{Message, Tag};
use cm_model::Rule;
use std::alloc::Global;

/// A machine at rest with bits and flags, in which half of the processors ask to send somewhere, and half can receive;
/// routed in a drawn way.
pub fn asking_machine<const N: usize, const CAP: usize>(
    alloc: Global,
    draws: &mut Draws,
    chips: u16,
) -> Option<Machine<N, CAP>>
    requires cube { chips ≡ 2 ^ N }
{
    let mut builder = Builder::<N, CAP>::start(alloc, 0).ok()?;
    for chip in 0..chips {
        put_flags(&mut builder, draws, chip, 65_535);
        put_planes(&mut builder, draws, chip, 3968, 3996);
    }
    put_routing(&mut builder, draws, chips);
    builder.done().ok()
}

/// No wire is cut, or about a fifth of them; and messages leave by either rule.
pub fn put_routing<const N: usize, const CAP: usize>(
    builder: &mut Builder<N, CAP>,
    draws: &mut Draws,
    chips: u16,
)
    requires cube { chips ≡ 2 ^ N }
    requires dimension { N ≤ 12 }
{
    if draws.below(2) == 0 {
        builder.rule(Rule::Oldest);
    }
    if draws.below(2) == 0 {
        for chip in 0..chips {
            cut_some(builder, draws, chip);
        }
    }
}

/// Of the wires of a chip to higher ones about a fifth is cut.
fn cut_some<const N: usize, const CAP: usize>(
    builder: &mut Builder<N, CAP>,
    draws: &mut Draws,
    chip: u16,
)
    requires chip { chip < 2 ^ N }
    requires dimension { N ≤ 12 }
{
    for dim in 0..N as u8 {
        match Edge::new(chip, dim) {
            Some(edge) if draws.below(5) == 0 => builder.cut(edge),
            _ => {}
        }
    }
}

/// Each flag of a chip but ZERO gets a plane below a limit.
pub fn put_flags<const N: usize, const CAP: usize>(
    builder: &mut Builder<N, CAP>,
    draws: &mut Draws,
    chip: u16,
    limit: u16,
)
    requires chip { chip < 2 ^ N }
    requires some { 0 < limit }
{
    for number in 0..16u8 {
        let number = flag(number);
        if number != FlagNo::ZERO {
            builder.flag_plane(chip, number, draws.below(limit));
        }
    }
}

/// Each address of a chip from one to before another gets a plane.
pub fn put_planes<const N: usize, const CAP: usize>(
    builder: &mut Builder<N, CAP>,
    draws: &mut Draws,
    chip: u16,
    first: u16,
    end: u16,
)
    requires chip { chip < 2 ^ N }
{
    for at in first..end {
        if let Some(at) = Addr::new(at) {
            builder.plane(chip, at, draws.plane());
        }
    }
}

/// Fewer messages than a limit stand at a chip, as long as there is room.
pub fn put_messages<const N: usize, const CAP: usize>(
    builder: &mut Builder<N, CAP>,
    draws: &mut Draws,
    chip: u16,
    chips: u16,
    limit: u16,
)
    requires cube { chips ≡ 2 ^ N }
    requires chip { chip < chips }
    requires some { 0 < limit }
{
    for birth in 0..u64::from(draws.below(limit)) {
        let message = drawn_message(draws, chip, chips, birth);
        if !builder.is_full(chip) && birth < builder.clock() {
            builder.message(chip, message);
        }
    }
}

/// A message of this birth from a chip, somewhere on its way.
fn drawn_message(draws: &mut Draws, chip: u16, chips: u16, birth: u64) -> Message
    requires some { 0 < chips }
    ensures rel { result.rel < chips }
    ensures chip { result.tag.chip ≡ chip }
    ensures birth { result.tag.birth ≡ birth }
{
    Message {
        rel: draws.below(chips),
        proc: processor(draws.below(16) as u8),
        payload: draws.number(),
        tag: Tag {
            chip,
            proc: processor(draws.below(16) as u8),
            birth,
        },
    }
}

/// Gives one flag of the sixteen processors of a chip these bits; flag ZERO stays as it is.
pub fn poke_plane<const N: usize, const CAP: usize>(
    machine: &mut Machine<N, CAP>,
    chip: u16,
    number: FlagNo,
    plane: Plane,
)
    requires chip { chip < 2 ^ N }
{
    for p in 0u8..16 {
        let _ = machine.poke_flag(chip, processor(p), number, plane >> p & 1 == 1);
    }
}

/// Puts a number into a field of one processor, the lowest bit first.
pub fn poke_field<const N: usize, const CAP: usize>(
    machine: &mut Machine<N, CAP>,
    chip: u16,
    proc: Proc,
    at: u16,
    len: u16,
    number: u32,
)
    requires chip { chip < 2 ^ N }
    requires at { at + len ≤ 4096 }
    requires len { len ≤ 32 }
{
    for place in 0..len {
        machine.poke(chip, proc, address(at + place), number >> place & 1 == 1);
    }
}

/// Makes the processor from which a message comes ask that it be sent; its birth does not count.
pub fn ask<const N: usize, const CAP: usize>(machine: &mut Machine<N, CAP>, message: &Message)
    requires chip { message.now.tag.chip < 2 ^ N }
{
    let chip = message.tag.chip;
    let proc = message.tag.proc;
    poke_field(machine, chip, proc, 3968, 16, u32::from(message.rel));
    poke_field(machine, chip, proc, 3984, 4, u32::from(message.proc.get()));
    poke_field(machine, chip, proc, 3988, 32, message.payload);
    let _ = machine.poke_flag(chip, proc, FlagNo::SEND, true);
}

/// Drawn processors of each chip ask to send again, and all can receive.
pub fn ask_again<const N: usize, const CAP: usize>(
    machine: &mut Machine<N, CAP>,
    draws: &mut Draws,
    chips: u16,
)
    requires cube { chips ≡ 2 ^ N }
{
    for chip in 0..chips {
        poke_plane(machine, chip, FlagNo::SEND, draws.plane());
        poke_plane(machine, chip, FlagNo::RECV, 0);
    }
}
