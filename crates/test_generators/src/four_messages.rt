//! Four messages of each of sixteen chips, worked by hand.

ghost use Rattle.std.specs.Prelude.{◌<◌};

use crate::looking::tells;
use crate::numbers::{address, processor};
use cm_array::{Builder, Machine};
use cm_bits::{Dir, Edge, FlagNo};
use cm_message::{Event, Message, Tag};
use cm_model::{Act, Found, Nano, Rule};
use std::alloc::{AllocError, Global};

/// What stands in memory from bit 3968 on for a message: to the chip whose number differs in all four bits,
/// processor 5, payload 7.
const RECORD: u64 = 15 | 5 << 16 | 7 << 20;

/// An instruction at one memory bit.
fn instruction(
    at: u16,
    read: FlagNo,
    write: FlagNo,
    cond: FlagNo,
    mem_table: u8,
    flag_table: u8,
) -> Act
    requires at { at < 4096 }
{
    Act::Nano(Nano {
        a: address(at),
        b: address(at),
        read,
        write,
        cond,
        sense: false,
        mem_table,
        flag_table,
        dir: Dir::North,
    })
}

/// 121 acts for a blank machine: over the chain flag DAISY becomes 0 in the first four processors of each chip and 1 in
/// the others; those four write down a message and ask to send it; and 64 petit cycles.
pub fn four_messages_each(alloc: Global) -> Result<Vec<Act>, AllocError> {
    let mut acts = Vec::new(alloc);
    acts.push(instruction(0, FlagNo::ZERO, FlagNo::DAISY, FlagNo::ZERO, 0xf0, 0xff))?;
    for _turn in 0..3 {
        acts.push(instruction(0, FlagNo::DAISY, FlagNo::DAISY, FlagNo::ZERO, 0xf0, 0xaa))?;
    }
    for place in 0u16..52 {
        let bit = if RECORD >> place & 1 == 1 { 0xff } else { 0x00 };
        acts.push(instruction(
            3968 + place,
            FlagNo::ZERO,
            FlagNo::ZERO,
            FlagNo::DAISY,
            bit,
            0x00,
        ))?;
    }
    acts.push(instruction(0, FlagNo::ZERO, FlagNo::SEND, FlagNo::DAISY, 0xf0, 0xff))?;
    for _cycle in 0..64 {
        acts.push(Act::Cycle)?;
    }
    Ok(acts)
}

/// A message of theirs: how far it has to go, and which chip and processor sent it.
pub fn one_of_four(rel: u16, chip: u16, sender: u8) -> Message
    requires sender { sender < 16 }
{
    Message {
        rel,
        proc: processor(5),
        payload: 7,
        tag: tag(chip, sender),
    }
}

fn tag(chip: u16, sender: u8) -> Tag
    requires { sender < 16 }
{
    Tag {
        chip,
        proc: processor(sender),
        birth: 0,
    }
}

/// Sixteen blank chips, whose messages leave by this rule; the wires are cut from chip 0 to 1 and from chip 7 to 15.
pub fn cut_in_two_places(alloc: Global, rule: Rule) -> Option<Machine<4, 7>> {
    let mut builder = Builder::<4, 7>::start(alloc, 0).ok()?;
    builder.rule(rule);
    for (chip, dim) in [(0, 0), (7, 3)] {
        if let Some(edge) = Edge::new(chip, dim) {
            builder.cut(edge);
        }
    }
    builder.done().ok()
}

/// Whether, after the acts of `four_messages_each` on a blank machine, chip 15 has sent four messages and got one for
/// its processor 5. Three wait, since nothing sets that processor's RECV to 0 again.
pub fn has_one_of_four(alloc: Global, machine: &Machine<4, 7>) -> bool {
    let waiting = [
        one_of_four(0, 0, 3),
        one_of_four(0, 0, 0),
        one_of_four(0, 0, 1),
    ];
    let events = [
        Event::Injected(one_of_four(15, 15, 0)),
        Event::Injected(one_of_four(15, 15, 1)),
        Event::Injected(one_of_four(15, 15, 2)),
        Event::Injected(one_of_four(15, 15, 3)),
        Event::Delivered {
            message: one_of_four(0, 0, 2),
            chip: 15,
        },
    ];
    machine.buffer(15) == waiting.as_slice()
        && tells(alloc, &machine.log(15), events.as_slice())
        && machine.find(tag(0, 2)) == Found::Delivered(15, processor(5))
}
