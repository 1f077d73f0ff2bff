//! What the tests put into whole machines.

ghost use Rattle.std.specs.Prelude.{◌≡◌, ◌<◌};

use cm_bits::{Dir, FlagNo};
use cm_message::{Message, Tag};
use cm_model::{Act, Nano};
use test_generators::{address, flag, processor};

pub(crate) const SEND: u8 = 12;

pub(crate) const ACK: u8 = 13;

pub(crate) const RECV: u8 = 14;

/// In every processor a flag becomes what this table says of memory bit 0, the table's left half where
/// that is 1.
pub(crate) fn everywhere(write: FlagNo, flag_table: u8) -> Act {
    Act::Nano(Nano {
        a: address(0),
        b: address(0),
        read: flag(0),
        write,
        cond: flag(8),
        sense: false,
        mem_table: 0xf0,
        flag_table,
        dir: Dir::North,
    })
}

/// The tag of a message that a processor sent before the first petit cycle.
pub(crate) fn tag(chip: u16, sender: u8) -> Tag
    requires sender { sender < 16 }
    ensures chip { result.chip ≡ chip }
{
    Tag {
        chip,
        proc: processor(sender),
        birth: 0,
    }
}

/// The message with a tag.
pub(crate) fn message(rel: u16, receiver: u8, payload: u32, tag: Tag) -> Message
    requires receiver { receiver < 16 }
    ensures tag { result.tag ≡ tag }
{
    Message {
        rel,
        proc: processor(receiver),
        payload,
        tag,
    }
}
