//! Why a message stays at its chip in a petit cycle.

ghost use Rattle.std.specs.Prelude.{◌≡◌, ◌++◌, ◌∷◌, [], ◌<◌, ◌≤◌, ◌^◌, IfOk, IfSome, OnOk, length};
ghost use Rattle.std.specs.List.{find};
ghost use Rattle.std.specs.Option.{option_to_list};
ghost use Rattle.cm_model.specs.declared.act.Act.TheVariants as act;
ghost use Rattle.cm_model.specs.Router.{has_to_cross};
ghost use Rattle.cm_model.specs.Buffers.{sent_across};
ghost use Rattle.lab_machine.specs.Machines.{lab_after};
ghost use Rattle.lab_route.specs.Waits.{wait_behind, crossing_wait, has_arrived_for, wait_second, delivery_wait};
ghost use Rattle.lab_route.specs.Waits.{waits_in};

use crate::whereabouts::{Stand, stand_in};
use cm_bits::{FlagNo, NoMemory};
use cm_model::{Message, Tag};
use cm_router::Node;
use lab_machine::LabMachine;
use lab_study::are_same;
use std::alloc::Global;

/// Why a message stays at its chip in a step of a petit cycle.
#[derive(Clone, Copy, Debug, PartialEq, Eq)]
pub enum Wait {
    /// Its wire over this dimension is cut.
    Cut(u8),
    /// Another message of its chip, that of this tag, goes first over this dimension.
    Behind(u8, Tag),
    /// Its processor has not fetched what it received before: RECV is 1.
    Unfetched,
    /// Another message for its processor, that of this tag, has arrived before it.
    Second(Tag),
}

/// Has a machine do a petit cycle, step by step, and tells why the message of a tag stays where it is.
pub(crate) fn cycle_with_waits(
    machine: &mut LabMachine,
    alloc: Global,
    tag: &Tag,
) -> Result<Vec<Wait>, NoMemory>
    ensures machine { OnOk result (machine.new ≡ lab_after machine.old act.Cycle) }
    ensures value { IfOk result (λ waits. waits.items
        ≡ waits_in machine.old.n machine.old.cap tag.now machine.old.machine) }
{
    let mut waits = Vec::new(alloc);
    let dims = machine.dims();
    machine.inject()?;
    for dim in 0..dims {
        push_wait(&mut waits, crossing_wait(machine, dim, tag))?;
        machine.cross(dim);
    }
    push_wait(&mut waits, delivery_wait(machine, tag))?;
    machine.deliver()?;
    Ok(waits)
}

fn push_wait(waits: &mut Vec<Wait>, wait: Option<Wait>) -> Result<(), NoMemory>
    ensures ok { OnOk result (waits.new.items ≡ waits.old.items ++ option_to_list wait) }
{
    match wait {
        None => Ok(()),
        Some(wait) => match waits.push(wait) {
            Ok(()) => Ok(()),
            Err(_) => Err(NoMemory),
        },
    }
}

/// Why the message does not cross a dimension that is to be crossed next.
fn crossing_wait(machine: &LabMachine, dim: u8, tag: &Tag) -> Option<Wait>
    requires dim { dim < machine.now.n }
    ensures value { result ≡ crossing_wait machine.now.n machine.now.cap dim tag.now machine.now.machine }
{
    let stand = stand_in(machine, tag)?;
    let is_cut = machine.cut(stand.chip, dim);
    if !has_to_cross(&stand.message, dim) {
        return None;
    }
    if is_cut {
        return Some(Wait::Cut(dim));
    }
    wait_behind(dim, tag, sent_across(machine, stand.chip, dim))
}

fn has_to_cross(message: &Message, dim: u8) -> bool
    requires dim { dim < 12 }
    ensures value { result ≡ has_to_cross dim message.now }
{
    message.rel >> dim & 1 == 1
}

/// Another message goes first.
fn wait_behind(dim: u8, tag: &Tag, first: Option<Message>) -> Option<Wait>
    ensures value { result ≡ wait_behind dim tag.now first }
{
    let first = first?;
    if are_same(&first.tag, tag) {
        None
    } else {
        Some(Wait::Behind(dim, first.tag))
    }
}

/// The message that a chip sends across a dimension: that which leaves a node with its messages.
fn sent_across(machine: &LabMachine, chip: u16, dim: u8) -> Option<Message>
    requires chip { chip < 2 ^ machine.now.n }
    requires dim { dim < machine.now.n }
    ensures value { result
        ≡ sent_across machine.now.machine.routing machine.now.cap dim machine.now.machine.buffers chip }
{
    let mut node = node_of(machine.room(), machine.buffer(chip));
    node.leave(dim, machine.cut(chip, dim), machine.rule())
}

/// A node with these messages.
fn node_of(room: u8, messages: &[Message]) -> Node
    requires some { 0 < room }
    requires most { room ≤ 15 }
    requires within { length messages.now ≤ room }
    ensures value { result ≡ record { room = room; messages = messages.now } }
{
    let mut node = Node::new(room);
    for message in messages {
        node.arrive(*message);
    }
    node
}

/// Why it is not delivered, where delivery is to come next.
fn delivery_wait(machine: &LabMachine, tag: &Tag) -> Option<Wait>
    ensures value { result ≡ delivery_wait machine.now.n tag.now machine.now.machine }
{
    let stand = stand_in(machine, tag)?;
    if stand.message.rel != 0 {
        return None;
    }
    let first = first_arrived(&stand.message, machine.buffer(stand.chip));
    if machine
        .chip(stand.chip)
        .flag(stand.message.proc, FlagNo::RECV)
    {
        return Some(Wait::Unfetched);
    }
    wait_second(tag, first)
}

/// The first of these messages that has arrived for the processor of this one.
fn first_arrived(message: &Message, messages: &[Message]) -> Option<Message>
    ensures value { result ≡ find (has_arrived_for message.now.proc) messages.now }
{
    for other in messages {
        if other.rel == 0 && other.proc.get() == message.proc.get() {
            return Some(*other);
        }
    }
    None
}

/// Another message has arrived first.
fn wait_second(tag: &Tag, first: Option<Message>) -> Option<Wait>
    ensures value { result ≡ wait_second tag.now first }
{
    let first = first?;
    if are_same(&first.tag, tag) {
        None
    } else {
        Some(Wait::Second(first.tag))
    }
}
