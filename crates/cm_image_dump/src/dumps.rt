//! Writing the bytes of a machine.

ghost use Rattle.std.specs.Prelude.{◌≡◌, ℕ, ◌==◌, ◌+◌, ◌*◌, ◌++◌, ◌^◌, ◌<◌, ◌≤◌, List, [], length, IfOk, IfErr, Ok};
ghost use Rattle.std.specs.Prelude.{OnOk, IsErrOf, OnErr, vec_capacity};
ghost use Rattle.std.specs.Prelude.{false, if◌then◌else◌, slice_index, Some};
ghost use Rattle.std.specs.List.{flat_map};
ghost use Rattle.cm_model.specs.Processor.{Processor};
ghost use Rattle.cm_model.specs.Array.{chip_at};
ghost use Rattle.cm_message.specs.Bytes.{message_text};
ghost use Rattle.cm_image_format.specs.Cuts.{version_of};
ghost use Rattle.cm_image_format.specs.Image.{chip_text};
ghost use Rattle.cm_image_format.specs.Whole.{flag_plane_of, memory_plane_of, image_of_chip, image_of, text_of};
ghost use Rattle.cm_image_format.specs.Whole.{read_image};
ghost use Rattle.cm_image_format.specs.Laws.{without_logs};
ghost use Rattle.cm_image_dump.specs.Planes.{AreCounted, AreInUse, chips_text, flags_text, plane_listing, listing_at};
ghost use Rattle.cm_image_dump.specs.Planes.{listed_below, planes_below};
ghost use Rattle.cm_image_dump.specs.Sending.{front_text, GoesOut, GoesOutInPart, is_dump_write};

use crate::sending::{DumpRoom, sizes};
use cm_array::{MachineOf, Sizes};
use cm_bits::{Addr, FLAGS, Failed, FlagNo, NoMemory, Plane, Sink};
use cm_element::ChipView;
use cm_image_fields::{
    BLANK_CHIP_LEN, LISTING_LEN, cuts_len, push, push_cuts, push_head, push_u8, push_u16, push_u64,
    version_of,
};
use cm_image_format::texts_leave_out_logs;
use cm_message::{Message, bytes};
use cm_model::cuts_are_few;
use std::alloc::Global;
use std::mem;

const HEADER_LEN: usize = 16;

const MESSAGE_LEN: usize = 18;

/// The image of a machine: its one text. Its logs are not in it.
pub fn dump<S: Sizes>(alloc: Global, machine: &MachineOf<S>) -> Result<Vec<u8>, NoMemory>
    ensures value { IfOk result (λ text. text.items ≡ text_of S.n S.cap machine.now.machine) }
    ensures read { IfOk result (λ text. read_image S.n S.cap text.items ≡ Ok (without_logs S.n machine.now.machine)) }
{
    text_is_read(machine);
    let mut room = DumpRoom::without_text(alloc, machine)?;
    room.text = Vec::with_capacity(alloc, text_len(machine, &room.counts))?;
    let mut nowhere = Nowhere { failed: false };
    match room.send_text(machine, &mut nowhere, usize::MAX) {
        Ok(()) => Ok(mem::replace(&mut room.text, Vec::new(alloc))),
        Err(_) => Err(NoMemory),
    }
}

/// The text of a machine is read as the machine without its logs.
fn text_is_read<S: Sizes>(machine: &MachineOf<S>)
    ensures { read_image S.n S.cap (text_of S.n S.cap machine.now.machine) ≡ Ok (without_logs S.n machine.now.machine) }
{
    let _ = machine.clock();
    texts_leave_out_logs();
}

/// Where nothing goes: all that is to be written waits in its list.
#[derive(Drop)]
struct Nowhere {
    failed: bool,
}

impl Sink for Nowhere {
    ghost contents = { λ nowhere. Some [] };

    ghost has_failed = { λ nowhere. nowhere.failed };

    fn write(&mut self, _buf: &[u8]) -> Result<usize, Failed> {
        self.failed = true;
        Err(Failed)
    }
}

/// What an image has before its chips: header, counter, cut wires.
pub(crate) fn push_front<S: Sizes>(
    text: &mut Vec<u8>,
    machine: &MachineOf<S>,
) -> Result<(), NoMemory>
    ensures ok { OnOk result (text.new.items ≡ text.old.items ++ front_text S.n S.cap machine.now.machine) }
    ensures capacity { vec_capacity text.old ≤ vec_capacity text.new }
    ensures grows { OnOk result (length text.new.items ≤ length text.old.items + 80000) }
    ensures full { OnErr result (vec_capacity text.old < length text.old.items + 80000) }
{
    let cycles = machine.clock();
    let routing = machine.routing();
    let cuts = routing.cuts.edges();
    let version = version_of(routing.rule, cuts);
    cuts_are_few();
    let n = usize::from(machine.dims());
    let cap = usize::from(machine.room());
    push_head(text, version, n, cap, routing.rule)?;
    push_u64(text, cycles)?;
    push_cuts(text, version, cuts)
}

/// How many bytes the image has, so that its list need not grow.
fn text_len<S: Sizes>(machine: &MachineOf<S>, counts: &[u16]) -> usize
    requires counts { AreCounted (2 ^ S.n) machine.now.machine.chips 4096 counts.now }
    ensures value { result ≡ length (text_of S.n S.cap machine.now.machine) }
{
    sizes(machine);
    let routing = machine.routing();
    let cuts = routing.cuts.edges();
    let version = version_of(routing.rule, cuts);
    cuts_are_few();
    HEADER_LEN + cuts_len(version, cuts) + chips_len(machine, counts)
}

/// How many bytes it has of the chips.
fn chips_len<S: Sizes>(machine: &MachineOf<S>, counts: &[u16]) -> usize
    requires dimension { S.n ≤ 12 }
    requires room { S.cap ≤ 15 }
    requires counts { AreCounted (2 ^ S.n) machine.now.machine.chips 4096 counts.now }
    ensures value { result ≡ length (chips_text machine.now.machine 0 (2 ^ S.n)) }
    ensures within { result ≤ 4096 * 300000 }
{
    let mut len = 0;
    let count = machine.chip_count();
    for c in 0..count {
        len += chip_len(counts[usize::from(c)], machine.buffer(c));
    }
    len
}

/// How many bytes it has of a chip with so many listed planes and this buffer.
fn chip_len(planes: u16, buffer: &[Message]) -> usize
    requires few { length buffer.now < 256 }
    ensures value { (chip : List Processor) → planes ≡ length (planes_below chip 4096)
        → result ≡ length (chip_text (image_of_chip chip buffer.now)) }
    ensures within { result ≤ 300000 }
{
    BLANK_CHIP_LEN + usize::from(planes) * LISTING_LEN + buffer.len() * MESSAGE_LEN
}

/// What an image has of a chip with so many listed planes, all of them at these addresses, and this buffer.
pub(crate) fn push_sparse_chip(
    text: &mut Vec<u8>,
    chip: &ChipView<'_>,
    planes: u16,
    addresses: &[u16],
    buffer: &[Message],
) -> Result<(), NoMemory>
    requires planes { planes ≡ length (planes_below chip.now 4096) }
    requires within { (i : ℕ) → i < length addresses.now → slice_index addresses.now i < 4096 }
    requires listed { listed_below chip.now 4096 ≡ flat_map (listing_at chip.now) addresses.now }
    requires few { length buffer.now < 256 }
    ensures ok { OnOk result (text.new.items ≡ text.old.items ++ chip_text (image_of_chip chip.now buffer.now)) }
    ensures capacity { vec_capacity text.old ≤ vec_capacity text.new }
    ensures grows { OnOk result (length text.new.items
        ≤ length text.old.items + (35 + 4 * length addresses.now + 18 * length buffer.now)) }
    ensures full { OnErr result (vec_capacity text.old
        < length text.old.items + (35 + 4 * length addresses.now + 18 * length buffer.now)) }
{
    push_flags(text, chip)?;
    push_u16(text, planes)?;
    push_planes(text, chip, addresses)?;
    push_u8(text, buffer.len() as u8)?;
    push_messages(text, buffer)
}

pub(crate) fn push_flags(text: &mut Vec<u8>, chip: &ChipView<'_>) -> Result<(), NoMemory>
    ensures ok { OnOk result (text.new.items ≡ text.old.items ++ flags_text chip.now 16) }
    ensures capacity { vec_capacity text.old ≤ vec_capacity text.new }
    ensures grows { OnOk result (length text.new.items ≤ length text.old.items + 32) }
    ensures full { OnErr result (vec_capacity text.old < length text.old.items + 32) }
{
    for f in 0..FLAGS {
        push_u16(text, flag_plane(chip, f))?;
    }
    Ok(())
}

/// The planes at these addresses that are not 0.
fn push_planes(text: &mut Vec<u8>, chip: &ChipView<'_>, addresses: &[u16]) -> Result<(), NoMemory>
    requires within { (i : ℕ) → i < length addresses.now → slice_index addresses.now i < 4096 }
    ensures ok { OnOk result (text.new.items ≡ text.old.items ++ flat_map (listing_at chip.now) addresses.now) }
    ensures capacity { vec_capacity text.old ≤ vec_capacity text.new }
    ensures grows { OnOk result (length text.new.items ≤ length text.old.items + 4 * length addresses.now) }
    ensures full { OnErr result (vec_capacity text.old < length text.old.items + 4 * length addresses.now) }
{
    for at in addresses {
        push_plane(text, *at, memory_plane(chip, *at))?;
    }
    Ok(())
}

/// The address and the plane, but nothing where it is 0.
#[tactic(auto, unfolding(cm_message::specs::Bytes::number_bytes))]
pub(crate) fn push_plane(text: &mut Vec<u8>, at: u16, plane: Plane) -> Result<(), NoMemory>
    ensures ok { OnOk result (text.new.items ≡ text.old.items ++ plane_listing at plane) }
    ensures capacity { vec_capacity text.old ≤ vec_capacity text.new }
    ensures grows { OnOk result (length text.new.items ≤ length text.old.items + 4) }
    ensures full { OnErr result (vec_capacity text.old < length text.old.items + 4) }
{
    if plane == 0 {
        return Ok(());
    }
    let [at_high, at_low] = at.to_be_bytes();
    let [high, low] = plane.to_be_bytes();
    push(text, &[at_high, at_low, high, low])
}

pub(crate) fn push_messages(text: &mut Vec<u8>, messages: &[Message]) -> Result<(), NoMemory>
    ensures ok { OnOk result (text.new.items ≡ text.old.items ++ flat_map message_text messages.now) }
    ensures capacity { vec_capacity text.old ≤ vec_capacity text.new }
    ensures grows { OnOk result (length text.new.items ≤ length text.old.items + 18 * length messages.now) }
    ensures full { OnErr result (vec_capacity text.old < length text.old.items + 18 * length messages.now) }
{
    for message in messages {
        push(text, &bytes(message))?;
    }
    Ok(())
}

fn flag_plane(chip: &ChipView<'_>, f: u8) -> Plane
    requires flag { f < 16 }
    ensures value { result ≡ flag_plane_of chip.now f }
{
    let number = FlagNo::new(f).unwrap();
    chip.flag_plane(number)
}

fn memory_plane(chip: &ChipView<'_>, address: u16) -> Plane
    requires address { address < 4096 }
    ensures value { result ≡ memory_plane_of chip.now address }
{
    let at = Addr::new(address).unwrap();
    chip.plane(at)
}
