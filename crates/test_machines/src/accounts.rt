//! Where the messages of a random machine are, beside the plain program of the router.

ghost use Rattle.std.specs.Prelude.{◌≡◌, ◌^◌};

use cm_array::Machine;
use cm_bits::Place;
use cm_message::{Event, Message, Tag};
use cm_model::Found;
use cm_plain::PlainRouter;
use std::alloc::{AllocError, Global};
use test_generators::copied;

/// Whether each message that was taken in is found where it is, and stands in the account of both
/// once, with the place that it was bound for and its payload.
pub(crate) fn are_found<const N: usize, const CAP: usize>(
    alloc: Global,
    machine: &Machine<N, CAP>,
    plain: &PlainRouter<N, CAP>,
    chips: u16,
) -> Result<bool, AllocError>
    requires chips { chips ≡ 2 ^ N }
{
    let lines = lines_of(alloc, machine, chips)?;
    let are_same = lines == plain_lines_of(alloc, plain, chips)?;
    Ok(
        are_same
            && stand_once(alloc, machine, &lines, chips)?
            && are_found_alike(alloc, machine, plain, chips)?,
    )
}

fn lines_of<const N: usize, const CAP: usize>(
    alloc: Global,
    machine: &Machine<N, CAP>,
    chips: u16,
) -> Result<Vec<Line>, AllocError>
    requires chips { chips ≡ 2 ^ N }
{
    let mut lines = Vec::new(alloc);
    for c in 0..chips {
        let events = copied(alloc, &machine.log(c)).ok_or(AllocError)?;
        add_lines(&mut lines, c, machine.buffer(c), &events)?;
    }
    Ok(lines)
}

fn plain_lines_of<const N: usize, const CAP: usize>(
    alloc: Global,
    plain: &PlainRouter<N, CAP>,
    chips: u16,
) -> Result<Vec<Line>, AllocError>
    requires chips { chips ≡ 2 ^ N }
{
    let mut lines = Vec::new(alloc);
    for c in 0..chips {
        add_lines(&mut lines, c, plain.buffer(c), plain.log(c))?;
    }
    Ok(lines)
}

/// Whether each message that was taken in stands once among the lines.
fn stand_once<const N: usize, const CAP: usize>(
    alloc: Global,
    machine: &Machine<N, CAP>,
    lines: &[Line],
    chips: u16,
) -> Result<bool, AllocError>
    requires chips { chips ≡ 2 ^ N }
{
    for c in 0..chips {
        let events = copied(alloc, &machine.log(c)).ok_or(AllocError)?;
        for event in &events {
            if let Event::Injected(message) = event
                && !Line::new(c, message).stands_once(lines)
            {
                return Ok(false);
            }
        }
    }
    Ok(true)
}

/// Whether both find each message that was taken in, at one place.
fn are_found_alike<const N: usize, const CAP: usize>(
    alloc: Global,
    machine: &Machine<N, CAP>,
    plain: &PlainRouter<N, CAP>,
    chips: u16,
) -> Result<bool, AllocError>
    requires chips { chips ≡ 2 ^ N }
{
    for c in 0..chips {
        let events = copied(alloc, &machine.log(c)).ok_or(AllocError)?;
        for event in &events {
            if let Event::Injected(message) = event
                && !is_found_alike(machine.find(message.tag), plain, message.tag, chips)
            {
                return Ok(false);
            }
        }
    }
    Ok(true)
}

/// Whether the message of a tag was found, and where the plain machine has it.
fn is_found_alike<const N: usize, const CAP: usize>(
    found: Found,
    plain: &PlainRouter<N, CAP>,
    tag: Tag,
    chips: u16,
) -> bool
    requires chips { chips ≡ 2 ^ N }
{
    found != Found::Unknown && found == found_in(plain, &tag, chips)
}

/// Where the message of a tag is in the plain machine.
fn found_in<const N: usize, const CAP: usize>(
    plain: &PlainRouter<N, CAP>,
    tag: &Tag,
    chips: u16,
) -> Found
    requires chips { chips ≡ 2 ^ N }
{
    for c in 0..chips {
        if stands_in(plain.buffer(c), tag) {
            return Found::Router(c);
        }
    }
    delivered_in(plain, tag, chips)
}

fn stands_in(messages: &[Message], tag: &Tag) -> bool {
    for message in messages {
        if message.tag == *tag {
            return true;
        }
    }
    false
}

/// Where it was delivered.
fn delivered_in<const N: usize, const CAP: usize>(
    plain: &PlainRouter<N, CAP>,
    tag: &Tag,
    chips: u16,
) -> Found
    requires chips { chips ≡ 2 ^ N }
{
    for c in 0..chips {
        let found = delivered_by(plain.log(c), tag);
        if found != Found::Unknown {
            return found;
        }
    }
    Found::Unknown
}

/// Where it was delivered, by what a log tells.
fn delivered_by(log: &[Event], tag: &Tag) -> Found {
    for event in log {
        if let Event::Delivered { message, chip } = event
            && message.tag == *tag
        {
            return Found::Delivered(*chip, message.proc);
        }
    }
    Found::Unknown
}

/// One line of an account: where a message is bound or was delivered.
#[derive(Clone, Copy, Debug, PartialEq, Eq)]
struct Line {
    tag: Tag,
    target: Place,
    payload: u32,
}

impl Line {
    /// The line of a message that stands at a chip.
    fn new(chip: u16, message: &Message) -> Line {
        Line {
            tag: message.tag,
            target: Place {
                chip: chip ^ message.rel,
                proc: message.proc,
            },
            payload: message.payload,
        }
    }

    /// Whether it is the only line with its tag.
    fn stands_once(&self, lines: &[Line]) -> bool {
        let mut with_tag = lines.iter().filter(|line| line.tag == self.tag);
        with_tag.next() == Some(self) && with_tag.next().is_none()
    }
}

/// Adds a chip's lines: of what stands there, and of what was delivered there.
fn add_lines(
    lines: &mut Vec<Line>,
    chip: u16,
    buffer: &[Message],
    log: &[Event],
) -> Result<(), AllocError> {
    for message in buffer {
        let Ok(()) = lines.push(Line::new(chip, message)) else {
            return Err(AllocError);
        };
    }
    for event in log {
        if let Event::Delivered { message, chip } = event {
            let Ok(()) = lines.push(Line::new(*chip, message)) else {
                return Err(AllocError);
            };
        }
    }
    Ok(())
}
