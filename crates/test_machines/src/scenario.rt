//! Scenarios of the router: lists of steps that one player plays on a machine and on the plain one
//! beside it. After each list of acts both have the same bits, flags, messages, events and petit cycles.

ghost use Rattle.std.specs.Prelude.{◌≡◌, ◌<◌, ◌≤◌, ◌^◌};

use crate::both::Both;
use crate::machines::{RECV, SEND, everywhere};
use cm_array::{Machine, Plain, RunFault, Runner};
use cm_bits::{Field, FlagNo, Plane, Proc};
use cm_message::{Event, Message, Tag};
use cm_model::{Act, Found};
use std::alloc::{AllocError, Global};
use test_generators::{copied, flag};

/// A processor, by the number of its chip and its own.
#[derive(Clone, Copy)]
pub(crate) struct At(pub(crate) u16, pub(crate) u8);

/// Where a message is bound for: a relative address, and a processor of the chip that it leads to.
#[derive(Clone, Copy)]
pub(crate) struct To(pub(crate) u16, pub(crate) u8);

/// A message: who sent it, in which petit cycle it was taken in, where it is bound for, its payload.
#[derive(Clone, Copy)]
pub(crate) struct Letter(pub(crate) At, pub(crate) u64, pub(crate) To, pub(crate) u32);

/// Steps on a blank machine whose routers have room for so many messages.
pub(crate) struct Scenario {
    pub(crate) name: &'static str,
    pub(crate) room: u8,
    pub(crate) steps: &'static [Step],
}

/// One step of a scenario: what is done to both machines, or what is seen then.
#[derive(Clone, Copy)]
pub(crate) enum Step {
    // ---- what is done
    /// A processor asks that a message with this payload be sent.
    Ask(At, To, u32),
    /// A flag of a chip's processors becomes these bits.
    Poke(u16, u8, Plane),
    /// So many petit cycles, in one list.
    Cycles(usize),
    /// So many times, in one list: all processors ask to send, all can receive, so many looks at the
    /// wire, and a petit cycle.
    Turns(u16, u16),
    /// In one list: a petit cycle, flag 0 is turned in every processor, a look at the wire.
    Inverting,
    /// Events are dealt out: each log lies in one piece then.
    DealOut,
    /// A copy takes the machine's place.
    Copied,
    /// So many petit cycles are too long a list.
    TooMany(usize),
    /// Such turns are too long a list.
    TooLong(u16, u16),
    // ---- what is seen
    /// So many messages stand at a chip.
    Count(u16, usize),
    /// At a chip and a place of its buffer, 0 the front, a message stands.
    Stands(u16, usize, Letter),
    /// A flag of a chip's processors.
    Flag(u16, u8, Plane),
    /// The last payload that a processor received.
    Payload(At, u32),
    /// So many events stand in a chip's log.
    Events(u16, usize),
    /// At a chip and a place of its log, 0 the oldest, a message is told to have been taken in.
    Injected(u16, usize, Letter),
    /// At a chip and a place of its log a message is told to have been delivered.
    Delivered(u16, usize, Letter),
    /// The message that a processor sent in a petit cycle is nowhere.
    Unknown(At, u64),
    /// It stands in the router of a chip.
    Waits(At, u64, u16),
    /// It was delivered to a processor.
    Came(At, u64, At),
    /// So many petit cycles so far.
    Counter(u64),
}

/// The place of the first step that does not go as it says; as many as there are where all do.
pub(crate) fn plays<const N: usize, const CAP: usize>(
    alloc: Global,
    chips: u16,
    steps: &[Step],
) -> Option<usize>
    requires dimension { N ≤ 12 }
    requires chips { chips ≡ 2 ^ N }
{
    let mut both = Both::<N, CAP>::blank(alloc)?;
    plays_on(alloc, &mut both, chips, steps)
}

fn plays_on<const N: usize, const CAP: usize>(
    alloc: Global,
    both: &mut Both<N, CAP>,
    chips: u16,
    steps: &[Step],
) -> Option<usize>
    requires chips { chips ≡ 2 ^ N }
{
    for place in 0..steps.len() {
        if !steps[place].is_so(both, alloc, chips).ok()? {
            return Some(place);
        }
    }
    Some(steps.len())
}

impl Step {
    /// Whether a step goes as it says. Ranges are looked at below, so that no step has a condition.
    fn is_so<const N: usize, const CAP: usize>(
        self,
        both: &mut Both<N, CAP>,
        alloc: Global,
        chips: u16,
    ) -> Result<bool, AllocError>
        requires chips { chips ≡ 2 ^ N }
    {
        match self {
            Step::Ask(from, to, payload) => Ok(asks(both, chips, from, to, payload)),
            Step::Poke(chip, number, plane) => Ok(pokes(both, chips, chip, number, plane)),
            Step::Cycles(count) => {
                let acts = vec![in alloc; Act::Cycle; count]?;
                Ok(go(both, alloc, chips, acts.as_slice()))
            }
            Step::Turns(turns, looks) => {
                let acts = turns_of(alloc, turns, looks)?;
                Ok(go(both, alloc, chips, acts.as_slice()))
            }
            Step::Inverting => {
                let acts = [Act::Cycle, everywhere(flag(0), 0x55), Act::Sense];
                Ok(go(both, alloc, chips, &acts))
            }
            Step::DealOut => Ok(deals_out(both, chips)),
            Step::Copied => Ok(is_copied(both, alloc, chips)),
            Step::TooMany(count) => {
                let acts = vec![in alloc; Act::Cycle; count]?;
                Ok(is_long(both, chips, acts.as_slice()))
            }
            Step::TooLong(turns, looks) => {
                let acts = turns_of(alloc, turns, looks)?;
                Ok(is_long(both, chips, acts.as_slice()))
            }
            seen => Ok(seen.is_seen(both, chips)),
        }
    }

    /// Whether what a step tells is seen.
    fn is_seen<const N: usize, const CAP: usize>(self, both: &Both<N, CAP>, chips: u16) -> bool
        requires chips { chips ≡ 2 ^ N }
    {
        match self {
            Step::Count(chip, count) => chip < chips && both.machine.buffer(chip).len() == count,
            Step::Stands(chip, place, letter) => chip < chips && stands(both, chip, place, letter),
            Step::Flag(chip, number, plane) => chip < chips && is_flag(both, chip, number, plane),
            Step::Payload(at, payload) => received(both, chips, at) == Some(payload),
            Step::Events(chip, count) => chip < chips && both.machine.log(chip).len() == count,
            Step::Injected(chip, place, letter) => {
                chip < chips && tells(both, chip, place, false, letter)
            }
            Step::Delivered(chip, place, letter) => {
                chip < chips && tells(both, chip, place, true, letter)
            }
            Step::Unknown(from, birth) => found(both, from, birth) == Some(Found::Unknown),
            Step::Waits(from, birth, chip) => {
                found(both, from, birth) == Some(Found::Router(chip))
            }
            Step::Came(from, birth, to) => came(both, from, birth, to),
            Step::Counter(count) => both.machine.clock() == count,
            _ => false,
        }
    }
}

// ---- what is done

fn asks<const N: usize, const CAP: usize>(
    both: &mut Both<N, CAP>,
    chips: u16,
    from: At,
    to: To,
    payload: u32,
) -> bool
    requires chips { chips ≡ 2 ^ N }
{
    match Letter(from, 0, to, payload).message() {
        Some(message) if message.tag.chip < chips => {
            both.ask(&message);
            true
        }
        _ => false,
    }
}

fn pokes<const N: usize, const CAP: usize>(
    both: &mut Both<N, CAP>,
    chips: u16,
    chip: u16,
    number: u8,
    plane: Plane,
) -> bool
    requires chips { chips ≡ 2 ^ N }
{
    match FlagNo::new(number) {
        Some(number) if chip < chips => {
            both.poke_plane(chip, number, plane);
            true
        }
        _ => false,
    }
}

/// Whether both run these acts and are the same then.
fn go<const N: usize, const CAP: usize>(
    both: &mut Both<N, CAP>,
    alloc: Global,
    chips: u16,
    acts: &[Act],
) -> bool
    requires chips { chips ≡ 2 ^ N }
{
    both.go(alloc, acts) && both.agree(chips)
}

/// Whether events are dealt out so that each log lies in one piece, and both are the same then.
fn deals_out<const N: usize, const CAP: usize>(both: &mut Both<N, CAP>, chips: u16) -> bool
    requires chips { chips ≡ 2 ^ N }
{
    both.machine.deal_out().is_ok() && lie_whole(&both.machine, chips) && both.agree(chips)
}

fn lie_whole<const N: usize, const CAP: usize>(machine: &Machine<N, CAP>, chips: u16) -> bool
    requires chips { chips ≡ 2 ^ N }
{
    for chip in 0..chips {
        if machine.log(chip).whole().is_none() {
            return false;
        }
    }
    true
}

/// Whether a copy, which takes the machine's place, is the same as the plain one.
fn is_copied<const N: usize, const CAP: usize>(
    both: &mut Both<N, CAP>,
    alloc: Global,
    chips: u16,
) -> bool
    requires chips { chips ≡ 2 ^ N }
{
    let Ok(copy) = both.machine.copy(alloc) else {
        return false;
    };
    both.machine = copy;
    both.agree(chips)
}

/// Whether the machine refuses these acts as too many, and is as it was: as the plain one is.
fn is_long<const N: usize, const CAP: usize>(
    both: &mut Both<N, CAP>,
    chips: u16,
    acts: &[Act],
) -> bool
    requires chips { chips ≡ 2 ^ N }
{
    Plain.go(&mut both.machine, acts) == Err(RunFault::Long) && both.agree(chips)
}

fn turns_of(alloc: Global, turns: u16, looks: u16) -> Result<Vec<Act>, AllocError> {
    let mut acts = Vec::new(alloc);
    for _turn in 0..turns {
        acts.push(everywhere(flag(SEND), 0xff))?;
        acts.push(everywhere(flag(RECV), 0x00))?;
        for _look in 0..looks {
            acts.push(Act::Sense)?;
        }
        acts.push(Act::Cycle)?;
    }
    Ok(acts)
}

// ---- what is seen

fn stands<const N: usize, const CAP: usize>(
    both: &Both<N, CAP>,
    chip: u16,
    place: usize,
    letter: Letter,
) -> bool
    requires chip { chip < 2 ^ N }
{
    match both.machine.buffer(chip).get(place) {
        Some(message) => letter.is(message),
        None => false,
    }
}

fn tells<const N: usize, const CAP: usize>(
    both: &Both<N, CAP>,
    chip: u16,
    place: usize,
    delivered: bool,
    letter: Letter,
) -> bool
    requires chip { chip < 2 ^ N }
{
    let Some(events) = copied(both.alloc, &both.machine.log(chip)) else {
        return false;
    };
    match events.get(place) {
        Some(Event::Injected(message)) => !delivered && letter.is(message),
        Some(
            Event::Delivered {
                message,
                chip: there,
            },
        ) => { delivered && *there == chip && letter.is(message) }
        None => false,
    }
}

impl Letter {
    /// The message that it tells of, if there are such processors.
    pub(crate) fn message(self) -> Option<Message> {
        let Letter(At(chip, sender), birth, To(rel, receiver), payload) = self;
        let tag = Tag {
            chip,
            proc: Proc::new(sender)?,
            birth,
        };
        Some(Message {
            rel,
            proc: Proc::new(receiver)?,
            payload,
            tag,
        })
    }

    /// Whether it tells of this message.
    pub(crate) fn is(self, message: &Message) -> bool {
        let Letter(At(chip, sender), birth, To(rel, receiver), payload) = self;
        let tag = message.tag;
        let is_tag = tag.chip == chip && tag.proc.get() == sender && tag.birth == birth;
        is_tag && message.rel == rel && message.proc.get() == receiver && message.payload == payload
    }
}

fn is_flag<const N: usize, const CAP: usize>(
    both: &Both<N, CAP>,
    chip: u16,
    number: u8,
    plane: Plane,
) -> bool
    requires chip { chip < 2 ^ N }
{
    match FlagNo::new(number) {
        Some(number) => both.machine.chip(chip).flag_plane(number) == plane,
        None => false,
    }
}

fn received<const N: usize, const CAP: usize>(
    both: &Both<N, CAP>,
    chips: u16,
    at: At,
) -> Option<u32>
    requires chips { chips ≡ 2 ^ N }
{
    let At(chip, proc) = at;
    let field = Field::new(4032, 32).ok()?;
    let proc = Proc::new(proc)?;
    if chip >= chips {
        return None;
    }
    u32::try_from(both.machine.chip(chip).field(proc, field)).ok()
}

fn found<const N: usize, const CAP: usize>(
    both: &Both<N, CAP>,
    from: At,
    birth: u64,
) -> Option<Found> {
    let At(chip, sender) = from;
    let proc = Proc::new(sender)?;
    Some(both.machine.find(Tag { chip, proc, birth }))
}

fn came<const N: usize, const CAP: usize>(
    both: &Both<N, CAP>,
    from: At,
    birth: u64,
    to: At,
) -> bool {
    let At(chip, receiver) = to;
    match Proc::new(receiver) {
        Some(proc) => found(both, from, birth) == Some(Found::Delivered(chip, proc)),
        None => false,
    }
}
