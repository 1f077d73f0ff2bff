//! The route of one message, petit cycle by petit cycle.

ghost use Rattle.std.specs.Prelude.{◌≡◌, ◌≢◌, ◌≤◌, ◌++◌, ◌∷◌, [], Ok, Err, IfOk, IfErr, OnOk, length};
ghost use Rattle.std.specs.Option.{is_some};
ghost use Rattle.cm_model.specs.declared.act.Act.TheVariants as act;
ghost use Rattle.lab_machine.specs.Machines.{lab_after};
ghost use Rattle.lab_study.specs.Watching.{WasTold};
ghost use Rattle.lab_route.specs.Followed.{act_delivers, acts_followed};
ghost use Rattle.lab_route.specs.RouteLines.{stand_line};
ghost use Rattle.lab_route.specs.Routes.{route_preceded_by, origin, route_text_then, act_then, TellsRoute};
ghost use Rattle.lab_route.specs.Routes.{excerpt_line, no_message_fault, waits_told};
ghost use Rattle.lab_route.specs.Routes.{route_end_text, route_of};
ghost use Rattle.lab_route.specs.Whereabouts.{stand_in};

use crate::route_lines::{push_delivery, push_end, push_stand};
use crate::waits::{Wait, cycle_with_waits};
use crate::whereabouts::{Stand, delivery_in, stand_in};
use cm_bits::{NoMemory, Place};
use cm_model::{Act, Tag};
use lab_machine::LabMachine;
use lab_study::{Watch, lacks_room, log_lengths};
use std::alloc::Global;
use thiserror::Error;

/// What of a route is told: the petit cycles from one on, by the counter, up to another, behind which the program ends;
/// and whether why the message waits.
#[derive(Clone, Copy, Debug, PartialEq, Eq)]
pub struct Excerpt {
    pub from: u64,
    pub to: u64,
    pub waits: bool,
}

impl Excerpt {
    /// All petit cycles, without why the message waits.
    pub const WHOLE: Excerpt = Excerpt {
        from: 0,
        to: u64::MAX,
        waits: false,
    };
}

/// Why no route is told.
#[derive(Clone, Copy, Debug, PartialEq, Eq, Error)]
pub enum RouteFault {
    /// The chip that is to have sent the message is none of the machine's, whose last is this.
    #[error("the machine has only the chips 0 to {0}")]
    Chip(u16),
    #[error("more than 2^63 - 1 petit cycles in all")]
    Clock,
    /// The counter, when the program has ended, has not passed the petit cycle in which the message is to be taken in.
    #[error("the program ends when the counter is {0}, before that petit cycle")]
    Late(u64),
    /// No message of this processor was taken in in this petit cycle, or it was delivered before the program began.
    #[error("no such message; cm1lab study --messages tells who sent one, and in which petit cycle it was taken in")]
    Unsent,
    #[error("out of memory")]
    Memory,
}

impl From<NoMemory> for RouteFault {
    ghost use Rattle.std.specs.Prelude.{◌≡◌};
    ghost use Rattle.lab_route.specs.declared.routes.RouteFault.TheVariants.{Memory};

    ghost from_gives = { λ _ fault. fault ≡ Memory };

    fn from(_: NoMemory) -> RouteFault {
        RouteFault::Memory
    }
}

/// Has a machine run a program's acts, until the message of a tag is delivered, and tells the route of that message, as
/// far as it is asked for.
pub fn route<W: Watch>(
    alloc: Global,
    machine: &mut LabMachine,
    acts: &[Act],
    excerpt: Excerpt,
    tag: Tag,
    watch: &mut W,
) -> Result<Vec<u8>, RouteFault>
    ensures value { IfOk result (λ text.
        route_of machine.old.n machine.old.cap excerpt tag machine.old.machine acts.now ≡ Ok text.items) }
    ensures refused { IfErr result (λ fault. fault ≢ RouteFault.Memory
        → route_of machine.old.n machine.old.cap excerpt tag machine.old.machine acts.now ≡ Err fault) }
    ensures told { OnOk result (WasTold W.sees (length acts.now) watch.old
        (acts_followed machine.old.n machine.old.cap excerpt tag machine.old.machine acts.now) watch.new) }
{
    let chips = machine.chips();
    if tag.chip >= chips {
        return Err(RouteFault::Chip(chips - 1));
    }
    let mut text = Vec::new(alloc);
    for (done, act) in acts.iter().enumerate() {
        if machine.clock() > excerpt.to {
            return ended(machine, &tag, text);
        }
        if lacks_room(machine.clock(), act) {
            return Err(RouteFault::Clock);
        }
        let over = follow(alloc, machine, act, &excerpt, &tag, &mut text)?;
        watch.see(done + 1, acts.len());
        if over {
            return Ok(text);
        }
    }
    ended(machine, &tag, text)
}

/// Has a machine do an act, and tells what it does to the message of a tag: whether it was delivered.
fn follow(
    alloc: Global,
    machine: &mut LabMachine,
    act: &Act,
    excerpt: &Excerpt,
    tag: &Tag,
    text: &mut Vec<u8>,
) -> Result<bool, NoMemory>
    ensures machine { OnOk result (machine.new ≡ lab_after machine.old act.now) }
    ensures text { IfOk result (TellsRoute (λ rest. act_then machine.old.n machine.old.cap excerpt.now tag.now act.now
        machine.old.machine machine.new.machine rest) text.old.items text.new.items) }
    ensures over { IfOk result (λ over. over
        ≡ act_delivers machine.old.n tag.now act.now machine.old.machine machine.new.machine) }
{
    match act {
        Act::Cycle => follow_cycle(alloc, machine, excerpt, tag, text),
        Act::Sense => {
            machine.go_on(alloc, &Act::Sense)?;
            Ok(false)
        }
        Act::Nano(nano) => {
            machine.go_on(alloc, &Act::Nano(*nano))?;
            Ok(false)
        }
    }
}

/// What a petit cycle at a count did to a message.
#[derive(Drop)]
struct Passage {
    clock: u64,
    /// The chip where it stood before, or that took it in.
    from: u16,
    delivery: Option<Place>,
    stand: Option<Stand>,
    waits: Vec<Wait>,
}

/// Has it do a petit cycle.
fn follow_cycle(
    alloc: Global,
    machine: &mut LabMachine,
    excerpt: &Excerpt,
    tag: &Tag,
    text: &mut Vec<u8>,
) -> Result<bool, NoMemory>
    ensures machine { OnOk result (machine.new ≡ lab_after machine.old act.Cycle) }
    ensures text { IfOk result (TellsRoute (λ rest. act_then machine.old.n machine.old.cap excerpt.now tag.now act.Cycle
        machine.old.machine machine.new.machine rest) text.old.items text.new.items) }
    ensures over { IfOk result (λ over. over
        ≡ act_delivers machine.old.n tag.now act.Cycle machine.old.machine machine.new.machine) }
{
    let clock = machine.clock();
    let from = origin(tag, stand_in(machine, tag));
    let before = log_lengths(alloc, machine)?;
    let waits = cycle(alloc, machine, excerpt, tag)?;
    let passage = Passage {
        clock,
        from,
        delivery: delivery_in(&before, machine, tag),
        stand: stand_in(machine, tag),
        waits,
    };
    tell(text, machine.dims(), excerpt, &passage)
}

/// A petit cycle, and why the message of a tag waits in it, if that is told.
fn cycle(
    alloc: Global,
    machine: &mut LabMachine,
    excerpt: &Excerpt,
    tag: &Tag,
) -> Result<Vec<Wait>, NoMemory>
    ensures machine { OnOk result (machine.new ≡ lab_after machine.old act.Cycle) }
    ensures value { IfOk result (λ waits. waits.items
        ≡ waits_told machine.old.n machine.old.cap excerpt.now tag.now machine.old.machine) }
{
    if excerpt.waits {
        return cycle_with_waits(machine, alloc, tag);
    }
    machine.go_on(alloc, &Act::Cycle)?;
    Ok(Vec::new(alloc))
}

/// The chip from which a petit cycle leads a message.
fn origin(tag: &Tag, stand: Option<Stand>) -> u16
    ensures value { result ≡ origin tag.now stand }
{
    match stand {
        Some(stand) => stand.chip,
        None => tag.chip,
    }
}

/// What a petit cycle tells: whether the message was delivered.
fn tell(
    text: &mut Vec<u8>,
    dims: u8,
    excerpt: &Excerpt,
    passage: &Passage,
) -> Result<bool, NoMemory>
    requires dims { dims ≤ 12 }
    ensures text { IfOk result (TellsRoute (λ rest. route_text_then dims excerpt.now passage.now.clock passage.now.from
        passage.now.delivery passage.now.stand passage.now.waits.items rest) text.old.items text.new.items) }
    ensures over { IfOk result (λ over. over ≡ is_some passage.now.delivery) }
{
    if let Some(place) = passage.delivery {
        push_delivery(text, dims, passage.clock, passage.from, place)?;
        return Ok(true);
    }
    if let Some(stand) = passage.stand {
        tell_stand(text, dims, excerpt, passage, &stand)?;
    }
    Ok(false)
}

/// Where it stands, if the petit cycle is one that is told.
fn tell_stand(
    text: &mut Vec<u8>,
    dims: u8,
    excerpt: &Excerpt,
    passage: &Passage,
    stand: &Stand,
) -> Result<(), NoMemory>
    requires dims { dims ≤ 12 }
    ensures ok { OnOk result (text.new.items ≡ text.old.items ++ excerpt_line excerpt.now passage.now.clock
        (stand_line dims passage.now.clock passage.now.from stand.now passage.now.waits.items)) }
{
    if passage.clock < excerpt.from {
        return Ok(());
    }
    push_stand(
        text,
        dims,
        passage.clock,
        passage.from,
        stand,
        &passage.waits,
    )
}

/// What is told at the end.
fn ended(machine: &LabMachine, tag: &Tag, text: Vec<u8>) -> Result<Vec<u8>, RouteFault>
    ensures ok { IfOk result (λ told. route_preceded_by text.items (route_end_text tag.now machine.now.machine.clock
        (stand_in machine.now.n tag.now machine.now.machine)) ≡ Ok told.items) }
    ensures refused { IfErr result (λ fault. fault ≢ RouteFault.Memory
        → route_preceded_by text.items (route_end_text tag.now machine.now.machine.clock
        (stand_in machine.now.n tag.now machine.now.machine)) ≡ Err fault) }
{
    let mut told = text;
    match stand_in(machine, tag) {
        Some(stand) => match push_end(&mut told, &stand) {
            Ok(()) => Ok(told),
            Err(NoMemory) => Err(RouteFault::Memory),
        },
        None => Err(no_message(tag, machine.clock())),
    }
}

/// Why there is no message, at the end.
fn no_message(tag: &Tag, clock: u64) -> RouteFault
    ensures value { result ≡ no_message_fault tag.now clock }
{
    if clock <= tag.birth {
        RouteFault::Late(clock)
    } else {
        RouteFault::Unsent
    }
}
