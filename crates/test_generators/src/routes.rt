//! Messages of chip 0 of a few chips, round cut wires and by either rule, and where they are then: worked by hand.

ghost use Rattle.std.specs.Prelude.{◌≡◌, ◌<◌, ◌≤◌, ◌^◌, IfSome};

use crate::building::ask;
use crate::running::run_beside_plain;
use cm_array::{Builder, Fixed, Machine, Runner};
use cm_bits::{Edge, Proc};
use cm_message::{Message, Tag};
use cm_model::{Act, Found, Rule};
use std::alloc::Global;

/// A message of chip 0: the processor that sent it and the petit cycle in which it was taken in, how far it has to go,
/// for which processor there, and its payload.
#[derive(Clone, Copy)]
struct Letter {
    sender: u8,
    birth: u32,
    rel: u16,
    receiver: u8,
    payload: u32,
}

/// Where a message is.
#[derive(Clone, Copy)]
enum Seen {
    /// In the router of a chip, with so far to go.
    Waits(u16, u16),
    /// With the processor of a chip for which it was.
    Came(u16),
}

/// Messages of chip 0, by these rules alike, and where they are after each petit cycle.
pub struct Route {
    pub name: &'static str,
    rules: &'static [Rule],
    /// The wires that are cut, each by its lower chip and its dimension.
    cuts: &'static [(u16, u8)],
    /// Petit cycles so far.
    clock: u32,
    /// Those that stand at the chip, the first in front.
    standing: &'static [Letter],
    /// Those that its processors ask to send.
    asked: &'static [Letter],
    then: &'static [&'static [(Letter, Seen)]],
}

const EITHER: &[Rule] = &[Rule::First, Rule::Oldest];

const FIRST: &[Rule] = &[Rule::First];

const OLDEST: &[Rule] = &[Rule::Oldest];

/// To processor 5 of chip 1.
const ACROSS_0: Letter = Letter {
    sender: 0,
    birth: 0,
    rel: 1,
    receiver: 5,
    payload: 0xdead_beef,
};

/// To processor 3 of chip 2.
const ACROSS_1: Letter = Letter {
    sender: 0,
    birth: 0,
    rel: 2,
    receiver: 3,
    payload: 7,
};

/// To processor 0 of chip 1, taken in in petit cycle 4.
const YOUNGER: Letter = Letter {
    sender: 0,
    birth: 4,
    rel: 1,
    receiver: 0,
    payload: 1,
};

/// To processor 1 of chip 1, taken in in petit cycle 2.
const OLDER: Letter = Letter {
    sender: 1,
    birth: 2,
    rel: 1,
    receiver: 1,
    payload: 2,
};

/// The younger one, as old as the other.
const AS_OLD: Letter = Letter {
    birth: 2,
    ..YOUNGER
};

/// Both, where they have arrived.
const YOUNGER_HERE: Letter = Letter { rel: 0, ..YOUNGER };

const OLDER_HERE: Letter = Letter { rel: 0, ..OLDER };

/// Two chips whose routers have room for one message.
pub static OF_TWO_CHIPS: [Route; 2] = [
    Route {
        name: "over a whole wire a message comes to its processor",
        rules: EITHER,
        cuts: &[],
        clock: 0,
        standing: &[],
        asked: &[ACROSS_0],
        then: &[&[(ACROSS_0, Seen::Came(1))]],
    },
    Route {
        name: "a message whose only wire is cut stays in its router, though that is full",
        rules: EITHER,
        cuts: &[(0, 0)],
        clock: 0,
        standing: &[],
        asked: &[ACROSS_0],
        then: &[
            &[(ACROSS_0, Seen::Waits(0, 1))],
            &[(ACROSS_0, Seen::Waits(0, 1))],
        ],
    },
];

/// Four chips whose routers have room for one message.
pub static OF_FOUR_CHIPS: [Route; 2] = [
    Route {
        name: "a message that a full router refers wanders for ever",
        rules: EITHER,
        cuts: &[],
        clock: 0,
        standing: &[],
        asked: &[ACROSS_1],
        then: &[
            &[(ACROSS_1, Seen::Waits(3, 1))],
            &[(ACROSS_1, Seen::Waits(0, 2))],
        ],
    },
    Route {
        name: "round a cut wire it comes to its processor in the second petit cycle",
        rules: EITHER,
        cuts: &[(0, 1)],
        clock: 0,
        standing: &[],
        asked: &[ACROSS_1],
        then: &[
            &[(ACROSS_1, Seen::Waits(3, 1))],
            &[(ACROSS_1, Seen::Came(2))],
        ],
    },
];

/// Two chips whose routers have room for two messages.
pub static OF_TWO_CHIPS_WITH_ROOM_FOR_TWO: [Route; 3] = [
    Route {
        name: "where none has to cross a full router refers who came last",
        rules: FIRST,
        cuts: &[],
        clock: 5,
        standing: &[YOUNGER_HERE, OLDER_HERE],
        asked: &[],
        then: &[&[
            (YOUNGER_HERE, Seen::Came(0)),
            (OLDER_HERE, Seen::Waits(1, 1)),
        ]],
    },
    Route {
        name: "where none has to cross a full router refers the youngest",
        rules: OLDEST,
        cuts: &[],
        clock: 5,
        standing: &[YOUNGER_HERE, OLDER_HERE],
        asked: &[],
        then: &[&[
            (YOUNGER_HERE, Seen::Waits(1, 1)),
            (OLDER_HERE, Seen::Came(0)),
        ]],
    },
    Route {
        name: "over a cut wire a full router refers nobody",
        rules: EITHER,
        cuts: &[(0, 0)],
        clock: 5,
        standing: &[YOUNGER_HERE, OLDER_HERE],
        asked: &[],
        then: &[&[(YOUNGER_HERE, Seen::Came(0)), (OLDER_HERE, Seen::Came(0))]],
    },
];

/// Two chips whose routers have room for seven messages.
pub static OF_TWO_CHIPS_WITH_ROOM_FOR_SEVEN: [Route; 4] = [
    Route {
        name: "of two with one way who came first goes first",
        rules: FIRST,
        cuts: &[],
        clock: 5,
        standing: &[YOUNGER, OLDER],
        asked: &[],
        then: &[&[(YOUNGER, Seen::Came(1)), (OLDER, Seen::Waits(0, 1))]],
    },
    Route {
        name: "of two with one way the oldest goes first",
        rules: OLDEST,
        cuts: &[],
        clock: 5,
        standing: &[YOUNGER, OLDER],
        asked: &[],
        then: &[&[(YOUNGER, Seen::Waits(0, 1)), (OLDER, Seen::Came(1))]],
    },
    Route {
        name: "of two of one birth that of the lower processor goes first, from in front",
        rules: OLDEST,
        cuts: &[],
        clock: 5,
        standing: &[AS_OLD, OLDER],
        asked: &[],
        then: &[&[(AS_OLD, Seen::Came(1)), (OLDER, Seen::Waits(0, 1))]],
    },
    Route {
        name: "of two of one birth that of the lower processor goes first, from behind",
        rules: OLDEST,
        cuts: &[],
        clock: 5,
        standing: &[OLDER, AS_OLD],
        asked: &[],
        then: &[&[(AS_OLD, Seen::Came(1)), (OLDER, Seen::Waits(0, 1))]],
    },
];

/// The first of these that a runner does not go through as it says, and as the plain one does.
pub fn first_wrong<const N: usize, const CAP: usize, X: Runner<Fixed<N, CAP>>>(
    runner: &mut X,
    alloc: Global,
    routes: &[Route],
    chips: u16,
) -> Option<&'static str>
    requires cube { chips ≡ 2 ^ N }
    requires some { 0 < chips }
    requires runner { X.ready }
{
    for route in routes {
        for rule in route.rules {
            if route.is_so::<N, CAP, X>(runner, alloc, *rule, chips) != Some(true) {
                return Some(route.name);
            }
        }
    }
    None
}

impl Route {
    fn is_so<const N: usize, const CAP: usize, X: Runner<Fixed<N, CAP>>>(
        &self,
        runner: &mut X,
        alloc: Global,
        rule: Rule,
        chips: u16,
    ) -> Option<bool>
        requires cube { chips ≡ 2 ^ N }
        requires some { 0 < chips }
        requires runner { X.ready }
    {
        let mut machine = self.machine::<N, CAP>(alloc, rule, chips)?;
        for seen in self.then {
            if !goes_on(runner, alloc, &mut machine, seen, chips)? {
                return Some(false);
            }
        }
        Some(true)
    }

    /// The machine with its messages.
    fn machine<const N: usize, const CAP: usize>(
        &self,
        alloc: Global,
        rule: Rule,
        chips: u16,
    ) -> Option<Machine<N, CAP>>
        requires cube { chips ≡ 2 ^ N }
        requires some { 0 < chips }
    {
        let mut machine = self.built::<N, CAP>(alloc, rule, chips)?;
        self.ask_in(&mut machine, chips)?;
        Some(machine)
    }

    /// The machine with the messages that stand in it.
    fn built<const N: usize, const CAP: usize>(
        &self,
        alloc: Global,
        rule: Rule,
        chips: u16,
    ) -> Option<Machine<N, CAP>>
        requires cube { chips ≡ 2 ^ N }
    {
        let mut builder = Builder::<N, CAP>::start(alloc, u64::from(self.clock)).ok()?;
        self.build(&mut builder, rule, chips)?;
        builder.done().ok()
    }

    fn build<const N: usize, const CAP: usize>(
        &self,
        builder: &mut Builder<N, CAP>,
        rule: Rule,
        chips: u16,
    ) -> Option<()>
        requires cube { chips ≡ 2 ^ N }
        requires dimension { N ≤ 12 }
    {
        builder.rule(rule);
        for (chip, dim) in self.cuts {
            cut(builder, *chip, *dim, chips)?;
        }
        for letter in self.standing {
            put(builder, *letter, chips)?;
        }
        Some(())
    }

    /// Its processors ask to send.
    fn ask_in<const N: usize, const CAP: usize>(
        &self,
        machine: &mut Machine<N, CAP>,
        chips: u16,
    ) -> Option<()>
        requires cube { chips ≡ 2 ^ N }
        requires some { 0 < chips }
    {
        for letter in self.asked {
            ask(machine, &letter.message()?);
        }
        Some(())
    }
}

/// Cuts a wire, if it is one of so many chips.
fn cut<const N: usize, const CAP: usize>(
    builder: &mut Builder<N, CAP>,
    chip: u16,
    dim: u8,
    chips: u16,
) -> Option<()>
    requires cube { chips ≡ 2 ^ N }
    requires dimension { N ≤ 12 }
{
    let edge = Edge::new(chip, dim)?;
    if chip >= chips || usize::from(dim) >= N {
        return None;
    }
    builder.cut(edge);
    Some(())
}

/// Puts a message into the router of chip 0, if it can stand there.
fn put<const N: usize, const CAP: usize>(
    builder: &mut Builder<N, CAP>,
    letter: Letter,
    chips: u16,
) -> Option<()>
    requires cube { chips ≡ 2 ^ N }
{
    let message = letter.message()?;
    if message.rel >= chips || message.tag.birth >= builder.clock() || builder.is_full(0) {
        return None;
    }
    builder.message(0, message);
    Some(())
}

/// Whether a petit cycle goes as the plain runner's, and the messages are then where they should be.
fn goes_on<const N: usize, const CAP: usize, X: Runner<Fixed<N, CAP>>>(
    runner: &mut X,
    alloc: Global,
    machine: &mut Machine<N, CAP>,
    seen: &[(Letter, Seen)],
    chips: u16,
) -> Option<bool>
    requires cube { chips ≡ 2 ^ N }
    requires runner { X.ready }
{
    if run_beside_plain(runner, alloc, machine, &[Act::Cycle], chips)? != (None, true) {
        return Some(false);
    }
    for (letter, place) in seen {
        if !is_seen(machine, *letter, *place, chips)? {
            return Some(false);
        }
    }
    Some(true)
}

fn is_seen<const N: usize, const CAP: usize>(
    machine: &Machine<N, CAP>,
    letter: Letter,
    place: Seen,
    chips: u16,
) -> Option<bool>
    requires cube { chips ≡ 2 ^ N }
{
    let message = letter.message()?;
    let found = machine.find(message.tag);
    match place {
        Seen::Waits(chip, rel) if chip < chips => {
            let waiting = Message { rel, ..message };
            Some(found == Found::Router(chip) && machine.buffer(chip).contains(&waiting))
        }
        Seen::Waits(_, _) => None,
        Seen::Came(chip) => Some(found == Found::Delivered(chip, message.proc)),
    }
}

impl Letter {
    /// None where there are no such processors.
    fn message(self) -> Option<Message>
        ensures origin { IfSome result (λ message. message.tag.chip ≡ 0) }
    {
        let tag = Tag {
            chip: 0,
            proc: Proc::new(self.sender)?,
            birth: u64::from(self.birth),
        };
        Some(Message {
            rel: self.rel,
            proc: Proc::new(self.receiver)?,
            payload: self.payload,
            tag,
        })
    }
}
