//! One node of the router beside its chip: steps that one player plays, and answers worked by hand.

ghost use Rattle.std.specs.Prelude.{◌≡◌, ◌<◌, ◌≤◌};

use crate::machines::{ACK, RECV, SEND};
use crate::nodes::Turn::{
    Arrives, Asks, Copies, Count, CutOff, Delivers, Flag, Full, Injects, Leaves, Nobody,
    OldestLeaves, Payload, Poke, Stands,
};
use crate::scenario::{At, Letter, To};
use cm_bits::{Field, FlagNo, Plane, Proc};
use cm_element::Run;
use cm_message::{Event, Message, Rule};
use cm_router::Node;
use std::alloc::Global;
use std::test::Fail;

// The chip of the node.
const HERE: u16 = 6;

/// Turns of an empty node with room for so many messages and a blank chip, in a cube of so many
/// dimensions.
struct Case {
    name: &'static str,
    room: u8,
    dims: u8,
    turns: &'static [Turn],
}

/// What is done to a node and its chip, or what is seen then.
#[derive(Clone, Copy)]
enum Turn {
    // ---- what is done
    /// A processor's record asks to send.
    Asks(u8, To, u32),
    /// A flag of the processors becomes these bits.
    Poke(u8, Plane),
    /// A message comes across a dimension.
    Arrives(Letter),
    /// Across a dimension goes this message, as it arrives there.
    Leaves(u8, Letter),
    /// Across a dimension goes nobody.
    Nobody(u8),
    /// By the second rule, across a dimension goes this message, as it arrives there.
    OldestLeaves(u8, Letter),
    /// Across a dimension whose wire is cut goes nobody, by this rule.
    CutOff(u8, Rule),
    /// In a petit cycle the node takes in these messages, and its log tells of them.
    Injects(u64, &'static [Letter]),
    /// It delivers these messages, and its log tells of them.
    Delivers(&'static [Letter]),
    /// A copy takes the node's place.
    Copies,
    // ---- what is seen
    Full(bool),
    Count(usize),
    /// At a place, 0 the front, a message stands.
    Stands(usize, Letter),
    Flag(u8, Plane),
    /// The last payload that a processor received.
    Payload(u8, u32),
}

static CASES: [Case; 8] = [
    Case {
        name: "a record is taken in, leaves as it arrives across, and is delivered",
        room: 1,
        dims: 1,
        turns: &[
            Asks(9, To(0xffff, 5), 0xdead_beef),
            Injects(41, &[Letter(At(HERE, 9), 41, To(1, 5), 0xdead_beef)]),
            Full(true),
            Stands(0, Letter(At(HERE, 9), 41, To(1, 5), 0xdead_beef)),
            Flag(SEND, 0x0000),
            Flag(ACK, 0x0200),
            Leaves(0, Letter(At(HERE, 9), 41, To(0, 5), 0xdead_beef)),
            Count(0),
            Full(false),
            Arrives(Letter(At(1, 9), 40, To(0, 5), 0xdead_beef)),
            Full(true),
            Delivers(&[Letter(At(1, 9), 40, To(0, 5), 0xdead_beef)]),
            Payload(5, 0xdead_beef),
            Flag(RECV, 0x0020),
            Count(0),
        ],
    },
    Case {
        name: "four of six senders are taken, and one message delivered",
        room: 7,
        dims: 0,
        turns: &[
            Poke(SEND, 0x003f),
            Injects(
                0,
                &[
                    Letter(At(HERE, 0), 0, To(0, 0), 0),
                    Letter(At(HERE, 1), 0, To(0, 0), 0),
                    Letter(At(HERE, 2), 0, To(0, 0), 0),
                    Letter(At(HERE, 3), 0, To(0, 0), 0),
                ],
            ),
            Flag(SEND, 0x0030),
            Flag(ACK, 0x000f),
            Delivers(&[Letter(At(HERE, 0), 0, To(0, 0), 0)]),
            Count(3),
            Flag(RECV, 0x0001),
            Injects(
                1,
                &[
                    Letter(At(HERE, 4), 1, To(0, 0), 0),
                    Letter(At(HERE, 5), 1, To(0, 0), 0),
                ],
            ),
            Flag(SEND, 0x0000),
            Flag(ACK, 0x0030),
            Delivers(&[]),
            Count(5),
            Stands(0, Letter(At(HERE, 1), 0, To(0, 0), 0)),
            Stands(4, Letter(At(HERE, 5), 1, To(0, 0), 0)),
        ],
    },
    Case {
        name: "the first that has to cross leaves, or else the last of a full node",
        room: 2,
        dims: 12,
        turns: &[
            Arrives(Letter(At(1, 9), 0, To(1, 0), 7)),
            Nobody(3),
            Arrives(Letter(At(1, 9), 1, To(6, 0), 7)),
            Leaves(3, Letter(At(1, 9), 1, To(14, 0), 7)),
            Count(1),
            Stands(0, Letter(At(1, 9), 0, To(1, 0), 7)),
            Arrives(Letter(At(1, 9), 1, To(6, 0), 7)),
            Copies,
            Leaves(0, Letter(At(1, 9), 0, To(0, 0), 7)),
            Count(1),
            Stands(0, Letter(At(1, 9), 1, To(6, 0), 7)),
        ],
    },
    Case {
        name: "by the second rule the oldest that has to cross leaves: by birth, then by origin",
        room: 7,
        dims: 12,
        turns: &[
            Arrives(Letter(At(2, 1), 6, To(8, 0), 1)),
            Arrives(Letter(At(3, 0), 5, To(8, 0), 2)),
            Arrives(Letter(At(2, 4), 5, To(8, 0), 3)),
            Arrives(Letter(At(2, 3), 5, To(8, 0), 4)),
            Arrives(Letter(At(1, 9), 4, To(1, 0), 5)),
            OldestLeaves(3, Letter(At(2, 3), 5, To(0, 0), 4)),
            OldestLeaves(3, Letter(At(2, 4), 5, To(0, 0), 3)),
            Leaves(3, Letter(At(2, 1), 6, To(0, 0), 1)),
            OldestLeaves(3, Letter(At(3, 0), 5, To(0, 0), 2)),
            Nobody(3),
            Count(1),
        ],
    },
    Case {
        name: "by the second rule a full node refers the youngest; of two of one tag the first goes first",
        room: 3,
        dims: 12,
        turns: &[
            Arrives(Letter(At(1, 9), 7, To(6, 0), 1)),
            Arrives(Letter(At(1, 9), 7, To(6, 0), 2)),
            Arrives(Letter(At(0, 3), 2, To(6, 0), 3)),
            OldestLeaves(0, Letter(At(1, 9), 7, To(7, 0), 2)),
            Arrives(Letter(At(1, 9), 7, To(6, 0), 4)),
            OldestLeaves(1, Letter(At(0, 3), 2, To(4, 0), 3)),
            OldestLeaves(1, Letter(At(1, 9), 7, To(4, 0), 1)),
            Count(1),
        ],
    },
    Case {
        name: "nobody leaves over a cut wire, by either rule, though the node is full",
        room: 1,
        dims: 12,
        turns: &[
            Arrives(Letter(At(1, 9), 7, To(2, 0), 1)),
            CutOff(1, Rule::First),
            CutOff(1, Rule::Oldest),
            CutOff(0, Rule::First),
            CutOff(0, Rule::Oldest),
            Full(true),
            Stands(0, Letter(At(1, 9), 7, To(2, 0), 1)),
            OldestLeaves(0, Letter(At(1, 9), 7, To(3, 0), 1)),
        ],
    },
    Case {
        name: "a second message waits until its processor can receive",
        room: 5,
        dims: 12,
        turns: &[
            Poke(RECV, 0x0020),
            Arrives(Letter(At(1, 9), 0, To(2, 3), 7)),
            Arrives(Letter(At(1, 9), 1, To(0, 3), 8)),
            Arrives(Letter(At(1, 9), 2, To(0, 3), 9)),
            Arrives(Letter(At(1, 9), 3, To(0, 4), 10)),
            Arrives(Letter(At(1, 9), 4, To(0, 5), 11)),
            Delivers(&[
                Letter(At(1, 9), 1, To(0, 3), 8),
                Letter(At(1, 9), 3, To(0, 4), 10),
            ]),
            Flag(RECV, 0x0038),
            Payload(3, 8),
            Delivers(&[]),
            Count(3),
            Stands(0, Letter(At(1, 9), 0, To(2, 3), 7)),
            Stands(1, Letter(At(1, 9), 2, To(0, 3), 9)),
            Stands(2, Letter(At(1, 9), 4, To(0, 5), 11)),
            Poke(RECV, 0x0030),
            Delivers(&[Letter(At(1, 9), 2, To(0, 3), 9)]),
            Flag(RECV, 0x0038),
            Payload(3, 9),
            Count(2),
        ],
    },
    Case {
        name: "whoever is not taken goes on asking, and ACK falls",
        room: 1,
        dims: 0,
        turns: &[
            Arrives(Letter(At(1, 9), 0, To(0, 3), 7)),
            Poke(SEND, 0x8005),
            Poke(ACK, 0x00ff),
            Injects(0, &[]),
            Flag(SEND, 0x8005),
            Flag(ACK, 0x0000),
        ],
    },
];

/// The name of the first case that does not go as it says, and the place of the turn.
fn failing(alloc: Global) -> Result<Option<(&'static str, usize)>, Fail> {
    for case in &CASES {
        let place = case.plays(alloc)?;
        if place < case.turns.len() {
            return Ok(Some((case.name, place)));
        }
    }
    Ok(None)
}

impl Case {
    /// The place of the first turn that does not go as it says; as many as there are where all do.
    fn plays(&self, alloc: Global) -> Result<usize, Fail> {
        let mut stage = Stage::blank(alloc, self.room, self.dims)?;
        for place in 0..self.turns.len() {
            if !stage.goes(alloc, self.turns[place])? {
                return Ok(place);
            }
        }
        Ok(self.turns.len())
    }
}

/// The place of the node's chip in a run of two.
const AT: u16 = 1;

/// A node and the run of its chip, of which nothing is told from turn to turn.
#[derive(Drop)]
struct Stage {
    node: Node,
    run: Run,
    dims: u8,
}

impl Stage {
    /// An empty node with room for so many messages, 1 to 15, and blank chips.
    fn blank(alloc: Global, room: u8, dims: u8) -> Result<Stage, Fail> {
        let run = Run::blank(alloc, 2)?;
        Ok(Stage {
            node: Node::new(room.max(1).min(15)),
            run,
            dims: dims.min(12),
        })
    }

    /// Whether a turn goes as it says.
    fn goes(&mut self, alloc: Global, turn: Turn) -> Result<bool, Fail> {
        match turn {
            Turn::Asks(sender, to, payload) => Ok(self.asks(sender, to, payload)),
            Turn::Poke(number, plane) => Ok(self.pokes(number, plane)),
            Turn::Arrives(letter) => Ok(self.takes(letter)),
            Turn::Leaves(dim, letter) => Ok(is_letter(
                self.leaving(dim, false, Rule::First),
                letter,
            )),
            Turn::Nobody(dim) => Ok(self.leaving(dim, false, Rule::First).is_none()),
            Turn::OldestLeaves(dim, letter) => Ok(is_letter(
                self.leaving(dim, false, Rule::Oldest),
                letter,
            )),
            Turn::CutOff(dim, rule) => Ok(self.leaving(dim, true, rule).is_none()),
            Turn::Injects(birth, letters) => self.injects(alloc, birth, letters),
            Turn::Delivers(letters) => self.delivers(alloc, letters),
            Turn::Copies => {
                self.node = self.node.copy();
                Ok(true)
            }
            seen => Ok(self.shows(seen)),
        }
    }

    fn asks(&mut self, sender: u8, to: To, payload: u32) -> bool {
        let To(rel, receiver) = to;
        let Some(sender) = Proc::new(sender) else {
            return false;
        };
        put(&mut self.run, sender, 3968, 16, u64::from(rel))
            && put(&mut self.run, sender, 3984, 4, u64::from(receiver))
            && put(&mut self.run, sender, 3988, 32, u64::from(payload))
            && self.pokes(SEND, 1 << sender.get())
    }

    fn pokes(&mut self, number: u8, plane: Plane) -> bool {
        match FlagNo::new(number) {
            Some(number) if number.get() != 8 && self.run.chips() > usize::from(AT) => {
                self.run.poke_flag_plane(AT, number, plane);
                true
            }
            _ => false,
        }
    }

    fn takes(&mut self, letter: Letter) -> bool {
        match letter.message() {
            Some(message) if !self.node.is_full() => {
                self.node.arrive(message);
                true
            }
            _ => false,
        }
    }

    fn leaving(&mut self, dim: u8, cut: bool, rule: Rule) -> Option<Message> {
        if dim < 12 {
            self.node.leave(dim, cut, rule)
        } else {
            None
        }
    }

    fn injects(&mut self, alloc: Global, birth: u64, letters: &[Letter]) -> Result<bool, Fail> {
        let mut log = Vec::with_capacity(alloc, 4)?;
        let dims = self.dims.min(12);
        if self.run.chips() <= usize::from(AT) {
            return Ok(false);
        }
        self.node
            .inject(&mut self.run, AT, HERE, dims, birth, &mut log);
        Ok(tell(&log, false, letters))
    }

    fn delivers(&mut self, alloc: Global, letters: &[Letter]) -> Result<bool, Fail> {
        let mut log = Vec::with_capacity(alloc, 15)?;
        let _ = self.node.is_full();
        if self.run.chips() <= usize::from(AT) {
            return Ok(false);
        }
        self.node.deliver(&mut self.run, AT, HERE, &mut log);
        Ok(tell(&log, true, letters))
    }

    /// Whether what a turn tells is seen.
    fn shows(&self, turn: Turn) -> bool {
        if self.run.chips() <= usize::from(AT) {
            return false;
        }
        let chip = self.run.view(AT);
        match turn {
            Turn::Full(full) => self.node.is_full() == full,
            Turn::Count(count) => self.node.messages().len() == count,
            Turn::Stands(place, letter) => match self.node.messages().get(place) {
                Some(message) => letter.is(message),
                None => false,
            },
            Turn::Flag(number, plane) => match FlagNo::new(number) {
                Some(number) => chip.flag_plane(number) == plane,
                None => false,
            },
            Turn::Payload(proc, payload) => match (Proc::new(proc), Field::new(4032, 32)) {
                (Some(proc), Ok(field)) => chip.field(proc, field) == u64::from(payload),
                _ => false,
            },
            _ => false,
        }
    }
}

/// Whether somebody leaves, and it is this message.
fn is_letter(leaving: Option<Message>, letter: Letter) -> bool {
    match leaving {
        Some(message) => letter.is(&message),
        None => false,
    }
}

/// Puts a number into a field of one processor.
fn put(run: &mut Run, proc: Proc, at: u16, len: u16, number: u64) -> bool {
    match Field::new(at, len) {
        Ok(field) if run.chips() > usize::from(AT) => {
            run.poke_field(AT, proc, field, number);
            true
        }
        _ => false,
    }
}

/// Whether these events tell of these messages, delivered here or taken in.
fn tell(log: &[Event], delivered: bool, letters: &[Letter]) -> bool {
    if log.len() != letters.len() {
        return false;
    }
    for (event, letter) in log.iter().zip(letters) {
        let is_told = match event {
            Event::Injected(message) => !delivered && letter.is(message),
            Event::Delivered { message, chip } => {
                delivered && *chip == HERE && letter.is(message)
            }
        };
        if !is_told {
            return false;
        }
    }
    true
}

#[test]
fn a_node_goes_as_its_cases_say(rt: HostRuntime) -> Result<(), Fail> {
    assert_eq!(rt; failing(rt.alloc())?, None);
    Ok(())
}
