//! Sinks: those in memory, those of std, and writing all of some bytes.

ghost use Rattle.std.specs.Prelude.{◌≡◌, false, IfOk};
ghost use Rattle.test_doubles.specs.Doubles.{room_has_failed};

use crate::cases::{Case, first_not_so};
use crate::scripted::{Answer, Scripted};
use cm_bits::{Failed, Sink, Std, WriteFault, write_all};
use std::alloc::{AllocError, Global};
use std::test::Fail;
use test_doubles::Room;

/// Bytes that a sink is given, and what it answers.
struct Call(&'static [u8], Result<usize, Failed>);

/// Whether a sink answers this to these calls.
fn takes<O: Sink>(sink: &mut O, calls: &[Call]) -> bool {
    for Call(bytes, answer) in calls {
        if sink.write(bytes) != *answer {
            return false;
        }
    }
    true
}

/// What a sink in memory does once it is full.
#[derive(Clone, Copy)]
enum Full {
    Fails,
    TakesNothing,
}

/// A sink in memory, of so much room and so many bytes a call.
struct Size {
    room: usize,
    step: usize,
    full: Full,
}

impl Size {
    fn make(&self, alloc: Global) -> Result<Room, AllocError>
        ensures working { IfOk result (λ sink. room_has_failed sink ≡ false) }
    {
        match self.full {
            Full::Fails => Room::new(alloc, self.room, self.step),
            Full::TakesNothing => Room::taking_nothing(alloc, self.room, self.step),
        }
    }
}

/// A sink in memory, what it answers to calls, and what it then has.
struct InMemory {
    name: &'static str,
    size: Size,
    calls: &'static [Call],
    taken: &'static [u8],
}

impl Case for InMemory {
    fn name(&self) -> &'static str {
        self.name
    }

    fn is_so(&self, alloc: Global) -> Result<bool, Fail> {
        let mut sink = self.size.make(alloc)?;
        Ok(takes(&mut sink, self.calls) && sink.taken() == self.taken)
    }
}

static IN_MEMORY: [InMemory; 2] = [
    InMemory {
        name: "a full sink fails",
        size: Size {
            room: 3,
            step: 2,
            full: Full::Fails,
        },
        calls: &[
            Call(b"abcd", Ok(2)),
            Call(b"cd", Ok(1)),
            Call(b"d", Err(Failed)),
        ],
        taken: b"abc",
    },
    InMemory {
        name: "a full sink takes nothing",
        size: Size {
            room: 1,
            step: 0,
            full: Full::TakesNothing,
        },
        calls: &[Call(b"ab", Ok(1)), Call(b"b", Ok(0))],
        taken: b"a",
    },
];

/// A sink of std over a writer with these answers, and its own.
struct OfStd {
    name: &'static str,
    answers: &'static [Answer],
    calls: &'static [Call],
}

impl Case for OfStd {
    fn name(&self) -> &'static str {
        self.name
    }

    fn is_so(&self, _alloc: Global) -> Result<bool, Fail> {
        let mut sink = Std::new(Scripted::new(self.answers));
        Ok(takes(&mut sink, self.calls))
    }
}

static OF_STD: [OfStd; 2] = [
    OfStd {
        name: "a failed write is not tried again, and the next is whole",
        answers: &[Answer::Fails, Answer::Takes(9)],
        calls: &[Call(b"abc", Err(Failed)), Call(b"abc", Ok(3))],
    },
    OfStd {
        name: "neither a short write nor one that takes nothing is tried again",
        answers: &[Answer::Takes(2), Answer::Takes(0), Answer::Takes(3)],
        calls: &[
            Call(b"abc", Ok(2)),
            Call(b"abc", Ok(0)),
            Call(b"abc", Ok(3)),
        ],
    },
];

static TEXT: &[u8] = b"at 12\nend\n";

/// What becomes of a text that is written whole into a sink.
struct Whole {
    name: &'static str,
    size: Size,
    answer: Result<(), WriteFault>,
    taken: &'static [u8],
}

impl Case for Whole {
    fn name(&self) -> &'static str {
        self.name
    }

    fn is_so(&self, alloc: Global) -> Result<bool, Fail> {
        let mut sink = self.size.make(alloc)?;
        if write_all(&mut sink, TEXT) != self.answer {
            return Ok(false);
        }
        Ok(sink.taken() == self.taken)
    }
}

static WHOLE: [Whole; 3] = [
    Whole {
        name: "a sink that is full after 7 bytes",
        size: Size {
            room: 7,
            step: 3,
            full: Full::Fails,
        },
        answer: Err(WriteFault(7)),
        taken: b"at 12\ne",
    },
    Whole {
        name: "a sink that takes nothing",
        size: Size {
            room: 0,
            step: 3,
            full: Full::TakesNothing,
        },
        answer: Err(WriteFault(0)),
        taken: b"",
    },
    Whole {
        name: "a sink with room for all, a byte a call",
        size: Size {
            room: 10,
            step: 1,
            full: Full::Fails,
        },
        answer: Ok(()),
        taken: b"at 12\nend\n",
    },
];

#[test]
fn sinks_take_each_write_once_and_tell_how_far_it_came(rt: HostRuntime) -> Result<(), Fail> {
    let alloc = rt.alloc();
    let not_so = [
        first_not_so(alloc, &IN_MEMORY)?,
        first_not_so(alloc, &OF_STD)?,
        first_not_so(alloc, &WHOLE)?,
    ];
    assert_eq!(rt; not_so, [None; 3]);
    Ok(())
}
