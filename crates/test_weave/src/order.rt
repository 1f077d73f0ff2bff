//! In which order a session of steps reads and writes: answers go out at once, and before more is asked for.

ghost use Rattle.std.specs.Prelude.{None, false};

use cm_array::{Fixed, Machine};
use cm_bits::{Failed, Sink, Source};
use cm_model::Act;
use cm_weave::World;
use cm_weave_text::weave_session;
use std::alloc::Global;
use std::cell::Cell;

/// What was written so far: in how many calls, and how many bytes.
#[derive(Drop)]
struct Written {
    calls: Cell<usize>,
    bytes: Cell<usize>,
}

/// Bytes that one read gives, and how many bytes of answers are to be written by then.
type Part = (&'static [u8], usize);

/// It gives its parts, one a call, and sees whether their answers come in time.
#[derive(Drop)]
struct Asking<'a> {
    parts: &'static [Part],
    next: usize,
    in_time: bool,
    written: &'a Written,
}

impl<'a> Source for Asking<'a> {
    ghost left = { λ _. None };

    ghost has_failed = { λ _. false };

    fn read(&mut self, buf: &mut [u8]) -> Result<usize, Failed> {
        let Some((part, written)) = self.parts.get(self.next) else {
            // After the end nothing more is to be asked for.
            self.in_time = false;
            return Ok(0);
        };
        if self.written.bytes.get() != *written {
            self.in_time = false;
        }
        let count = part.len().min(buf.len());
        buf[..count].copy_from_slice(&part[..count]);
        self.next = self.next.saturating_add(1);
        Ok(count)
    }
}

/// It counts what it takes.
#[derive(Drop)]
struct Counting<'a> {
    written: &'a Written,
}

impl<'a> Sink for Counting<'a> {
    ghost contents = { λ _. None };

    ghost has_failed = { λ _. false };

    fn write(&mut self, buf: &[u8]) -> Result<usize, Failed> {
        self.written
            .calls
            .set(self.written.calls.get().saturating_add(1));
        self.written
            .bytes
            .set(self.written.bytes.get().saturating_add(buf.len()));
        Ok(buf.len())
    }
}

/// Of two chips in a petit cycle, a block each: the parts that are read, in how many calls their answers and the last
/// line are written, and whether the exchange is finished then.
static ORDERS: [(&[Part], usize, bool); 4] = [
    // at a terminal: an answer stands before the next line is asked for
    (&[(b"grip 0\n", 0), (b"draw 0\n", 3), (b"", 8)], 3, false),
    // in pieces of lines
    (
        &[
            (b"g", 0),
            (b"rip 0", 0),
            (b"\n", 0),
            (b"fi", 3),
            (b"le 0", 3),
            (b"", 3),
        ],
        3,
        false,
    ),
    // many lines at once
    (
        &[
            (b"draw 0\ngrip 0\ngrip 0\njump\nfi", 0),
            (
                b"le 0\ngrip 1\nfile 1\ndraw 0\nclear 0\ndraw 1\nclear 1\n",
                18,
            ),
            (b"", 39),
        ],
        3,
        true,
    ),
    // lines that are not answered
    (&[(b"\n; none\n\n", 0), (b"", 0)], 1, false),
];

/// Two chips in a petit cycle, a block each.
fn two_blocks(alloc: Global) -> Option<World<Fixed<1, 1>>> {
    let machine = Machine::<1, 1>::blank(alloc).ok()?;
    World::new(alloc, machine, &[Act::Cycle], 1).ok()
}

/// Whether their exchange is finished behind these steps.
fn is_finished(alloc: Global, steps: &mut Asking, answers: &mut Counting) -> Option<bool> {
    let world = two_blocks(alloc)?;
    Some(weave_session(alloc, world, steps, answers).is_ok())
}

/// Whether what these parts are answered comes in time, and the exchange is finished or not as it should be.
fn comes_in_time(
    alloc: Global,
    parts: &'static [Part],
    finished: bool,
    written: &Written,
) -> Option<bool> {
    let mut steps = Asking {
        parts,
        next: 0,
        in_time: true,
        written,
    };
    let mut answers = Counting { written };
    let end = is_finished(alloc, &mut steps, &mut answers)?;
    Some(end == finished && steps.in_time && steps.next == parts.len())
}

/// And in so many calls.
fn is_in_order(
    alloc: Global,
    parts: &'static [Part],
    calls: usize,
    finished: bool,
) -> Option<bool> {
    let written = Written {
        calls: Cell::new(0),
        bytes: Cell::new(0),
    };
    let in_time = comes_in_time(alloc, parts, finished, &written)?;
    Some(in_time && written.calls.get() == calls)
}

#[test]
fn steps_are_answered_before_more_are_asked_for(rt: HostRuntime) {
    for (parts, calls, finished) in &ORDERS {
        assert_eq!(rt;
            is_in_order(rt.alloc(), parts, *calls, *finished),
            Some(true)
        );
    }
}
