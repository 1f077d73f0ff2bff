//! In which order a session reads and writes: what was answered goes out before more is asked for, and at once.

ghost use Rattle.std.specs.Prelude.{None, false};

use cm_array::{Fixed, Machine, Plain, RunFault, Runner};
use cm_asm::{Program, assemble};
use cm_bits::{Failed, Sink, Source};
use cm_debug::session;
use cm_model::Act;
use std::alloc::Global;
use std::cell::Cell;

/// What was written so far: in how many calls, and how many bytes.
#[derive(Drop)]
struct Written {
    calls: Cell<usize>,
    bytes: Cell<usize>,
}

/// Bytes that one read gives, and how many bytes of answers are to be written by then.
type Part = (&'static [u8], usize);

/// It gives its parts, one a call, and sees whether their answers come in time.
#[derive(Drop)]
struct Asking<'a> {
    parts: &'static [Part],
    next: usize,
    in_time: bool,
    written: &'a Written,
}

impl<'a> Source for Asking<'a> {
    ghost left = { λ _. None };

    ghost has_failed = { λ _. false };

    fn read(&mut self, buf: &mut [u8]) -> Result<usize, Failed> {
        let Some((part, written)) = self.parts.get(self.next) else {
            // After the end nothing more is to be asked for.
            self.in_time = false;
            return Ok(0);
        };
        if self.written.bytes.get() != *written {
            self.in_time = false;
        }
        let count = part.len().min(buf.len());
        buf[..count].copy_from_slice(&part[..count]);
        self.next = self.next.saturating_add(1);
        Ok(count)
    }
}

/// It counts what it takes.
#[derive(Drop)]
struct Counting<'a> {
    written: &'a Written,
}

impl<'a> Sink for Counting<'a> {
    ghost contents = { λ _. None };

    ghost has_failed = { λ _. false };

    fn write(&mut self, buf: &[u8]) -> Result<usize, Failed> {
        self.written
            .calls
            .set(self.written.calls.get().saturating_add(1));
        self.written
            .bytes
            .set(self.written.bytes.get().saturating_add(buf.len()));
        Ok(buf.len())
    }
}

/// Runs acts as the plain runner does, and tells that it may want a thread.
#[derive(Clone, Copy)]
struct Cautious;

impl<const N: usize, const CAP: usize> Runner<Fixed<N, CAP>> for Cautious {
    ghost ready = { Unit {0} };

    ghost threads_lacked = { λ _. 0 };

    fn go(&mut self, machine: &mut Machine<N, CAP>, acts: &[Act]) -> Result<(), RunFault> {
        Plain.go(machine, acts)
    }
}

/// With a program of two acts: the parts that are read, and in how many calls their answers are written.
static ORDERS: [(&[Part], usize); 5] = [
    // at a terminal: an answer stands before the next line is asked for
    (&[(b"step\n", 0), (b"flag 0 0 9\n", 5), (b"", 12)], 2),
    // byte by byte
    (
        &[
            (b"r", 0),
            (b"u", 0),
            (b"n", 0),
            (b"\n", 0),
            (b"r", 4),
            (b"un", 4),
            (b"", 4),
        ],
        2,
    ),
    // many lines at once
    (
        &[
            (b"flag 0 0 9\nflag 0 0 8\njump\nwire show\nfl", 0),
            (b"ag 0 0 9\n", 26),
            (b"", 33),
        ],
        2,
    ),
    // a single act does not wait until the answers before it stand
    (&[(b"jump\n\nwire show\nstep\njump\n", 0), (b"", 22)], 1),
    // many do
    (&[(b"jump\n\nwire show\nrun\njump\n", 0), (b"", 21)], 2),
];

/// The same by a runner that may want a thread: a single act waits too.
static CAUTIOUS: [(&[Part], usize); 1] = [(
    &[(b"jump\n\nwire show\nstep\njump\n", 0), (b"", 22)],
    2,
)];

/// Whether a session ends well. No contract tells more.
fn ends_well<R: Runner<Fixed<0, 7>>>(
    alloc: Global,
    machine: &mut Machine<0, 7>,
    program: &Program,
    commands: &mut Asking<'_>,
    answers: &mut Counting<'_>,
    runner: &mut R,
) -> bool
    requires runner { R.ready }
{
    session(alloc, machine, program, commands, answers, runner).is_ok()
}

/// Whether what these parts are answered comes in time, with this program on this machine.
fn comes_in_time<R: Runner<Fixed<0, 7>>>(
    alloc: Global,
    machine: &mut Machine<0, 7>,
    program: &Program,
    parts: &'static [Part],
    written: &Written,
    runner: &mut R,
) -> bool
    requires runner { R.ready }
{
    let mut commands = Asking {
        parts,
        next: 0,
        in_time: true,
        written,
    };
    let mut answers = Counting { written };
    ends_well(alloc, machine, program, &mut commands, &mut answers, runner)
        && commands.in_time
        && commands.next == parts.len()
}

/// And in so many calls.
fn is_in_order<R: Runner<Fixed<0, 7>>>(
    alloc: Global,
    machine: &mut Machine<0, 7>,
    parts: &'static [Part],
    calls: usize,
    runner: &mut R,
) -> bool
    requires runner { R.ready }
{
    let Ok(program) = assemble(alloc, b"set 9\nset 0\n") else {
        return false;
    };
    let written = Written {
        calls: Cell::new(0),
        bytes: Cell::new(0),
    };
    comes_in_time(alloc, machine, &program, parts, &written, runner) && written.calls.get() == calls
}

/// The same on a blank machine.
fn is_in_order_on_a_blank<R: Runner<Fixed<0, 7>>>(
    alloc: Global,
    parts: &'static [Part],
    calls: usize,
    runner: &mut R,
) -> bool
    requires runner { R.ready }
{
    match Machine::<0, 7>::blank(alloc) {
        Ok(mut machine) => is_in_order(alloc, &mut machine, parts, calls, runner),
        Err(_) => false,
    }
}

#[test]
fn answers_go_out_before_more_is_asked_for(rt: HostRuntime) {
    for (i, (parts, calls)) in ORDERS.iter().enumerate() {
        assert!(rt;
            is_in_order_on_a_blank(rt.alloc(), parts, *calls, &mut Plain),
            "in row {i}"
        );
    }
}

#[test]
fn acts_that_may_want_a_thread_wait_for_answers(rt: HostRuntime) {
    for (i, (parts, calls)) in CAUTIOUS.iter().enumerate() {
        assert!(rt;
            is_in_order_on_a_blank(rt.alloc(), parts, *calls, &mut Cautious),
            "in row {i}"
        );
    }
}
