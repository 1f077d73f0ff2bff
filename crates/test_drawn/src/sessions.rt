//! Drawn sessions: what is answered and left, as by the plain debugger.

ghost use Rattle.std.specs.Prelude.{◌≡◌, ◌<◌, ◌≤◌, ◌^◌, false};

use crate::asked::{Asked, Kind};
use crate::draws::Draws;
use crate::images::machine;
use crate::plain::Debugger;
use crate::texts::{program, push_line};
use cm_array::{Machine, Plain};
use cm_asm::{Program, assemble};
use cm_debug::session;
use cm_image_dump::dump;
use std::alloc::{AllocError, Global};
use test_doubles::{Bytes, Room};

const ROOM: usize = 65_536;

/// Chips, and messages that a router has room for.
#[derive(Clone, Copy)]
enum Shape {
    OneOfSeven,
    TwoOfOne,
    TwoOfTwo,
    FourOfFifteen,
    EightOfOne,
    EightOfSeven,
}

/// Machines, the first seed of their sessions, and the first that is none of theirs.
static DRAWN: [(Shape, u32, u32); 6] = [
    (Shape::OneOfSeven, 1000, 1060),
    (Shape::TwoOfOne, 2000, 2060),
    (Shape::TwoOfTwo, 3000, 3060),
    (Shape::FourOfFifteen, 4000, 4060),
    (Shape::EightOfOne, 5000, 5060),
    (Shape::EightOfSeven, 6000, 6060),
];

/// The commands of a session, and what the plain debugger answered.
#[derive(Drop)]
struct Drawn<'a, const N: usize, const CAP: usize> {
    commands: String,
    plain: Debugger<'a, N, CAP>,
}

impl<'a, const N: usize, const CAP: usize> Drawn<'a, N, CAP> {
    /// No line yet.
    fn new(
        alloc: Global,
        start: Machine<N, CAP>,
        program: &'a Program,
    ) -> Result<Drawn<'a, N, CAP>, AllocError> {
        Ok(Drawn {
            plain: Debugger::new(alloc, start, program.acts())?,
            commands: String::new(alloc),
        })
    }

    /// Draws up to 40 lines for a program of so many acts.
    fn draw(&mut self, alloc: Global, draws: &mut Draws, count: u16, chips: u16) -> Option<()>
        requires cube { chips ≡ 2 ^ N }
    {
        for _ in 0..draws.below(40) {
            if count > 0 && chips > 0 {
                let asked = self.next(draws, chips, count);
                self.ask(alloc, draws, &asked, chips)?;
            }
        }
        Some(())
    }

    /// Asks for all messages and events.
    fn ask_for_all(&mut self, alloc: Global, draws: &mut Draws, chips: u16) -> Option<()>
        requires cube { chips ≡ 2 ^ N }
    {
        for chip in 0..chips {
            self.ask(alloc, draws, &Asked::of(Kind::Buffer, chip), chips)?;
            self.ask(alloc, draws, &Asked::of(Kind::Events, chip), chips)?;
        }
        Some(())
    }

    /// The next line; where it asks for a message, it is mostly one that there is.
    fn next(&self, draws: &mut Draws, chips: u16, count: u16) -> Asked
        requires cube { chips ≡ 2 ^ N }
        requires chips { 0 < chips }
        requires acts { 0 < count }
        ensures few { result.count ≤ 5 }
    {
        let asked = Asked::drawn(draws, chips, count);
        let chip = draws.below(chips);
        match (asked.kind, self.plain.tag_at(chip, chips)) {
            (Kind::Find, Some(tag)) if !draws.once_in(4) => Asked::finding(tag),
            _ => asked,
        }
    }

    fn ask(&mut self, alloc: Global, draws: &mut Draws, asked: &Asked, chips: u16) -> Option<()>
        requires cube { chips ≡ 2 ^ N }
        requires few { asked.now.count ≤ 5 }
    {
        push_line(alloc, &mut self.commands, asked, draws).ok()?;
        self.plain.answer(asked, chips)
    }
}

/// A drawn program.
fn drawn_program(alloc: Global, draws: &mut Draws) -> Option<Program> {
    let text = program(alloc, draws).ok()?;
    assemble(alloc, text.as_bytes()).ok()
}

/// Whether a session of these commands, read by so many bytes, ends well. No contract tells more.
fn ends_well<const N: usize, const CAP: usize>(
    alloc: Global,
    machine: &mut Machine<N, CAP>,
    program: &Program,
    commands: &[u8],
    step: usize,
    answers: &mut Room,
) -> bool
    requires writer { answers.old.failed ≡ false }
{
    let mut commands = Bytes::new(commands, step);
    session(alloc, machine, program, &mut commands, answers, &mut Plain).is_ok()
}

/// Whether cm_debug answers these commands so, read and written by so many bytes.
fn answers<const N: usize, const CAP: usize>(
    alloc: Global,
    machine: &mut Machine<N, CAP>,
    program: &Program,
    (commands, told): (&[u8], &[u8]),
    step: usize,
) -> bool {
    let Ok(mut answers) = Room::new(alloc, ROOM, step) else {
        return false;
    };
    ends_well(alloc, machine, program, commands, step, &mut answers) && answers.taken() == told
}

/// Whether two machines have one image.
fn are_alike<const N: usize, const CAP: usize>(
    alloc: Global,
    one: &Machine<N, CAP>,
    other: &Machine<N, CAP>,
) -> bool {
    match (dump(alloc, one), dump(alloc, other)) {
        (Ok(one), Ok(other)) => one == other,
        _ => false,
    }
}

/// Whether a session on this machine goes as the plain debugger's, which has its copy.
fn goes_as_plain<const N: usize, const CAP: usize>(
    alloc: Global,
    draws: &mut Draws,
    machine: &mut Machine<N, CAP>,
    drawn: &mut Drawn<'_, N, CAP>,
    program: &Program,
    chips: u16,
) -> bool
    requires cube { chips ≡ 2 ^ N }
{
    let Ok(count) = u16::try_from(program.acts().len()) else {
        return false;
    };
    if drawn.draw(alloc, draws, count, chips).is_none()
        || drawn.ask_for_all(alloc, draws, chips).is_none()
    {
        return false;
    }
    let plain = &drawn.plain;
    let step = 1 + usize::from(draws.below(90));
    let texts = (drawn.commands.as_bytes(), plain.told.bytes());
    answers(alloc, machine, program, texts, step) && are_alike(alloc, machine, &plain.machine)
}

/// Whether a drawn session with this program answers as the plain debugger does, and leaves the same machine.
fn is_so_with<const N: usize, const CAP: usize>(
    alloc: Global,
    draws: &mut Draws,
    machine: &mut Machine<N, CAP>,
    program: &Program,
    chips: u16,
) -> Option<bool>
    requires cube { chips ≡ 2 ^ N }
{
    let mut drawn = Drawn::new(alloc, machine.copy(alloc).ok()?, program).ok()?;
    Some(goes_as_plain(alloc, draws, machine, &mut drawn, program, chips))
}

/// The same with a drawn program.
fn is_so_on<const N: usize, const CAP: usize>(
    alloc: Global,
    draws: &mut Draws,
    machine: &mut Machine<N, CAP>,
    chips: u16,
) -> Option<bool>
    requires cube { chips ≡ 2 ^ N }
{
    let program = drawn_program(alloc, draws)?;
    is_so_with(alloc, draws, machine, &program, chips)
}

/// The same of a drawn machine.
fn is_so<const N: usize, const CAP: usize>(alloc: Global, seed: u32, chips: u16) -> Option<bool>
    requires cube { chips ≡ 2 ^ N }
{
    let mut draws = Draws::new(seed);
    let mut machine = machine::<N, CAP>(alloc, &mut draws, chips)?;
    is_so_on(alloc, &mut draws, &mut machine, chips)
}

impl Shape {
    fn is_so(self, alloc: Global, seed: u32) -> Option<bool> {
        match self {
            Shape::OneOfSeven => is_so::<0, 7>(alloc, seed, 1),
            Shape::TwoOfOne => is_so::<1, 1>(alloc, seed, 2),
            Shape::TwoOfTwo => is_so::<1, 2>(alloc, seed, 2),
            Shape::FourOfFifteen => is_so::<2, 15>(alloc, seed, 4),
            Shape::EightOfOne => is_so::<3, 1>(alloc, seed, 8),
            Shape::EightOfSeven => is_so::<3, 7>(alloc, seed, 8),
        }
    }
}

/// The first seed whose session is not so.
fn first_not_so(alloc: Global, (shape, first, end): (Shape, u32, u32)) -> Option<u32> {
    (first..end).find(|seed| shape.is_so(alloc, *seed) != Some(true))
}

#[test]
fn drawn_sessions_go_as_by_a_plain_debugger(rt: HostRuntime) {
    for row in DRAWN.iter() {
        assert_eq!(rt; first_not_so(rt.alloc(), *row), None);
    }
}
