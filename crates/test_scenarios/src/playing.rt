//! What comes of a scene.

ghost use Rattle.std.specs.Prelude.{◌≡◌, false};
ghost use Rattle.test_doubles.specs.Doubles.{room_has_failed};

use crate::images::{tell_image, tell_loaded};
use crate::refusing::Refusing;
use crate::scene::Scene;
use crate::weaving::{Steps, play_exchange};
use cm_array::{Builder, Machine};
use cm_asm::{Program, assemble};
use cm_bits::read_number;
use cm_debug::{SessionFault, read_command, session};
use cm_image_load::load;
use std::alloc::{AllocError, Global};
use test_doubles::Room;

/// Tells a line.
pub(crate) fn tell(told: &mut Vec<u8>, line: &[u8]) -> Result<(), AllocError> {
    told.extend_from_slice(line)?;
    told.push(b'\n')?;
    Ok(())
}

/// Tells a line that was made, if there was memory for it.
pub(crate) fn tell_made(
    told: &mut Vec<u8>,
    line: Result<String, AllocError>,
) -> Result<(), AllocError> {
    tell(told, line?.as_bytes())
}

/// Tells how many acts the program has, or its first fault.
pub(crate) fn count(alloc: Global, scene: &Scene, told: &mut Vec<u8>) -> Result<(), AllocError> {
    let count = assemble(alloc, scene.program.as_slice()).map(|program| program.acts().len());
    tell_made(told, format!(in alloc; "{count:?}"))
}

/// Tells the program's listing.
pub(crate) fn listing(alloc: Global, scene: &Scene, told: &mut Vec<u8>) -> Result<(), AllocError> {
    let Ok(program) = assemble(alloc, scene.program.as_slice()) else {
        return tell(told, b"the program is refused");
    };
    tell_listing(alloc, &program, told)
}

fn tell_listing(alloc: Global, program: &Program, told: &mut Vec<u8>) -> Result<(), AllocError> {
    let Ok(text) = program.listing(alloc) else {
        return Err(AllocError);
    };
    told.extend_from_slice(text.as_slice())?;
    Ok(())
}

/// Tells what a line of commands asks for.
pub(crate) fn read_alone(alloc: Global, line: &[u8], told: &mut Vec<u8>) -> Result<(), AllocError> {
    let mut words = line.splitn(3, |byte| *byte == b' ');
    let dimensions = number(words.next());
    let count = number(words.next());
    let rest = words.next().unwrap_or(&[]);
    if dimensions > 12 {
        return tell(told, b"no such cube");
    }
    let read = read_command(rest, dimensions, count);
    tell_made(told, format!(in alloc; "{read:?}"))
}

fn number(word: Option<&[u8]>) -> usize {
    match word {
        Some(word) => read_number(word).unwrap_or(0) as usize,
        None => 0,
    }
}

/// What is done with a machine of a scene's size.
#[derive(Clone, Copy)]
pub(crate) enum Turn {
    /// It answers the scene's commands.
    Session,
    /// It is read from the scene's image.
    Image,
    /// Its blocks exchange.
    Exchange(Steps),
}

/// Plays a scene on a machine of its size.
pub(crate) fn play(
    alloc: Global,
    turn: Turn,
    scene: &Scene,
    told: &mut Vec<u8>,
) -> Result<(), AllocError> {
    match (scene.dimensions, scene.room) {
        (0, 7) => play_on::<0, 7>(alloc, turn, scene, told),
        (1, 1) => play_on::<1, 1>(alloc, turn, scene, told),
        (1, 7) => play_on::<1, 7>(alloc, turn, scene, told),
        (2, 1) => play_on::<2, 1>(alloc, turn, scene, told),
        (2, 2) => play_on::<2, 2>(alloc, turn, scene, told),
        (2, 7) => play_on::<2, 7>(alloc, turn, scene, told),
        (4, 1) => play_on::<4, 1>(alloc, turn, scene, told),
        (4, 7) => play_on::<4, 7>(alloc, turn, scene, told),
        (12, 7) => play_on::<12, 7>(alloc, turn, scene, told),
        _ => tell(told, b"no such machine"),
    }
}

fn play_on<const N: usize, const CAP: usize>(
    alloc: Global,
    turn: Turn,
    scene: &Scene,
    told: &mut Vec<u8>,
) -> Result<(), AllocError> {
    match turn {
        Turn::Session => play_session::<N, CAP>(alloc, scene, told),
        Turn::Image => tell_loaded::<N, CAP>(alloc, scene.image.as_slice(), told),
        Turn::Exchange(steps) => play_weave::<N, CAP>(alloc, steps, scene, told),
    }
}

fn play_weave<const N: usize, const CAP: usize>(
    alloc: Global,
    steps: Steps,
    scene: &Scene,
    told: &mut Vec<u8>,
) -> Result<(), AllocError> {
    let Ok(program) = assemble(alloc, scene.program.as_slice()) else {
        return tell(told, b"the program is refused");
    };
    play_exchange::<N, CAP>(alloc, steps, program.acts(), scene, told)
}

fn play_session<const N: usize, const CAP: usize>(
    alloc: Global,
    scene: &Scene,
    told: &mut Vec<u8>,
) -> Result<(), AllocError> {
    let Ok(program) = assemble(alloc, scene.program.as_slice()) else {
        return tell(told, b"the program is refused");
    };
    play_commands::<N, CAP>(alloc, &program, scene, told)
}

fn play_commands<const N: usize, const CAP: usize>(
    alloc: Global,
    program: &Program,
    scene: &Scene,
    told: &mut Vec<u8>,
) -> Result<(), AllocError> {
    match first_trial::<N, CAP>(alloc, scene) {
        Some(mut trial) => go_through(alloc, &mut trial, program, scene, told),
        None => tell(told, b"no machine"),
    }
}

/// A machine of which no contract tells anything.
#[derive(Drop)]
pub(crate) struct Trial<const N: usize, const CAP: usize> {
    pub(crate) machine: Machine<N, CAP>,
}

/// The machine of the scene's image, or where it has none a blank one.
pub(crate) fn first_trial<const N: usize, const CAP: usize>(
    alloc: Global,
    scene: &Scene,
) -> Option<Trial<N, CAP>> {
    if scene.image.is_empty() {
        return blank_trial(alloc, scene.clock);
    }
    let machine = load::<N, CAP>(alloc, scene.image.as_slice()).ok()?;
    Some(Trial { machine })
}

/// A blank machine after so many petit cycles.
fn blank_trial<const N: usize, const CAP: usize>(
    alloc: Global,
    clock: u64,
) -> Option<Trial<N, CAP>> {
    let builder = Builder::<N, CAP>::start(alloc, clock.min(u64::MAX >> 1)).ok()?;
    let machine = builder.done().ok()?;
    Some(Trial { machine })
}

/// Tells what comes of the scene's commands, and the image that is left if it is asked for.
fn go_through<const N: usize, const CAP: usize>(
    alloc: Global,
    trial: &mut Trial<N, CAP>,
    program: &Program,
    scene: &Scene,
    told: &mut Vec<u8>,
) -> Result<(), AllocError> {
    answer(alloc, trial, program, scene, told)?;
    if scene.tells_image {
        return tell_image(alloc, &trial.machine, told);
    }
    Ok(())
}

/// Tells the answers to the scene's commands, and how the session ended.
fn answer<const N: usize, const CAP: usize>(
    alloc: Global,
    trial: &mut Trial<N, CAP>,
    program: &Program,
    scene: &Scene,
    told: &mut Vec<u8>,
) -> Result<(), AllocError> {
    let mut answers = scene.ends.sink(alloc)?;
    let end = end_of(alloc, trial, program, scene, &mut answers);
    told.extend_from_slice(answers.taken())?;
    tell_end(alloc, end, told)
}

/// How the session ended.
fn end_of<const N: usize, const CAP: usize>(
    alloc: Global,
    trial: &mut Trial<N, CAP>,
    program: &Program,
    scene: &Scene,
    answers: &mut Room,
) -> Result<(), SessionFault>
    requires writer { room_has_failed answers.old ≡ false }
{
    let mut commands = scene.ends.source(scene.commands.as_slice());
    let mut runner = Refusing::new(scene.lists, scene.lack);
    session(
        alloc,
        &mut trial.machine,
        program,
        &mut commands,
        answers,
        &mut runner,
    )
}

fn tell_end(
    alloc: Global,
    end: Result<(), SessionFault>,
    told: &mut Vec<u8>,
) -> Result<(), AllocError> {
    tell_made(told, format!(in alloc; "= {end:?}"))
}
