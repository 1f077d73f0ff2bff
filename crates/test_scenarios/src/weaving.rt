//! What comes of an exchange of blocks.

ghost use Rattle.std.specs.Prelude.{◌≡◌, false};
ghost use Rattle.test_doubles.specs.Doubles.{room_has_failed};

use crate::images::{tell_image, tell_refused};
use crate::playing::{Trial, first_trial, tell};
use crate::scene::Scene;
use cm_array::{Fixed, Machine};
use cm_model::Act;
use cm_system::ProgramFault;
use cm_weave::World;
use cm_weave_text::{weave_self, weave_session};
use std::alloc::{AllocError, Global};
use test_doubles::Room;

/// Which steps an exchange takes.
#[derive(Clone, Copy)]
pub(crate) enum Steps {
    /// Those of the scene's commands.
    Told,
    /// Each time that of the lowest block which has one.
    Own,
}

/// A world of which no contract tells anything.
#[derive(Drop)]
struct Exchange<const N: usize, const CAP: usize> {
    world: World<Fixed<N, CAP>>,
}

/// Tells what comes of the exchange of the blocks of a machine, and the image that is left if it is asked for.
pub(crate) fn play_exchange<const N: usize, const CAP: usize>(
    alloc: Global,
    steps: Steps,
    acts: &[Act],
    scene: &Scene,
    told: &mut Vec<u8>,
) -> Result<(), AllocError> {
    let mut answers = scene.ends.sink(alloc)?;
    let mut end = Vec::new(alloc);
    begin::<N, CAP>(alloc, steps, acts, scene, &mut answers, &mut end)?;
    told.extend_from_slice(answers.taken())?;
    told.extend_from_slice(end.as_slice())?;
    Ok(())
}

/// Answers, and tells how it ended.
fn begin<const N: usize, const CAP: usize>(
    alloc: Global,
    steps: Steps,
    acts: &[Act],
    scene: &Scene,
    answers: &mut Room,
    end: &mut Vec<u8>,
) -> Result<(), AllocError>
    requires writer { room_has_failed answers.old ≡ false }
{
    match first_trial::<N, CAP>(alloc, scene) {
        Some(trial) => weave(alloc, steps, trial, acts, scene, answers, end),
        None => tell(end, b"no machine"),
    }
}

fn weave<const N: usize, const CAP: usize>(
    alloc: Global,
    steps: Steps,
    trial: Trial<N, CAP>,
    acts: &[Act],
    scene: &Scene,
    answers: &mut Room,
    end: &mut Vec<u8>,
) -> Result<(), AllocError>
    requires writer { room_has_failed answers.old ≡ false }
{
    match cut(alloc, trial, acts, scene.split.min(255) as u8) {
        Ok(exchange) => go_through(alloc, steps, exchange, scene, answers, end),
        Err(fault) => tell_refused(alloc, fault, end),
    }
}

fn cut<const N: usize, const CAP: usize>(
    alloc: Global,
    trial: Trial<N, CAP>,
    acts: &[Act],
    k: u8,
) -> Result<Exchange<N, CAP>, ProgramFault> {
    match World::new(alloc, trial.machine, acts, k) {
        Ok(world) => Ok(Exchange { world }),
        Err(refused) => Err(ProgramFault::from(refused.fault)),
    }
}

fn go_through<const N: usize, const CAP: usize>(
    alloc: Global,
    steps: Steps,
    exchange: Exchange<N, CAP>,
    scene: &Scene,
    answers: &mut Room,
    end: &mut Vec<u8>,
) -> Result<(), AllocError>
    requires writer { room_has_failed answers.old ≡ false }
{
    match end_of(alloc, steps, exchange, scene, answers) {
        Ok(trial) => tell_left(alloc, &trial, scene, end),
        Err(fault) => tell_refused(alloc, fault, end),
    }
}

/// How the exchange ended.
fn end_of<const N: usize, const CAP: usize>(
    alloc: Global,
    steps: Steps,
    exchange: Exchange<N, CAP>,
    scene: &Scene,
    answers: &mut Room,
) -> Result<Trial<N, CAP>, ProgramFault>
    requires writer { room_has_failed answers.old ≡ false }
{
    let left = match steps {
        Steps::Told => {
            let mut lines = scene.ends.source(scene.commands.as_slice());
            weave_session(alloc, exchange.world, &mut lines, answers)
        }
        Steps::Own => weave_self(alloc, exchange.world, answers),
    };
    match left {
        Ok(machine) => Ok(Trial { machine }),
        Err(fault) => Err(ProgramFault::from(fault)),
    }
}

fn tell_left<const N: usize, const CAP: usize>(
    alloc: Global,
    trial: &Trial<N, CAP>,
    scene: &Scene,
    told: &mut Vec<u8>,
) -> Result<(), AllocError> {
    tell(told, b"= Ok(())")?;
    if scene.tells_image {
        return tell_image(alloc, &trial.machine, told);
    }
    Ok(())
}
