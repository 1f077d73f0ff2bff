//! What comes of a scene's session with ends that fail after each number of bytes.

use crate::ends::{Ends, WHOLE};
use crate::playing::{Turn, play, tell_made};
use crate::scene::Scene;
use std::alloc::{AllocError, Global};

/// How a session ends that goes well.
const DONE: &[u8] = b"= Ok(())\n";

/// Tells how many of these come out as they should, one after another: the commands and answers in pieces of 1 to 19
/// bytes, as they do whole; room for 0, 1 and more bytes of the answers, as their front; reading that fails after 0, 1
/// and more bytes of the commands up to all, as the lines that ended before do alone.
pub(crate) fn tell_each_session(
    alloc: Global,
    scene: &mut Scene,
    told: &mut Vec<u8>,
) -> Result<(), AllocError> {
    let ends = scene.ends;
    let whole = told_by(alloc, scene, WHOLE)?;
    tell_each_like(alloc, scene, &whole, ends.takes_nothing, told)?;
    scene.ends = ends;
    Ok(())
}

fn tell_each_like(
    alloc: Global,
    scene: &mut Scene,
    whole: &[u8],
    takes_nothing: bool,
    told: &mut Vec<u8>,
) -> Result<(), AllocError> {
    let pieces = pieces_alike(alloc, scene, whole)?;
    let rooms = rooms_filled(alloc, scene, whole, takes_nothing)?;
    let reads = reads_failed(alloc, scene)?;
    let line = format!(in alloc; "= {pieces} pieces, {rooms} rooms, {reads} failed reads");
    tell_made(told, line)
}

/// What is told of the session over these ends.
fn told_by(alloc: Global, scene: &mut Scene, ends: Ends) -> Result<Vec<u8>, AllocError> {
    scene.ends = ends;
    let mut told = Vec::new(alloc);
    play(alloc, Turn::Session, scene, &mut told)?;
    Ok(told)
}

/// The answers of a session that goes well; of another none.
fn answers_of(told: &[u8]) -> &[u8] {
    told.strip_suffix(DONE).unwrap_or(&[])
}

fn pieces_alike(alloc: Global, scene: &mut Scene, whole: &[u8]) -> Result<usize, AllocError> {
    for piece in 1usize..20 {
        let told = told_by(alloc, scene, Ends { piece, ..WHOLE })?;
        if told.as_slice() != whole {
            return Ok(piece - 1);
        }
    }
    Ok(19)
}

fn rooms_filled(
    alloc: Global,
    scene: &mut Scene,
    whole: &[u8],
    takes_nothing: bool,
) -> Result<usize, AllocError> {
    let answers = answers_of(whole);
    for room in 0..answers.len() {
        let ends = Ends {
            room,
            takes_nothing,
            ..WHOLE
        };
        if !is_filled(alloc, scene, ends, &answers[..room])? {
            return Ok(room);
        }
    }
    Ok(answers.len())
}

/// Whether these answers are all that there is room for, and writing fails then.
fn is_filled(
    alloc: Global,
    scene: &mut Scene,
    ends: Ends,
    answers: &[u8],
) -> Result<bool, AllocError> {
    let told = told_by(alloc, scene, ends)?;
    let end = format!(in alloc; "= Err(Write({}))\n", answers.len())?;
    Ok(told.strip_suffix(end.as_bytes()) == Some(answers))
}

/// The commands come back byte by byte.
fn reads_failed(alloc: Global, scene: &mut Scene) -> Result<usize, AllocError> {
    let commands = scene.commands.to_vec(alloc)?;
    scene.commands.clear();
    reads_failed_of(alloc, scene, commands.as_slice())
}

fn reads_failed_of(alloc: Global, scene: &mut Scene, commands: &[u8]) -> Result<usize, AllocError> {
    let mut ended = told_by(alloc, scene, WHOLE)?;
    for byte in commands {
        if !fails_behind(alloc, scene, answers_of(&ended))? {
            return Ok(scene.commands.len());
        }
        scene.commands.push(*byte)?;
        if *byte == b'\n' {
            ended = told_by(alloc, scene, WHOLE)?;
        }
    }
    if fails_behind(alloc, scene, answers_of(&ended))? {
        return Ok(scene.commands.len().saturating_add(1));
    }
    Ok(scene.commands.len())
}

/// Whether reading that fails behind all commands leaves these answers.
fn fails_behind(alloc: Global, scene: &mut Scene, answers: &[u8]) -> Result<bool, AllocError> {
    let read = scene.commands.len();
    let told = told_by(alloc, scene, Ends { read, ..WHOLE })?;
    Ok(told.strip_suffix(b"= Err(Read)\n".as_slice()) == Some(answers))
}
