//! A world that takes its steps by itself.

ghost use Rattle.std.specs.Prelude.{◌≡◌, ◌+◌, ◌<◌, ◌++◌, ◌∷◌, ◌^◌, [], false, true, codes, decimal, IfOk, IfErr, IsOk};
ghost use Rattle.std.specs.Prelude.{OnOk};
ghost use Rattle.cm_model.specs.Machine.{run_of};
ghost use Rattle.std.specs.Io.KnownBytes.{Appends};
ghost use Rattle.cm_exchange.specs.Steps.{is_possible, world_after};
ghost use Rattle.cm_exchange.specs.Worlds.{IsFinished};
ghost use Rattle.cm_session.specs.Answer.{line};
ghost use Rattle.cm_weave_text.specs.Alone.{own_text, step_line};
ghost use Rattle.cm_weave_text.specs.Ends.{finished_line, is_weave_write, IsWrittenInPart};
ghost use Rattle.cm_weave_text.specs.Hearing.{exchange_in, TextAborts, HasSentFront, HasPlayed, IsOfRun};

use crate::fault::WeaveFault;
use crate::outgoing::send;
use crate::sessions::give_up;
use cm_array::{MachineOf, Sizes};
use cm_bits::Sink;
use cm_exchange::Step;
use cm_weave::World;
use itoa::Buffer;
use std::alloc::{AllocError, Global};

/// When so many bytes are gathered they are written.
const ROOM: usize = 65536;

/// How many steps were taken, and how many bytes went out.
#[derive(Clone, Copy)]
struct Played {
    steps: u64,
    sent: u128,
}

/// Takes the next step until there is none, and writes each as a line; then how many they were, and that the world is
/// finished. After a fault, of writing or for want of memory, a front of that text is written, and the world is given
/// up.
pub fn weave_self<S: Sizes, O: Sink>(
    alloc: Global,
    world: World<S>,
    out: &mut O,
) -> Result<MachineOf<S>, WeaveFault>
    requires writer { O.has_failed out.old ≡ false }
    ensures machine { IfOk result (λ done. done.machine ≡ run_of S.n S.cap world.machine world.acts) }
    ensures ok { IsOk result → Appends (O.contents out.old) (O.contents out.new)
        (own_text (exchange_in S.n S.cap world) world.world) }
    ensures err { IfErr result (IsWrittenInPart (own_text (exchange_in S.n S.cap world) world.world)
        (O.contents out.old) (O.contents out.new)) }
    ensures write { O.has_failed out.new ≡ is_weave_write result }
{
    let mut world = world;
    match tell_all(alloc, &mut world, out) {
        Ok(()) => {}
        Err(fault) => {
            give_up(world);
            return Err(fault);
        }
    }
    match world.finish() {
        Ok(machine) => Ok(machine),
        Err(_) => unreachable!(),
    }
}

/// Takes the next step until there is none, and writes all that is told.
fn tell_all<S: Sizes, O: Sink>(
    alloc: Global,
    world: &mut World<S>,
    out: &mut O,
) -> Result<(), WeaveFault>
    requires writer { O.has_failed out.old ≡ false }
    ensures run { IsOfRun world.old world.new }
    ensures finished { OnOk result (IsFinished (exchange_in S.n S.cap world.old) world.new.world) }
    ensures ok { OnOk result (Appends (O.contents out.old) (O.contents out.new)
        (own_text (exchange_in S.n S.cap world.old) world.old.world)) }
    ensures err { IfErr result (IsWrittenInPart (own_text (exchange_in S.n S.cap world.old) world.old.world)
        (O.contents out.old) (O.contents out.new)) }
    ensures write { O.has_failed out.new ≡ is_weave_write result }
{
    let mut text = Vec::new(alloc);
    let played = match play_on(world, &mut text, out) {
        Ok(played) => played,
        Err(fault) => return Err(fault),
    };
    match push_end(&mut text, played.steps) {
        Ok(()) => {}
        Err(_) => return Err(WeaveFault::Memory),
    }
    match send(&mut text, played.sent, out) {
        Ok(_) => Ok(()),
        Err(fault) => Err(fault),
    }
}

/// Takes the next step until there is none; tells of each.
fn play_on<S: Sizes, O: Sink>(
    world: &mut World<S>,
    text: &mut Vec<u8>,
    out: &mut O,
) -> Result<Played, WeaveFault>
    requires writer { O.has_failed out.old ≡ false }
    requires none { text.old.items ≡ [] }
    ensures run { IsOfRun world.old world.new }
    ensures ok { IfOk result (λ played. HasPlayed (exchange_in S.n S.cap world.old) world.old.world world.new.world
        (O.contents out.old) (O.contents out.new) text.new.items played.steps played.sent) }
    ensures few { IfOk result (λ played. played.sent < 2 ^ 127) }
    ensures err { IfErr result (IsWrittenInPart (own_text (exchange_in S.n S.cap world.old) world.old.world)
        (O.contents out.old) (O.contents out.new)) }
    ensures write { O.has_failed out.new ≡ is_weave_write result }
{
    world.k();
    let mut steps = 0;
    let mut sent = 0;
    while let Some(step) = world.next() {
        match tell_step(world, step, text, sent, out) {
            Ok(now) => sent = now,
            Err(fault) => return Err(fault),
        }
        steps += 1;
    }
    Ok(Played { steps, sent })
}

/// Takes a step and tells of it, behind so many bytes that went out; tells how many they are then.
fn tell_step<S: Sizes, O: Sink>(
    world: &mut World<S>,
    step: Step,
    text: &mut Vec<u8>,
    sent: u128,
    out: &mut O,
) -> Result<u128, WeaveFault>
    requires possible { is_possible (exchange_in S.n S.cap world.old) world.old.world step ≡ true }
    requires writer { O.has_failed out.old ≡ false }
    requires room { sent + 2 ^ 64 < 2 ^ 128 }
    ensures run { IsOfRun world.old world.new }
    ensures world { OnOk result (world.new.world
        ≡ world_after (exchange_in S.n S.cap world.old) world.old.world step) }
    ensures ok { IfOk result (HasSentFront (text.old.items
        ++ step_line step) sent (O.contents out.old) (O.contents out.new)
        text.new.items) }
    ensures few { IfOk result (λ now. now < sent + 2 ^ 64) }
    ensures err { IfErr result (TextAborts (text.old.items ++ step_line step) sent (O.contents out.old)
        (O.contents out.new)) }
    ensures write { O.has_failed out.new ≡ is_weave_write result }
{
    match push_step(text, step) {
        Ok(()) => {}
        Err(_) => return Err(WeaveFault::Memory),
    }
    if world.play(step).is_err() {
        unreachable!();
    }
    if text.len() < ROOM {
        return Ok(sent);
    }
    match send(text, sent, out) {
        Ok(now) => Ok(now),
        Err(fault) => Err(fault),
    }
}

#[tactic(auto, unfolding(crate::specs::Alone::step_line))]
fn push_step(text: &mut Vec<u8>, step: Step) -> Result<(), AllocError>
    ensures ok { OnOk result (text.new.items ≡ text.old.items ++ step_line step) }
{
    match step {
        Step::Grip(b) => push_number(text, b"grip", u64::from(b)),
        Step::File(b) => push_number(text, b"file", u64::from(b)),
        Step::Draw(b) => push_number(text, b"draw", u64::from(b)),
        Step::Clear(b) => push_number(text, b"clear", u64::from(b)),
    }
}

/// How many steps were taken, and that the world is finished.
#[tactic(auto, unfolding(cm_session::specs::Answer::line))]
fn push_end(text: &mut Vec<u8>, steps: u64) -> Result<(), AllocError>
    ensures ok { OnOk result (text.new.items
        ≡ text.old.items ++ (line (codes "steps" ∷ decimal steps ∷ []) ++ finished_line)) }
{
    push_number(text, b"steps", steps)?;
    text.extend_from_slice(b"finished\n")?;
    Ok(())
}

/// A line of a word and a number.
#[tactic(auto, unfolding(cm_session::specs::Answer::line))]
fn push_number(text: &mut Vec<u8>, word: &[u8], number: u64) -> Result<(), AllocError>
    ensures ok { OnOk result (text.new.items ≡ text.old.items ++ line (word.now ∷ decimal number ∷ [])) }
{
    text.extend_from_slice(word)?;
    text.push(b' ')?;
    text.extend_from_slice(Buffer::new().format(number).as_bytes())?;
    text.push(b'\n')?;
    Ok(())
}
