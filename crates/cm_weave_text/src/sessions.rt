//! A session of steps, from the bytes of a source to those of a sink.

ghost use Rattle.std.specs.Prelude.{◌≡◌, ◌↔◌, ◌+◌, ◌<◌, ◌^◌, [], false, true, IfOk, IfErr, IfSome, IsOk, IsErrOf};
ghost use Rattle.std.specs.Prelude.{MatchResult};
ghost use Rattle.cm_model.specs.Machine.{run_of};
ghost use Rattle.cm_session.specs.Reading.{ConsumesAtMost, PIECE_LIMIT};
ghost use Rattle.cm_weave_text.specs.Ends.{is_weave_write, EndsBy, EndsByForSome, EndsFinished, EndsFinishedForSome};
ghost use Rattle.cm_weave_text.specs.Ends.{STEPS_LIMIT};
ghost use Rattle.cm_weave_text.specs.Hearing.{exchange_in, processed, TextAborts, HasHeard, IsHeard, IsHeardForSome};
ghost use Rattle.cm_weave_text.specs.Hearing.{IsOfRun};

use crate::fault::WeaveFault;
use crate::hearing::hear;
use crate::outgoing::send;
use cm_array::{MachineOf, Sizes};
use cm_bits::{Sink, Source, write_all};
use cm_weave::World;
use std::alloc::Global;

/// Most bytes of steps.
const STEPS_LIMIT: usize = 16777216;

/// So many bytes of steps are read at once.
const READ_AT_ONCE: usize = 4096;

/// Plays the steps that stand in lines, at most 16,777,216 bytes of them, and answers each; then tells whether every
/// block is through, and gives the machine if so. No bytes are asked for while a line that has ended is not answered.
///
/// After a fault of reading, and after too much, the lines that ended before are answered. After a failed write, or for
/// want of memory, a front of what would be told is written. With any fault the world is given up.
pub fn weave_session<S: Sizes, I: Source, O: Sink>(
    alloc: Global,
    world: World<S>,
    steps: &mut I,
    out: &mut O,
) -> Result<MachineOf<S>, WeaveFault>
    requires reader { I.has_failed steps.old ≡ false }
    requires writer { O.has_failed out.old ≡ false }
    ensures machine { IfOk result (λ done. done.machine ≡ run_of S.n S.cap world.machine world.acts) }
    ensures finished { IsOk result → IfSome (I.left steps.old) (λ text. EndsFinished (exchange_in S.n S.cap world)
        text world.world (O.contents out.old) (O.contents out.new)) }
    ensures err { IfErr result (λ fault. IfSome (I.left steps.old) (λ text. EndsBy (exchange_in S.n S.cap world)
        text (I.left steps.new) world.world (O.contents out.old) (O.contents out.new) fault)) }
    ensures heard { MatchResult result
        (λ _. EndsFinishedForSome (exchange_in S.n S.cap world) (I.left steps.old) (I.left steps.new)
        world.world (O.contents out.old) (O.contents out.new))
        (EndsByForSome (exchange_in S.n S.cap world) (I.left steps.old) (I.left steps.new) world.world
        (O.contents out.old) (O.contents out.new)) }
    ensures within { ConsumesAtMost (STEPS_LIMIT + PIECE_LIMIT) (I.left steps.old) (I.left steps.new) }
    ensures read { (I.has_failed steps.new ≡ true) ↔ IsErrOf result WeaveFault.Read }
    ensures write { O.has_failed out.new ≡ is_weave_write result }
{
    let mut world = world;
    let sent = match hear_all(alloc, &mut world, steps, out) {
        Ok(sent) => sent,
        Err(fault) => {
            give_up(world);
            return Err(fault);
        }
    };
    match world.finish() {
        Ok(machine) => match write_all(out, b"finished\n") {
            Ok(()) => Ok(machine),
            Err(fault) => {
                give_up(machine);
                Err(WeaveFault::Write(sent + fault.0 as u128))
            }
        },
        Err(unfinished) => {
            give_up(unfinished);
            match write_all(out, b"unfinished\n") {
                Ok(()) => Err(WeaveFault::Unfinished),
                Err(fault) => Err(WeaveFault::Write(sent + fault.0 as u128)),
            }
        }
    }
}

/// Frees a machine, or a world with one. It stands apart: at each call the code that frees all lists of a machine would
/// stand once more.
#[inline(never)]
pub fn give_up<T: Drop>(_machine: T) {}

/// Answers all lines; tells how many bytes the answers have.
fn hear_all<S: Sizes, I: Source, O: Sink>(
    alloc: Global,
    world: &mut World<S>,
    steps: &mut I,
    out: &mut O,
) -> Result<u128, WeaveFault>
    requires reader { I.has_failed steps.old ≡ false }
    requires writer { O.has_failed out.old ≡ false }
    ensures run { IsOfRun world.old world.new }
    ensures ok { IfOk result (λ sent. IfSome (I.left steps.old) (λ text. IsHeard (exchange_in S.n S.cap world.old) text
        world.old.world (O.contents out.old) world.new.world (O.contents out.new) sent)) }
    ensures few { IfOk result (λ sent. sent < 2 ^ 127) }
    ensures err { IfErr result (λ fault. IfSome (I.left steps.old) (λ text. EndsBy (exchange_in S.n S.cap world.old)
        text (I.left steps.new) world.old.world (O.contents out.old) (O.contents out.new) fault)) }
    ensures heard { MatchResult result
        (IsHeardForSome (exchange_in S.n S.cap world.old) (I.left steps.old) (I.left steps.new) world.old.world
        (O.contents out.old) world.new.world (O.contents out.new))
        (EndsByForSome (exchange_in S.n S.cap world.old) (I.left steps.old) (I.left steps.new) world.old.world
        (O.contents out.old) (O.contents out.new)) }
    ensures within { ConsumesAtMost (STEPS_LIMIT + PIECE_LIMIT) (I.left steps.old) (I.left steps.new) }
    ensures read { (I.has_failed steps.new ≡ true) ↔ IsErrOf result WeaveFault.Read }
    ensures write { O.has_failed out.new ≡ is_weave_write result }
{
    let mut line = Vec::new(alloc);
    let mut answers = Vec::new(alloc);
    let mut sent = 0;
    let mut taken = 0;
    let mut piece = [0u8; READ_AT_ONCE];
    loop {
        let count = match steps.read(&mut piece) {
            Ok(count) => count,
            Err(_) => return Err(WeaveFault::Read),
        };
        if count == 0 {
            break;
        }
        let room = count.min(STEPS_LIMIT - taken);
        match tell(world, &piece[..room], &mut line, &mut answers, sent, out) {
            Ok(now) => sent = now,
            Err(fault) => return Err(fault),
        }
        taken += room;
        if room < count {
            return Err(WeaveFault::TooMuch);
        }
    }
    if line.is_empty() {
        return Ok(sent);
    }
    // the end of the bytes ends the line that is open
    match tell(world, b"\n", &mut line, &mut answers, sent, out) {
        Ok(now) => Ok(now),
        Err(fault) => Err(fault),
    }
}

/// Answers the lines whose ends stand among these bytes, behind so many bytes of answers; tells how many they are then.
fn tell<S: Sizes, O: Sink>(
    world: &mut World<S>,
    piece: &[u8],
    line: &mut Vec<u8>,
    answers: &mut Vec<u8>,
    sent: u128,
    out: &mut O,
) -> Result<u128, WeaveFault>
    requires writer { O.has_failed out.old ≡ false }
    requires room { sent + 2 ^ 64 < 2 ^ 128 }
    ensures run { IsOfRun world.old world.new }
    ensures ok { IfOk result (HasHeard (exchange_in S.n S.cap world.old) world.old.world world.new.world line.old.items
        line.new.items piece.now sent (O.contents out.old) (O.contents out.new)) }
    ensures few { IfOk result (λ now. now < sent + 2 ^ 64) }
    ensures err { IfErr result (TextAborts (processed (exchange_in S.n S.cap world.old)
        (record { world = world.old.world; line = line.old.items; answers = [] }) piece.now).answers sent
        (O.contents out.old) (O.contents out.new)) }
    ensures write { O.has_failed out.new ≡ is_weave_write result }
{
    answers.clear();
    match hear(world, piece, line, answers) {
        Ok(()) => {}
        Err(_) => return Err(WeaveFault::Memory),
    }
    send(answers, sent, out)
}
