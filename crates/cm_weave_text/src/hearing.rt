//! Bytes of steps, as they come.

ghost use Rattle.std.specs.Prelude.{◌≡◌, ◌≤◌, ◌<◌, ◌∷◌, [], length, take, slice_index, OnOk};
ghost use Rattle.cm_session.specs.Answer.{refusal_number, refused_line};
ghost use Rattle.cm_bits.specs.Text.{IsUnended};
ghost use Rattle.cm_weave_text.specs.Hearing.{exchange_in, processed, with_line_ended, IsOfRun};
ghost use Rattle.cm_weave_text.specs.Session.{world_after_line};

use crate::reader::read_step;
use cm_array::Sizes;
use cm_session::Refusal;
use cm_weave::{NotNow, World};
use memchr::memchr;
use std::alloc::AllocError;

/// Plays the lines whose ends stand among these bytes, adds their answers to those so far, and keeps the bytes of the
/// line that is open.
pub fn hear<S: Sizes>(
    world: &mut World<S>,
    piece: &[u8],
    line: &mut Vec<u8>,
    answers: &mut Vec<u8>,
) -> Result<(), AllocError>
    ensures run { IsOfRun world.old world.new }
    ensures ok { OnOk result (record { world = world.new.world; line = line.new.items; answers = answers.new.items }
        ≡ processed (exchange_in S.n S.cap world.old)
        (record { world = world.old.world; line = line.old.items; answers = answers.old.items }) piece.now) }
{
    let mut done = 0;
    while done < piece.len() {
        let rest = &piece[done..];
        let len = line_len(rest);
        line.extend_from_slice(&rest[..len])?;
        if len == rest.len() {
            return Ok(());
        }
        end_line(world, line, answers)?;
        done += len + 1;
    }
    Ok(())
}

/// The line that is open has ended.
fn end_line<S: Sizes>(
    world: &mut World<S>,
    line: &mut Vec<u8>,
    answers: &mut Vec<u8>,
) -> Result<(), AllocError>
    ensures run { IsOfRun world.old world.new }
    ensures ok { OnOk result (record { world = world.new.world; line = line.new.items; answers = answers.new.items }
        ≡ with_line_ended (exchange_in S.n S.cap world.old)
        (record { world = world.old.world; line = line.old.items; answers = answers.old.items })) }
{
    let answer = answer_line(world, line);
    answers.extend_from_slice(answer)?;
    line.clear();
    Ok(())
}

/// Plays a line; tells its answer.
#[tactic(auto, unfolding(crate::specs::Session::world_after_line, cm_session::specs::Answer::line))]
fn answer_line<S: Sizes>(world: &mut World<S>, line: &[u8]) -> &'static [u8]
    ensures run { IsOfRun world.old world.new }
    ensures value { record { world = world.new.world; answer = result.now }
        ≡ world_after_line (exchange_in S.n S.cap world.old) world.old.world line.now }
{
    match read_step(line, world.k()) {
        Ok(None) => b"",
        Ok(Some(step)) => match world.play(step) {
            Ok(()) => b"ok\n",
            Err(NotNow) => b"? 34\n",
        },
        Err(refusal) => refusal_text(refusal),
    }
}

/// The answer to a line that is refused.
#[tactic(auto, unfolding(cm_session::specs::Answer::line))]
fn refusal_text(refusal: Refusal) -> &'static [u8]
    ensures value { result.now ≡ refused_line (refusal_number refusal) }
{
    match refusal {
        Refusal::Width => b"? 1\n",
        Refusal::Range => b"? 2\n",
        Refusal::ZeroFlag => b"? 3\n",
        Refusal::Word => b"? 15\n",
        Refusal::Operands => b"? 16\n",
        Refusal::Number => b"? 17\n",
    }
}

/// How many bytes stand before the first end of a line, or in all.
fn line_len(bytes: &[u8]) -> usize
    ensures within { result ≤ length bytes.now }
    ensures unended { IsUnended (take result bytes.now) }
    ensures ends { result < length bytes.now → slice_index bytes.now result ≡ 10 }
{
    match memchr(b'\n', bytes) {
        Some(place) => place,
        None => bytes.len(),
    }
}
