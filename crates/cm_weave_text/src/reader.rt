//! What a line of steps asks for.

ghost use Rattle.std.specs.Prelude.{◌≡◌, ◌≤◌};
ghost use Rattle.cm_bits.specs.Text.{words_left, words_of};
ghost use Rattle.cm_weave_text.specs.Words.{block_asked, step_named, step_in_words};

use cm_bits::{Words, read_number};
use cm_exchange::Step;
use cm_session::Refusal;

/// The step that a line asks for, of one of 2^`k` blocks; none where it has no words. Of several faults the first is
/// told: the word, the number of operands, a word that is no number, a block that there is not. It takes no memory.
pub fn read_step(line: &[u8], k: u8) -> Result<Option<Step>, Refusal>
    requires few { k ≤ 12 }
    ensures value { result ≡ step_in_words k (words_of line.now) }
{
    let mut words = Words::new(line);
    let Some(name) = words.next() else {
        return Ok(None);
    };
    let step = read_named(name, words, k)?;
    Ok(Some(step))
}

/// The step of a first word and its operands.
fn read_named(name: &[u8], words: Words, k: u8) -> Result<Step, Refusal>
    requires few { k ≤ 12 }
    ensures value { result ≡ step_named k name.now (words_left words.entry) }
{
    if name == b"grip".as_slice() {
        let b = read_block(words, k)?;
        Ok(Step::Grip(b))
    } else if name == b"file".as_slice() {
        let b = read_block(words, k)?;
        Ok(Step::File(b))
    } else if name == b"draw".as_slice() {
        let b = read_block(words, k)?;
        Ok(Step::Draw(b))
    } else if name == b"clear".as_slice() {
        let b = read_block(words, k)?;
        Ok(Step::Clear(b))
    } else {
        Err(Refusal::Word)
    }
}

/// The number of a block.
fn read_block(mut words: Words, k: u8) -> Result<u16, Refusal>
    requires few { k ≤ 12 }
    ensures value { result ≡ block_asked k (words_left words.entry) }
{
    let (Some(word), None) = (words.next(), words.next()) else {
        return Err(Refusal::Operands);
    };
    let number = read_number(word).ok_or(Refusal::Number)?;
    if number < 1 << k {
        Ok(number as u16)
    } else {
        Err(Refusal::Range)
    }
}
