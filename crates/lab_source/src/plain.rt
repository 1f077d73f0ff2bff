//! Lines with the numbers of their constants.

ghost use Rattle.std.specs.Prelude.{◌≡◌, ◌+◌, ◌<◌, ◌^◌, ◌++◌, ◌∷◌, [], OnOk, flat_map};
ghost use Rattle.cm_bits.specs.Text.{words_left, words_of};
ghost use Rattle.lab_source.specs.Expansion.{plain_word, plain_line};

use crate::constants::Constants;
use cm_bits::Words;
use itoa::Buffer;
use std::alloc::AllocError;

/// Puts a line behind a text, with its constants' numbers in place of their names, and its own number as a comment.
pub fn push_plain(
    text: &mut Vec<u8>,
    constants: &Constants,
    place: usize,
    line: &[u8],
) -> Result<(), AllocError>
    requires within { place + 1 < 2 ^ 64 }
    ensures ok { OnOk result (text.new.items ≡ text.old.items ++ plain_line constants.now place (words_of line.now)) }
{
    let mut words = Words::new(line);
    if let Some(word) = words.next() {
        text.extend_from_slice(word)?;
        push_operands(text, constants, words)?;
        text.push(b' ')?;
    }
    text.extend_from_slice(b"; ")?;
    text.extend_from_slice(Buffer::new().format(place + 1).as_bytes())?;
    Ok(())
}

/// Each operand behind a space.
fn push_operands(text: &mut Vec<u8>, constants: &Constants, words: Words) -> Result<(), AllocError>
    ensures ok { OnOk result (text.new.items
        ≡ text.old.items ++ flat_map (λ operand. 32 ∷ plain_word constants.now operand) (words_left words.entry)) }
{
    for word in words {
        text.push(b' ')?;
        push_word(text, constants, word)?;
    }
    Ok(())
}

fn push_word(text: &mut Vec<u8>, constants: &Constants, word: &[u8]) -> Result<(), AllocError>
    ensures ok { OnOk result (text.new.items ≡ text.old.items ++ plain_word constants.now word.now) }
{
    match constants.find(word) {
        Some(number) => text.extend_from_slice(Buffer::new().format(number).as_bytes())?,
        None => text.extend_from_slice(word)?,
    }
    Ok(())
}
