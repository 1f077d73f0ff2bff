ghost use Rattle.std.specs.Prelude.{◌≡◌, ◌++◌, ◌∷◌, [], OnOk};

use cm_bits::NoMemory;
use itoa::{Buffer, Integer};

/// Words.
pub fn push_words(text: &mut Vec<u8>, words: &[u8]) -> Result<(), NoMemory>
    ensures ok { OnOk result (text.new.items ≡ text.old.items ++ words.now) }
{
    text.extend_from_slice(words)?;
    Ok(())
}

/// A byte.
pub fn push_byte(text: &mut Vec<u8>, byte: u8) -> Result<(), NoMemory>
    ensures ok { OnOk result (text.new.items ≡ text.old.items ++ byte ∷ []) }
{
    match text.push(byte) {
        Ok(()) => Ok(()),
        Err(_) => Err(NoMemory),
    }
}

/// Words, and a number behind them. An error leaves open how much of that is written.
pub fn push_piece<I: Integer>(text: &mut Vec<u8>, words: &[u8], number: I) -> Result<(), NoMemory>
    ensures ok { OnOk result (text.new.items ≡ text.old.items ++ (words.now ++ I.text number)) }
{
    push_words(text, words)?;
    push_words(text, Buffer::new().format(number).as_bytes())
}

/// A number, and a byte behind it. An error leaves open how much of that is written.
pub fn push_number<I: Integer>(text: &mut Vec<u8>, number: I, behind: u8) -> Result<(), NoMemory>
    ensures ok { OnOk result (text.new.items ≡ text.old.items ++ (I.text number ++ behind ∷ [])) }
{
    push_words(text, Buffer::new().format(number).as_bytes())?;
    push_byte(text, behind)
}
