//! Which messages of the program of four messages stand at each chip before each round, told by a plain queue of four.

use cm_message::Message;
use std::alloc::{AllocError, Global};
use test_generators::one_of_four;

/// A message of the program, as it stands at some chip: which processor sent it, and over which dimensions it has come.
/// All chips do the same, so each has as many, alike but for where they come from.
#[derive(Clone, Copy)]
pub(crate) struct Letter {
    sender: u8,
    crossed: u16,
}

impl Letter {
    /// As it stands at a chip; all go over four dimensions.
    fn at(self, chip: u16) -> Message {
        one_of_four(15 ^ self.crossed, chip ^ self.crossed, self.sender % 16)
    }
}

/// Those that stand at a chip after a dimension: the first that has still to cross it goes, and the one that comes
/// stands last.
fn after_dimension(alloc: Global, letters: &[Letter], dim: u8) -> Result<Vec<Letter>, AllocError> {
    let mut stand = Vec::new(alloc);
    let mut gone = None;
    for letter in letters {
        let bit = 1u16 << dim.min(3);
        if gone.is_none() && letter.crossed & bit == 0 {
            gone = Some(Letter {
                crossed: letter.crossed | bit,
                ..*letter
            });
        } else {
            stand.push(*letter)?;
        }
    }
    if let Some(letter) = gone {
        stand.push(letter)?;
    }
    Ok(stand)
}

/// Without the first that has arrived.
fn after_delivery(alloc: Global, letters: &[Letter]) -> Result<Vec<Letter>, AllocError> {
    let mut stand = Vec::new(alloc);
    let mut is_delivered = false;
    for letter in letters {
        if is_delivered || letter.crossed != 15 {
            stand.push(*letter)?;
        } else {
            is_delivered = true;
        }
    }
    Ok(stand)
}

/// Those that stand at a chip before each of 128 rounds, two in each petit cycle: before dimensions 2 and 3. A
/// processor takes in one, and no other then.
pub(crate) fn letters_at_rounds(alloc: Global) -> Result<Vec<Vec<Letter>>, AllocError> {
    let mut rounds = Vec::new(alloc);
    let mut letters = Vec::new(alloc);
    for sender in 0..4 {
        letters.push(Letter { sender, crossed: 0 })?;
    }
    for _cycle in 0..64 {
        for dim in 0..4 {
            if dim >= 2 {
                rounds.push(letters.as_slice().to_vec(alloc)?)?;
            }
            letters = after_dimension(alloc, &letters, dim)?;
        }
        if letters.len() == 4 {
            letters = after_delivery(alloc, &letters)?;
        }
    }
    Ok(rounds)
}

/// Whether these messages stand at a chip before a round.
pub(crate) fn are_letters(
    rounds: &[Vec<Letter>],
    round: u32,
    chip: u16,
    messages: &[Message],
) -> bool {
    let Some(letters) = rounds.get(round as usize) else {
        return false;
    };
    if letters.len() != messages.len() {
        return false;
    }
    for (letter, message) in letters.iter().zip(messages) {
        if letter.at(chip) != *message {
            return false;
        }
    }
    true
}
