//! Lines of answers.

use cm_message::Message;
use std::alloc::{AllocError, Global};

/// Lines that were told.
#[derive(Drop)]
pub(crate) struct Told {
    alloc: Global,
    text: Vec<u8>,
}

impl Told {
    pub(crate) fn new(alloc: Global) -> Told {
        Told {
            alloc,
            text: Vec::new(alloc),
        }
    }

    pub(crate) fn bytes(&self) -> &[u8] {
        self.text.as_slice()
    }

    /// Words and numbers.
    pub(crate) fn line(&mut self, words: &str, numbers: &[u64]) -> Result<(), AllocError> {
        self.text.extend_from_slice(words.as_bytes())?;
        self.numbers(numbers)?;
        self.text.extend_from_slice(b"\n")
    }

    /// Relative address, processor, payload, and the tag.
    pub(crate) fn message(&mut self, word: &str, message: &Message) -> Result<(), AllocError> {
        let tag = message.tag;
        self.text.extend_from_slice(word.as_bytes())?;
        self.numbers(&[u64::from(message.rel), u64::from(message.proc.get())])?;
        let payload = message.payload;
        let digits = format!(in self.alloc; " 0x{payload:08x}")?;
        self.text.extend_from_slice(digits.as_bytes())?;
        self.numbers(&[u64::from(tag.chip), u64::from(tag.proc.get()), tag.birth])?;
        self.text.extend_from_slice(b"\n")
    }

    fn numbers(&mut self, numbers: &[u64]) -> Result<(), AllocError> {
        for number in numbers {
            let word = format!(in self.alloc; " {number}")?;
            self.text.extend_from_slice(word.as_bytes())?;
        }
        Ok(())
    }
}
