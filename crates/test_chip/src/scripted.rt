//! A reader and writer of std that answers what a list says, call by call.

ghost use Rattle.std.specs.Prelude.{◌≤◌, IfOk};

use std::io;
use std::io::{ErrorKind, Read, Write};

/// What it answers to a call.
#[derive(Clone, Copy, Debug, PartialEq, Eq)]
pub(crate) enum Answer {
    Fails,
    /// So many bytes, or all that it is asked for.
    Takes(usize),
}

/// Gives its answers one after another, then takes nothing.
#[derive(Drop)]
pub(crate) struct Scripted<'a> {
    answers: &'a [Answer],
}

impl<'a> Scripted<'a> {
    pub(crate) fn new(answers: &'a [Answer]) -> Scripted<'a> {
        Scripted { answers }
    }

    fn answer(&mut self, asked: usize) -> io::Result<usize>
        ensures within { IfOk result (λ count. count ≤ asked) }
    {
        let [answer, rest @ ..] = self.answers else {
            return Ok(0);
        };
        self.answers = rest;
        match answer {
            Answer::Fails => Err(ErrorKind::Interrupted.into()),
            Answer::Takes(count) => Ok(asked.min(*count)),
        }
    }
}

impl Read for Scripted<'_> {
    fn read(&mut self, buf: &mut [u8]) -> io::Result<usize> {
        self.answer(buf.len())
    }
}

impl Write for Scripted<'_> {
    fn write(&mut self, buf: &[u8]) -> io::Result<usize> {
        self.answer(buf.len())
    }

    fn flush(&mut self) -> io::Result<()> {
        Ok(())
    }
}
