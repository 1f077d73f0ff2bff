//! A call of lab_args.

ghost use Rattle.std.specs.Prelude.{◌≡◌, None, Ok, IfOk, IfErr};
ghost use Rattle.lab_args.specs.Words.{texts};
ghost use Rattle.lab_args.specs.Refusals.{reported_refusal};
ghost use Rattle.lab_args.specs.Requests.{requested};
ghost use Rattle.lab_args.specs.Commands.{Refuses, given_twice, request_of};

use lab_args::{Command, CommandFault};
use std::alloc::Global;

/// What `lab_args::read_words` promises, word for word.
pub fn read_words<'a>(alloc: Global, words: &[&'a str]) -> Result<Command<'a>, CommandFault>
    ensures once { IfOk result (λ command. given_twice (texts words.now) ≡ None) }
    ensures value { IfOk result (λ command. request_of (texts words.now) ≡ Ok (requested command)) }
    ensures refused { IfErr result (λ fault. Refuses (texts words.now) (reported_refusal fault)) }
{
    lab_args::read_words(alloc, words)
}
