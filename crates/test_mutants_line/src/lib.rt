//! The call of cm_args under its own contract. Must-fail edits turn the answer here, where no proof of cm_args is tried
//! again for them.
#![tactic(auto)]

ghost use Rattle.std.specs.Prelude.{IfOk, IsErrOf};
ghost use Rattle.clap.specs.Walk.{texts};
ghost use Rattle.cm_args.specs.Lines.{AsksFor, IsBadLine};

use cm_args::{Line, LineFault};
use std::alloc::Global;

/// What `cm_args::command` promises, word for word.
pub fn command<'a>(alloc: Global, words: &'a [&'a str]) -> Result<Line, LineFault>
    ensures value { IfOk result (AsksFor (texts words.now)) }
    ensures bad_line { IsErrOf result LineFault.BadLine → IsBadLine (texts words.now) }
{
    let line = cm_args::command(alloc, words);
    line
}
