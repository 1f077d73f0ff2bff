//! What a line of a session asks for, and why it is refused.

ghost use Rattle.std.specs.Prelude.{◌≡◌};
ghost use Rattle.cm_session.specs.Answer.{refusal_number};

use cm_bits::{Addr, Field, FlagNo, Place};
use cm_model::Tag;

/// The number of the refusal of a petit cycle that the counter has no room for.
pub const CLOCK: u64 = 7;

/// What a line asks for.
#[derive(Clone, Copy, Debug)]
pub enum Command {
    /// The next act is run.
    Step,
    /// Acts are run until a breakpoint is reached, or their end.
    Run,
    /// A breakpoint is set at the act of this index.
    Break(usize),
    /// It is taken away.
    Clear(usize),
    /// Each look at the global wire is told from now on.
    WireOn,
    /// It is told no longer.
    WireOff,
    /// The global wire is told as it is.
    WireShow,
    /// The value of a memory field of a processor is told.
    Field(Place, Field),
    /// A flag of a processor is told.
    Flag(Place, FlagNo),
    /// A bit is put into the memory of a processor.
    Poke(Place, Addr, bool),
    /// A bit is put into a flag of a processor, not flag 8.
    PokeFlag(Place, FlagNo, bool),
    /// The messages in the router of a chip are told.
    Buffer(u16),
    /// Where the message of this tag is, is told.
    Find(Tag),
    /// The log of a chip is told.
    Events(u16),
    /// The rule is told by which the routers choose who leaves.
    Rule,
}

/// Why a line is refused: it changes nothing then, and is answered by the refusal's number.
#[derive(Clone, Copy, Debug)]
pub enum Refusal {
    /// A field has 1 to 64 bits.
    Width,
    /// An operand is out of its range, or a field ends above bit 4095.
    Range,
    /// Flag 8 is always 0.
    ZeroFlag,
    /// The first word is no command.
    Word,
    /// The number of operands is wrong, or a word after `wire` is none of its three.
    Operands,
    /// An operand is no number.
    Number,
}

impl Refusal {
    /// Its number, which the session answers.
    pub fn number(self) -> u8
        ensures value { result ≡ refusal_number self }
    {
        match self {
            Refusal::Width => 1,
            Refusal::Range => 2,
            Refusal::ZeroFlag => 3,
            Refusal::Word => 15,
            Refusal::Operands => 16,
            Refusal::Number => 17,
        }
    }
}
