//! Laws of whole sessions: what each function is named for holds, for every machine, program and list of lines.

ghost use Rattle.cm_session.specs.Whole.{SessionsKeepMachines, LinesRunTheirActs, SessionsDoMacros};
ghost use Rattle.cm_session.specs.Whole.{SessionsKeepMessages, SessionsDeliver};

/// What every machine keeps, the machine that a session leaves keeps.
pub fn sessions_keep_machines()
    ensures { SessionsKeepMachines }
{}

/// Lines without a poke do nothing to the machine but run the acts between the places where the session stands.
pub fn lines_run_their_acts()
    ensures { LinesRunTheirActs }
{}

/// Where all acts of a macro were run and no poke fell between, they were its whole-number assignment in each
/// selected processor.
pub fn sessions_do_macros()
    ensures { SessionsDoMacros }
{}

/// After a session every message stands in exactly one router or was delivered once, unaltered, to the processor
/// that it is for.
pub fn sessions_keep_messages()
    ensures { SessionsKeepMessages }
{}

/// What a log tells was delivered in a session is a message that stood in a router or was injected before, as it was,
/// and was received at one moment of a petit cycle by its processor, which had RECV 0.
pub fn sessions_deliver()
    ensures { SessionsDeliver }
{}
