//! Laws of logs: what each function is named for holds, of every machine.

ghost use Rattle.cm_array.specs.SavedLogs.{LogsAreNeverRead, FewEventsAreLogged};

/// A machine does the same without its events: what a run tells stands behind them.
pub fn logs_are_never_read()
    ensures { LogsAreNeverRead }
{}

/// In each petit cycle a run tells at most four events of a chip, and one for each message its router has room for.
pub fn few_events_are_told()
    ensures { FewEventsAreLogged }
{}
