//! Laws over the definitions: what each function is named for holds, for every machine and all lines.

ghost use Rattle.lab_front.specs.Laws.{FrontsRunTheirPrograms, FrontsAnswerAsSessions, FrontsReadBack};

/// Lines of a program that come one by one, with questions between, leave the machine that a run of the program leaves.
pub fn fronts_run_their_programs()
    ensures { FrontsRunTheirPrograms }
{}

/// A question to a front end is answered as a session over the same machine answers it, whatever acts that has and
/// wherever it stands in them.
pub fn fronts_answer_as_sessions()
    ensures { FrontsAnswerAsSessions }
{}

/// Numbers that were put into a field of every processor are those that are told of it.
pub fn fronts_read_back()
    ensures { FrontsReadBack }
{}
