//! Laws over the definitions: what each function is named for holds, for every phrase and every machine.

ghost use Rattle.lab_phrases.specs.Laws.{PhrasesAreRight, PhrasesLeaveTheRest};

/// The acts of a phrase that is not refused do what it says, in all processors at once.
pub fn phrases_are_right()
    ensures { PhrasesAreRight }
{}

/// A phrase changes nothing in a processor that is not selected, and in the others its own field and flags alone.
pub fn phrases_leave_the_rest()
    ensures { PhrasesLeaveTheRest }
{}
