//! Laws over the definitions: what each function is named for holds, for every macro and every text.

ghost use Rattle.cm_language.specs.Laws.{MacrosAreRight, NumbersReadBack, MacrosLeaveTheRest, ProgramsAreWhole};
ghost use Rattle.cm_language.specs.Laws.{ProgramsAreListed, ListingsReadBack, ListingsAreTheirOwn};
ghost use Rattle.cm_language.specs.Places.{MacrosStandInTheirProgram};

/// The acts of a macro that is not refused do what it says in whole numbers, in all processors at once.
pub fn macros_are_right()
    ensures { MacrosAreRight }
{}

/// A field reads the number that was put into it, cut to its bits: so what a macro assigns is what is read.
pub fn numbers_read_back()
    ensures { NumbersReadBack }
{}

/// A macro changes nothing in a processor that is not selected, and in the others its own field and flags alone.
pub fn macros_leave_the_rest()
    ensures { MacrosLeaveTheRest }
{}

/// The program of every text has names that are names, each defined once, fields of 1 to 64 bits below
/// bit 4096, and at most 65,535 acts, whose numbers are in their ranges.
pub fn programs_are_whole()
    ensures { ProgramsAreWhole }
{}

/// And every such program is what its listing reads as.
pub fn programs_are_listed()
    ensures { ProgramsAreListed }
{}

/// The listing of a text's program is a text of the same fields, in their order, and the same acts.
pub fn listings_read_back()
    ensures { ListingsReadBack }
{}

/// The listing of a listing is that listing, byte for byte.
pub fn listings_are_their_own()
    ensures { ListingsAreTheirOwn }
{}

/// The acts of each macro of a text stand in its program, after those of the lines before it.
pub fn macros_stand_in_their_program()
    ensures { MacrosStandInTheirProgram }
{}
