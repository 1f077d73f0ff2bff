//! Laws over the definitions: what each function is named for holds, for every source.

ghost use Rattle.lab_meaning.specs.Laws.{ExpansionsArePrograms, FaultsAreOfPrograms, PlainSourcesArePrograms};
ghost use Rattle.lab_meaning.specs.Laws.{PhrasesStandInTheirProgram, ExpansionsDoPhrases, SourcesMacrosStand};
ghost use Rattle.lab_meaning.specs.SaidLines.{LinesSayPhrases};

/// What comes out of a source is accepted, and read as the program that the source says: the same fields, in
/// their order, and the same acts.
pub fn expansions_are_programs()
    ensures { ExpansionsArePrograms }
{}

/// A fault with which a source is refused is the first of what it says, unless too many bytes would come out.
pub fn faults_are_of_programs()
    ensures { FaultsAreOfPrograms }
{}

/// A source without constants, repeated lines and phrases, if anything comes out of it, is itself a text of the
/// program as which that is read.
pub fn plain_sources_are_programs()
    ensures { PlainSourcesArePrograms }
{}

/// The acts of each phrase stand in the program of the expansion, after those of the lines that are carried out
/// before it, under the context that stands then.
pub fn phrases_stand_in_their_program()
    ensures { PhrasesStandInTheirProgram }
{}

/// A run of that program up to the first act of a phrase, and then of its acts, has done what the phrase says, in all
/// processors at once, on every machine.
pub fn expansions_do_phrases()
    ensures { ExpansionsDoPhrases }
{}

/// The acts of each macro stand so too: what they do tell the laws of cm_language and cm_session.
pub fn sources_macros_stand()
    ensures { SourcesMacrosStand }
{}

/// These lines say these phrases of two fields, a and b: the first that is named is the one that a phrase writes.
pub fn lines_say_phrases()
    ensures { LinesSayPhrases }
{}
