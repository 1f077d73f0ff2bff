//! Laws of studies: what each function is named for holds, of every machine.

ghost use Rattle.lab_study.specs.StudyLaws.{CountsAgreeWithTheAccount};

/// The numbers of a petit cycle are those of the account of messages.
pub fn counts_agree_with_the_account()
    ensures { CountsAgreeWithTheAccount }
{}
