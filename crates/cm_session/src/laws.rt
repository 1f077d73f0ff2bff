//! Laws over the definitions: what each function is named for holds, for every session.

ghost use Rattle.cm_session.specs.Stretches.{StretchesAreAnsweredAlike};
ghost use Rattle.cm_session.specs.Laws.{LinesCanBeParted, TextsCanBeParted, SessionsNeverGoBack};
ghost use Rattle.cm_session.specs.Laws.{SessionsConserveTheAccount};

/// Acts that are run at once are answered as they are one after another.
pub fn stretches_are_answered_alike()
    ensures { StretchesAreAnsweredAlike }
{}

/// Lines in two parts are answered as they are in one.
pub fn lines_can_be_parted()
    ensures { LinesCanBeParted }
{}

/// The lines of a text are those whose end stands in its front, and others after them.
pub fn texts_can_be_parted()
    ensures { TextsCanBeParted }
{}

/// Acts only bring the position forward.
pub fn sessions_never_go_back()
    ensures { SessionsNeverGoBack }
{}

/// No message is lost, altered or made twice in a session: it adds to the account what was injected, and nothing else.
pub fn sessions_conserve_the_account()
    ensures { SessionsConserveTheAccount }
{}
