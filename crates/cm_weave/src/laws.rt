//! Laws over the definitions: what each function is named for holds.

ghost use Rattle.cm_weave.specs.Laws.{RunsAreExchanges, BlocksFollow};

/// The rounds of a run are those of an exchange, so that the laws of cm_exchange hold of it.
pub fn runs_are_exchanges()
    ensures { RunsAreExchanges }
{}

/// Steps of the exchange of a run lead each block from stage to stage, and from one round to the next.
pub fn blocks_follow()
    ensures { BlocksFollow }
{}
