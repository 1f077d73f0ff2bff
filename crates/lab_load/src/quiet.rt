//! Petit cycles behind which nothing is left.

ghost use Rattle.std.specs.Prelude.{◌≡◌, ◌==◌, length};
ghost use Rattle.std.specs.List.{list_all};
ghost use Rattle.lab_load.specs.Counted.{is_quiet, with_quiet};

use crate::sources::Source;
use cm_element::Run;
use cm_router::may_ask;
use cm_router_engine::RouterEngine;
use lab_counts::Counts;

/// Counts a petit cycle behind which this is left, if it is nothing.
pub(crate) fn count_quiet(
    run: &Run,
    crossing: &RouterEngine,
    sources: &[Source],
    counts: &mut Counts,
)
    ensures value { counts.new ≡ with_quiet (is_quiet run.now crossing.now.buffers sources.now) counts.old }
{
    if counts.is_on && is_quiet(run, crossing, sources) {
        counts.quiet = counts.quiet.saturating_add(1);
    }
}

/// Whether nothing is left.
fn is_quiet(run: &Run, crossing: &RouterEngine, sources: &[Source]) -> bool
    ensures value { result ≡ is_quiet run.now crossing.now.buffers sources.now }
{
    none_stands(crossing) && !may_ask(run) && none_waits(sources)
}

fn none_stands(crossing: &RouterEngine) -> bool
    ensures value { result ≡ list_all (λ here. length here == 0) crossing.now.buffers }
{
    crossing.is_empty()
}

fn none_waits(sources: &[Source]) -> bool
    ensures value { result ≡ list_all (λ source. source.waiting == 0) sources.now }
{
    sources.iter().all(|source| source.waiting == 0)
}
