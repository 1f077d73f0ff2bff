//! What the parts of a petit cycle ask for, and where it changes nothing, as questions.

ghost use Rattle.std.specs.Prelude.{◌≡◌, ◌⊎◌, ℕ, ◌+◌, ◌^◌, ◌<◌, ◌≤◌, ◌↔◌, IsFalse, IsTrue, List, [], None, length};
ghost use Rattle.std.specs.Prelude.{slice_index_or};
ghost use Rattle.std.specs.List.{All, list_any};
ghost use Rattle.cm_element.specs.Flags.{has_flag};
ghost use Rattle.cm_model.specs.declared.act.Act.TheVariants as act;
ghost use Rattle.cm_model.specs.declared.message.Event.{Event as Told};
ghost use Rattle.cm_model.specs.Array.{nth_or_nil};
ghost use Rattle.cm_model.specs.Processor.{SEND, ACK};
ghost use Rattle.cm_model.specs.Buffers.{after_act};
ghost use Rattle.cm_model.specs.Wiring.{Routing as Routes};
ghost use Rattle.cm_router.specs.Logs.{log_rooms_of, HaveLogRoom};
ghost use Rattle.cm_petit.specs.Routers.{machine_from, AreRouters, HaveBuffers};

use cm_element::Run;
use cm_message::{Event, Message};
use cm_router::{is_idle, pass_over};
use cm_router_engine::{RouterEngine, Shape};

/// Whether there are as many buffers and logs as chips, with no more messages at a chip than there is room for.
pub fn are_routers(sizes: Shape, run: &Run, crossing: &RouterEngine, logs: &[Vec<Event>]) -> bool
    ensures routers { IsTrue result ↔ AreRouters (length run.now) sizes.room run.now crossing.now.buffers logs.now }
{
    let chips = run.chips();
    crossing.chips() == chips && logs.len() == chips && crossing.is_within(sizes.room)
}

/// Whether each log takes so many events more.
#[tactic(auto, using(crate::proofs::Making::room_is))]
pub fn has_log_room(logs: &[Vec<Event>], count: usize) -> bool
    ensures log_room { IsTrue result ↔ HaveLogRoom count (log_rooms_of logs.now) }
{
    for log in logs {
        if log.capacity() - log.len() < count {
            return false;
        }
    }
    true
}

/// Whether at each chip for which a message is written down there is room for it.
pub fn has_space(sizes: Shape, crossing: &RouterEngine, leavers: &[Option<Message>]) -> bool
    requires lanes { length leavers.now ≡ length crossing.now.buffers }
    ensures space { IsTrue result ↔ ((c : ℕ) → c < length leavers.now → (slice_index_or leavers.now c None ≡ None)
        ⊎ (length (nth_or_nil crossing.now.buffers c) < sizes.room)) }
{
    for c in 0..leavers.len() {
        if leavers[c].is_some() && crossing.len(c) >= usize::from(sizes.room) {
            return false;
        }
    }
    true
}

/// Whether a petit cycle changes nothing but the counter: nobody asks to send, nobody is acknowledged, and no message
/// stands anywhere. It is found by words of two rows of flags, and by the first slots of the chips.
pub fn is_at_rest(sizes: Shape, run: &Run, crossing: &RouterEngine) -> bool
    ensures value { IsTrue result ↔ (IsFalse (list_any (has_flag SEND) run.now)
        × IsFalse (list_any (has_flag ACK) run.now) × All (λ ms. ms ≡ []) crossing.now.buffers) }
    ensures rest { IsTrue result → (routing : Routes) (logs : List (List Told)) (clock : ℕ)
        → HaveBuffers (2 ^ sizes.dims) sizes.room run.now crossing.now.buffers → length logs ≡ 2 ^ sizes.dims
        → machine_from routing run.now crossing.now.buffers logs (clock + 1)
        ≡ after_act sizes.dims sizes.room (machine_from routing run.now crossing.now.buffers logs clock) act.Cycle }
{
    if !is_idle(run) || !crossing.is_empty() {
        return false;
    }
    pass_over(run);
    true
}
