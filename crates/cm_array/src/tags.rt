//! Whether two messages have one tag.

ghost use Rattle.std.specs.Prelude.{◌≡◌, ◌++◌, IfOk, IsTrue, OnOk, map};
ghost use Rattle.std.specs.Bool.{MatchBool};
ghost use Rattle.std.specs.List.{flat_map};
ghost use Rattle.cm_model.specs.Unlogged.{has_tag_twice};
ghost use Rattle.cm_array.specs.Tags.{tag_key, HasEqualNeighbours, AreNeighboursApart};

use cm_bits::NoMemory;
use cm_message::Message;
use cm_router_engine::RouterEngine;
use std::alloc::Global;

/// A tag as it is sorted: its birth, chip and processor.
type Key = (u64, u16, u8);

/// Whether two of the messages that stand there have one tag: then two copies stand side by side once all
/// are sorted.
pub(crate) fn has_tag_twice(alloc: Global, crossing: &RouterEngine) -> Result<bool, NoMemory>
    requires gathered { IsTrue crossing.now.gathered }
    ensures value { IfOk result (λ twice.
        twice ≡ has_tag_twice (flat_map (λ buffer. buffer) crossing.now.buffers)) }
{
    let mut keys = keys_in(alloc, crossing)?;
    keys.sort_unstable();
    Ok(has_equal_neighbours(&keys))
}

fn keys_in(alloc: Global, crossing: &RouterEngine) -> Result<Vec<Key>, NoMemory>
    requires gathered { IsTrue crossing.now.gathered }
    ensures value { IfOk result (λ keys.
        keys.items ≡ map tag_key (flat_map (λ buffer. buffer) crossing.now.buffers)) }
{
    let mut keys = Vec::with_capacity(alloc, count(crossing))?;
    for c in 0..crossing.chips() {
        push_keys(&mut keys, crossing.buffer(c))?;
    }
    Ok(keys)
}

/// How many messages stand there, as a hint.
fn count(crossing: &RouterEngine) -> usize {
    let mut count: usize = 0;
    for c in 0..crossing.chips() {
        count = count.saturating_add(crossing.len(c));
    }
    count
}

fn push_keys(keys: &mut Vec<Key>, messages: &[Message]) -> Result<(), NoMemory>
    ensures ok { OnOk result (keys.new.items ≡ keys.old.items ++ map tag_key messages.now) }
{
    for message in messages {
        let Ok(()) = keys.push(key_of(message)) else {
            return Err(NoMemory);
        };
    }
    Ok(())
}

fn key_of(message: &Message) -> Key
    ensures value { result ≡ tag_key message.now }
{
    let tag = message.tag;
    (tag.birth, tag.chip, tag.proc.get())
}

/// Whether some key is equal to the next one.
fn has_equal_neighbours(keys: &[Key]) -> bool
    ensures value { MatchBool result (HasEqualNeighbours keys.now) (AreNeighboursApart keys.now) }
{
    for i in 1..keys.len() {
        if keys[i - 1] == keys[i] {
            return true;
        }
    }
    false
}
