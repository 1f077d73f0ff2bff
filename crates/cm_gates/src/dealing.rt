//! Things dealt out to hands in turn, and taken back.

ghost use Rattle.std.specs.Prelude.{◌≡◌, ℕ, ◌<◌, ◌≤◌, IfOk, [], length};
ghost use Rattle.cm_gates.specs.Dealing.{hand, AreDealt, AreEmptyHands, AreShares, HasPut};

use cm_bits::NoMemory;
use std::alloc::Global;

/// Deals things out to so many hands in turn, as cards.
pub fn deal<T: Drop>(alloc: Global, things: Vec<T>, count: usize) -> Result<Vec<Vec<T>>, NoMemory>
    requires some { 0 < count }
    ensures value { IfOk result (λ hands. AreDealt count things.items hands.items) }
{
    let mut hands = empty_hands(alloc, count)?;
    let mut j = 0;
    for thing in things {
        put(&mut hands, j % count, thing)?;
        j += 1;
    }
    Ok(hands)
}

/// So many hands with nothing in them.
fn empty_hands<T: Drop>(alloc: Global, count: usize) -> Result<Vec<Vec<T>>, NoMemory>
    ensures value { IfOk result (λ hands. AreEmptyHands count hands.items) }
{
    Ok((0..count).map(|_| Vec::new(alloc)).collect(alloc)?)
}

/// Puts a thing behind those of a hand.
fn put<T: Drop>(hands: &mut Vec<Vec<T>>, r: usize, thing: T) -> Result<(), NoMemory>
    requires hand { r < length hands.old.items }
    ensures value { IfOk result (λ _. HasPut r thing hands.old.items hands.new.items) }
{
    let hand = &mut hands[r];
    hand.reserve(1)?;
    hand.push_reserved(thing);
    Ok(())
}

/// Takes the last thing of a hand.
fn take<T: Drop>(hands: &mut Vec<Vec<T>>, r: usize) -> T
    requires hand { r < length hands.old.items }
    requires some { (e : _) → 0 < length (hand hands.old.items e r) }
    ensures value { HasPut r result hands.new.items hands.old.items }
{
    hands[r].pop().unwrap()
}

/// Takes back so many things that were dealt out, in the order in which they were.
pub fn collect<T: Drop>(
    alloc: Global,
    mut hands: Vec<Vec<T>>,
    many: usize,
) -> Result<Vec<T>, NoMemory>
    requires some { 0 < length hands.items }
    requires shares { AreShares (length hands.items) many hands.items }
    ensures many { IfOk result (λ things. length things.items ≡ many) }
    ensures value { IfOk result (λ things. AreDealt (length hands.items) things.items hands.items) }
{
    let mut things = Vec::with_capacity(alloc, many)?;
    let count = hands.len();
    for i in 0..many {
        let j = many - 1 - i;
        things.push_reserved(take(&mut hands, j % count));
    }
    things.reverse();
    Ok(things)
}
