//! What the workers of a team left, in order, and things that are taken from several lists.

ghost use Rattle.std.specs.Prelude.{◌≡◌, ◌≢◌, ◌↔◌, ℕ, ◌+◌, ◌<◌, ◌≤◌, IfOk, [], drop, get_or, length, vec_capacity};
ghost use Rattle.cm_gates.specs.Dealing.{hand, AreDealt, AreShares};
ghost use Rattle.cm_resident.specs.Gathering.{AreFirsts, IsRowTaken};

use cm_bits::NoMemory;
use std::alloc::Global;

/// All of so many things in order: hand w of `count` has those whose numbers are w modulo `count`, rising, as the
/// workers of a team leave their blocks. There is room for them, and no memory is taken.
pub fn in_order<T: Drop>(hands: Vec<Vec<T>>, total: usize, things: Vec<T>) -> Vec<T>
    requires some { 0 < length hands.items }
    requires shares { AreShares (length hands.items) total hands.items }
    requires none { things.items ≡ [] }
    requires room { total ≤ vec_capacity things }
    ensures count { length result.items ≡ total }
    ensures value { AreDealt (length hands.items) result.items hands.items }
{
    let mut hands = hands;
    let mut things = things;
    for _row in 0..total / hands.len() + 1 {
        take_row(&mut hands, total, &mut things);
    }
    things
}

/// Takes the first thing of each hand, as long as there are not so many.
fn take_row<T: Drop>(hands: &mut Vec<Vec<T>>, total: usize, things: &mut Vec<T>)
    requires shares { (w : ℕ) (e : _) → w < length hands.old.items
        → (0 < length (hand hands.old.items e w)) ↔ (length things.old.items + w < total) }
    requires few { length things.old.items ≤ total }
    requires room { total ≤ vec_capacity things.old }
    ensures room { total ≤ vec_capacity things.new }
    ensures value { IsRowTaken total (length hands.old.items) hands.old.items things.old.items
        hands.new.items things.new.items }
{
    for w in 0..hands.len() {
        if things.len() < total {
            things.push_reserved(take_first(hands, w));
        }
    }
}

/// Takes the first thing of a hand.
fn take_first<T: Drop>(hands: &mut Vec<Vec<T>>, w: usize) -> T
    requires hand { w < length hands.old.items }
    requires some { (e : _) → 0 < length (hand hands.old.items e w) }
    ensures len { length hands.new.items ≡ length hands.old.items }
    ensures value { (e d : _) → result ≡ get_or (hand hands.old.items e w) 0 d }
    ensures here { (e : _) → hand hands.new.items e w ≡ drop 1 (hand hands.old.items e w) }
    ensures others { (s : ℕ) (e : _) → s ≢ w → hand hands.new.items e s ≡ hand hands.old.items e s }
{
    hands[w].remove(0)
}

/// Takes out the first thing of each hand.
pub(crate) fn take_firsts<T: Drop>(
    alloc: Global,
    hands: &mut Vec<Vec<T>>,
) -> Result<Vec<T>, NoMemory>
    requires some { (w : ℕ) (e : _) → w < length hands.old.items → 0 < length (hand hands.old.items e w) }
    ensures value { IfOk result (λ firsts. AreFirsts hands.old.items hands.new.items firsts.items) }
{
    let count = hands.len();
    let mut firsts = room_for(alloc, count)?;
    take_row(hands, count, &mut firsts);
    Ok(firsts)
}

/// Room for so many things.
pub(crate) fn room_for<T: Drop>(alloc: Global, count: usize) -> Result<Vec<T>, NoMemory>
    ensures none { IfOk result (λ things. things.items ≡ []) }
    ensures room { IfOk result (λ things. count ≤ vec_capacity things) }
{
    Ok(Vec::with_capacity(alloc, count)?)
}
