//! Lists in shares.
ghost use Rattle.std.specs.Prelude.{◌≡◌, ◌<◌, ◌≤◌, ℕ, List as Items, [], length, map, reverse, slice_index_or, vec_capacity, All, IfOk};
ghost use Rattle.work_shares.specs.Shares.{AreShares, rounds, share};

use group_terms::{List, NoMemory};
use std::alloc::Global;

/// Deals the items of a list to so many hands: the hand at place `w` of `n` gets the items at the places `w`, `w + n` and so on, the last of them first. It
/// takes no memory.
pub fn deal<T: Drop>(mut items: List<T>, hands: &mut [Vec<T>])
    requires some { 0 < length hands.old }
    requires empty { All (λ hand. hand.items ≡ []) hands.old }
    requires room { (w : ℕ) → w < length hands.old →
        length (share (length hands.old) w items) ≤ slice_index_or (map (λ hand. vec_capacity hand) hands.old) w 0 }
    ensures count { length hands.new ≡ length hands.old }
    ensures dealt { (w : ℕ) → w < length hands.old →
        slice_index_or (map (λ hand. hand.items) hands.new) w [] ≡ reverse (share (length hands.old) w items) }
{
    while let Some(item) = items.pop() {
        let at = items.len() % hands.len();
        hands[at].push_reserved(item);
    }
}

/// Takes the items of a list back from so many hands, where the hand at place `w` of `n` has those at the places `w`, `w + n` and so on. It takes no memory but the
/// room that it is given.
pub fn gather<T: Drop>(hands: &mut [Vec<T>], mut room: Vec<T>, count: usize) -> List<T>
    requires some { 0 < length hands.old }
    requires room { (room.items ≡ []) × (count ≤ vec_capacity room) }
    requires shares { AreShares (map (λ hand. hand.items) hands.old) count }
    ensures count { length result ≡ count }
    ensures shares { (w : ℕ) → w < length hands.old →
        share (length hands.old) w result ≡ slice_index_or (map (λ hand. hand.items) hands.old) w [] }
{
    let mut left = count;
    while left > 0 {
        left -= 1;
        let at = left % hands.len();
        room.push_reserved(hands[at].pop().unwrap());
    }
    room.reverse();
    List::from_vec(room)
}

/// Empty hands for so many shares of a list of so many items, each with room for its share. `NoMemory`.
pub fn hands<T: Drop>(alloc: Global, shares: usize, count: usize) -> Result<Vec<Vec<T>>, NoMemory>
    requires { 0 < shares }
    ensures count { IfOk result (λ hands. length hands.items ≡ shares) }
    ensures empty { IfOk result (λ hands. All (λ hand. hand.items ≡ []) hands.items) }
    ensures room { IfOk result (λ hands. (items : Items T) → length items ≡ count → (w : ℕ) → w < shares →
        length (share shares w items) ≤ slice_index_or (map (λ hand. vec_capacity hand) hands.items) w 0) }
    ensures even { IfOk result (λ hands. All (λ hand. rounds shares count ≤ vec_capacity hand) hands.items) }
{
    let most = count.div_ceil(shares);
    let mut hands = Vec::with_capacity(alloc, shares)?;
    for _ in 0..shares {
        hands.push_reserved(Vec::with_capacity(alloc, most)?);
    }
    Ok(hands)
}
