//! What follows for lists in shares.
ghost use Rattle.std.specs.Prelude.{ℕ, ◌<◌, ◌≤◌, List, length};
ghost use Rattle.work_shares.specs.Shares.{rounds, share};

/// A share has at most one item of each round.
pub fn no_share_has_more_than_the_rounds<T>()
    ensures { (items : List T) (n w : ℕ) → w < n → length (share n w items) ≤ rounds n (length items) }
{}
