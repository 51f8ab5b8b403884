//! What follows from what the calls promise.
ghost use Rattle.std.specs.Prelude.{◌≡◌, List, false};
ghost use Rattle.epoch_board.specs.declared.pairs.Seen.{Seen};
ghost use Rattle.epoch_board.specs.Pairs.{last_pair, StartsWith, is_less, NeverFalls};

/// Where published pairs never fall, none that a pass sees later is less than one that it saw before.
pub fn later_pairs_are_no_less()
    ensures first { (published seen : List Seen) → NeverFalls published → StartsWith published seen → NeverFalls seen }
    ensures later { (later earlier : List Seen) → NeverFalls later → StartsWith later earlier →
        is_less (last_pair later) (last_pair earlier) ≡ false }
{}

/// Between two meetings with a publisher that publishes nothing meanwhile, a pass has seen what was published, and no more.
pub fn a_look_between_meetings_is_exact()
    ensures { (published seen : List Seen) → StartsWith seen published → StartsWith published seen → seen ≡ published }
{}
