//! What a look finds meets the conditions of the calls that take it.
ghost use Rattle.std.specs.Prelude.{◌≡◌, ℕ, List, Ok};
ghost use Rattle.group_terms.specs.Names.{Name};
ghost use Rattle.pull_msgs.specs.declared.messages.First.{First};
ghost use Rattle.pull_msgs.specs.declared.messages.Third.{Third};
ghost use Rattle.pull_sessions.specs.Builds.{IsFirstFrom, IsThirdFrom};
ghost use Rattle.pull_sessions.specs.Looks.{IsAgainOf, IsLook};
ghost use Rattle.pull_sessions.specs.Sessions.{AreApart};
ghost use Rattle.pull_sessions.specs.declared.answers.Kept.{Kept};
ghost use Rattle.pull_sessions.specs.declared.answers.LookedAt.TheVariants.{NewFirst, NextThird, Repeat};
ghost use Rattle.pull_sessions.specs.declared.sas.Sa.{Sa};

/// What a look finds is what `hold_first` and `hold_third` take; and what it answers again is what the session of that member keeps.
pub fn what_is_found_can_be_held()
    ensures first { (sas : List Sa) (m : Name) (datagram : List ℕ) (first : First) → AreApart sas →
        IsLook sas datagram (Ok (record { member = m; what = NewFirst first })) → IsFirstFrom sas m datagram first }
    ensures third { (sas : List Sa) (m : Name) (datagram : List ℕ) (third : Third) → AreApart sas →
        IsLook sas datagram (Ok (record { member = m; what = NextThird third })) → IsThirdFrom sas m datagram third }
    ensures again { (sas : List Sa) (m : Name) (datagram : List ℕ) (kept : Kept) → AreApart sas →
        IsLook sas datagram (Ok (record { member = m; what = Repeat kept })) → IsAgainOf sas m datagram kept }
{}
