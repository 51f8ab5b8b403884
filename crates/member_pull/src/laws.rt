//! What a member gets of a server's messages.
ghost use Rattle.std.specs.Prelude.{◌≡◌, ◌⊎◌, ℕ, List, length, Result, Ok};
ghost use Rattle.gd_cipher.specs.Bytes.{AreBytes};
ghost use Rattle.group_terms.specs.declared.paths.Keyed.{Keyed};
ghost use Rattle.group_terms.specs.declared.phases.Phase1.{Phase1};
ghost use Rattle.kd_wire.specs.Texts.{IsPath};
ghost use Rattle.member_pull.specs.declared.pulls.Step.TheVariants.{Ended, Fourth, Second};
ghost use Rattle.member_pull.specs.declared.refusals.PullRefusal.{PullRefusal};
ghost use Rattle.member_pull.specs.declared.refusals.PullRefusal.TheVariants.{NoMemory};
ghost use Rattle.member_pull.specs.Fits.{PullFits};
ghost use Rattle.member_pull.specs.Paths.{root_of};
ghost use Rattle.member_pull.specs.Pulls.{IsBegun, IsSecond, IsFourth, IsRefused, Agrees, Ends, at_step};
ghost use Rattle.member_pull.specs.Views.{Pull};
ghost use Rattle.pull_msgs.specs.Fits.{PhaseFits, MessageFits, NonceFits, PoliciesFit, ReplyFits};
ghost use Rattle.pull_msgs.specs.Sent.{IsSomeSecond, IsSomeFourth};
ghost use Rattle.pull_msgs.specs.Texts.{IsPullText, next_iv, second_message, fourth_message};
ghost use Rattle.sa_wire.specs.declared.policies.SaPolicy.{SaPolicy};

use pull_msgs::{
    a_message_is_taken_as_it_was_written, a_taken_reply_is_a_path, a_written_message_is_read,
    written_messages_have_their_size,
};

/// A server's answer is taken where it is awaited, and so are its keys: those that the fourth message was written from. Only memory may be
/// short. That the pull ends with these keys is a step.
pub fn a_pull_gives_the_keys()
    ensures second { (old new : Pull) (iv nr datagram : List ℕ) (policy : SaPolicy) (result : Result (List ℕ) PullRefusal) →
        PhaseFits old.phase → MessageFits old.message → AreBytes 16 iv → NonceFits nr → PoliciesFit policy →
        old.step ≡ Second iv → IsPullText old.phase iv (second_message old.message old.ni nr policy) datagram →
        IsSecond old datagram result new →
        IsRefused (List ℕ) old NoMemory result new
        ⊎ Agrees old (record { nr = nr; policy = policy; next_iv = next_iv datagram }) result new }
    ensures fourth { (old new : Pull) (iv nr datagram : List ℕ) (keyed : Keyed) (result : Result Keyed PullRefusal) →
        PhaseFits old.phase → MessageFits old.message → AreBytes 16 iv → ReplyFits keyed →
        old.step ≡ Fourth iv nr keyed.spi → IsPullText old.phase iv (fourth_message old.message old.ni nr keyed) datagram →
        IsFourth old datagram result new →
        IsRefused Keyed old NoMemory result new ⊎ Ends old keyed result new }
    ensures ends { (old : Pull) (iv nr datagram : List ℕ) (keyed : Keyed) →
        PhaseFits old.phase → MessageFits old.message → AreBytes 16 iv → ReplyFits keyed →
        old.step ≡ Fourth iv nr keyed.spi → IsPullText old.phase iv (fourth_message old.message old.ni nr keyed) datagram →
        IsFourth old datagram (Ok keyed) (at_step old Ended) }
{
    a_written_message_is_read();
}

/// A pull fits from its beginning on, whatever messages it is given.
pub fn a_pull_always_fits()
    ensures begun { (phase : Phase1) (message ni group datagram : List ℕ) (pull : Pull) →
        PhaseFits phase → length message ≡ 4 → IsBegun phase message ni group pull datagram → PullFits pull }
    ensures second { (old new : Pull) (datagram : List ℕ) (result : Result (List ℕ) PullRefusal) →
        PullFits old → IsSecond old datagram result new → PullFits new }
    ensures fourth { (old new : Pull) (datagram : List ℕ) (result : Result Keyed PullRefusal) →
        PullFits old → IsFourth old datagram result new → PullFits new }
{
    written_messages_have_their_size();
}

/// A pull takes a server's message as it was written or not at all, be it of this pull or of another one under its phase 1 SA. It agrees by the nonce
/// and the policies of a second message, and gives the keys of a fourth; it takes neither as the other one.
pub fn a_pull_takes_messages_as_they_were_written()
    ensures second { (old new : Pull) (nr datagram third : List ℕ) (policy : SaPolicy) →
        PullFits old → IsSomeSecond old.phase nr policy datagram → IsSecond old datagram (Ok third) new →
        Agrees old (record { nr = nr; policy = policy; next_iv = next_iv datagram }) (Ok third) new }
    ensures fourth { (old new : Pull) (datagram : List ℕ) (keyed taken : Keyed) →
        PullFits old → IsSomeFourth old.phase keyed datagram → IsFourth old datagram (Ok taken) new → taken ≡ keyed }
    ensures second_as_fourth { (old new : Pull) (nr datagram : List ℕ) (policy : SaPolicy) (taken : Keyed) →
        PullFits old → IsSomeSecond old.phase nr policy datagram → IsFourth old datagram (Ok taken) new → ⊥ }
    ensures fourth_as_second { (old new : Pull) (datagram third : List ℕ) (keyed : Keyed) →
        PullFits old → IsSomeFourth old.phase keyed datagram → IsSecond old datagram (Ok third) new → ⊥ }
{
    a_message_is_taken_as_it_was_written();
}

/// What a pull takes makes a store, whatever datagram it was given: a path that leads up to the root, and the epoch in which the root's key was made (RFC
/// 6407 section 3.2).
pub fn what_a_pull_takes_makes_a_store()
    ensures { (old new : Pull) (datagram : List ℕ) (keyed : Keyed) → IsFourth old datagram (Ok keyed) new →
        IsPath keyed.path × (keyed.epoch ≡ (root_of keyed.path).made) }
{
    a_taken_reply_is_a_path();
}
