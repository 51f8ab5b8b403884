//! A message that was written is read again, and in another pull as nothing else; how long it is, and what the causes of an answer are.
ghost use Rattle.std.specs.Prelude.{◌≡◌, ◌≤◌, ◌+◌, ◌*◌, ◌⊎◌, ℕ, List, length, Result, Ok, Err};
ghost use Rattle.gd_cipher.specs.Bytes.{AreBytes};
ghost use Rattle.gd_wire.specs.Chains.{filled};
ghost use Rattle.group_terms.specs.Octets.{AreOctets};
ghost use Rattle.group_terms.specs.declared.paths.Keyed.{Keyed};
ghost use Rattle.group_terms.specs.declared.phases.Phase1.{Phase1};
ghost use Rattle.kd_wire.specs.Texts.{IsPath};
ghost use Rattle.pull_msgs.specs.declared.faults.PullFault.{PullFault};
ghost use Rattle.pull_msgs.specs.declared.faults.PullFault.TheVariants.{NoMemory};
ghost use Rattle.pull_msgs.specs.declared.messages.First.{First};
ghost use Rattle.pull_msgs.specs.declared.messages.Second.{Second};
ghost use Rattle.pull_msgs.specs.declared.messages.Third.{Third};
ghost use Rattle.pull_msgs.specs.Fits.{PhaseFits, MessageFits, NonceFits, ReplyFits, PoliciesFit};
ghost use Rattle.pull_msgs.specs.Pulls.{IsAnswer, HasCauses, first_awaited, second_awaited, third_awaited, fourth_awaited};
ghost use Rattle.pull_msgs.specs.Readings.{root_made};
ghost use Rattle.pull_msgs.specs.Sent.{IsSomeSecond, IsSomeFourth};
ghost use Rattle.pull_msgs.specs.Texts.{IsPullText, first_iv, next_iv, key_id_type};
ghost use Rattle.pull_msgs.specs.Texts.{first_message, second_message, third_message, fourth_message};
ghost use Rattle.sa_wire.specs.declared.policies.SaPolicy.{SaPolicy};

use gd_cipher::a_text_is_opened_in_one_way;
use kd_wire::{
    a_body_has_one_of_three_forms, a_written_reply_is_read, written_texts_are_octets,
    written_texts_have_their_size,
};
use sa_wire::{
    written_policies_are_octets, written_policies_are_read, written_policies_have_their_size,
};

/// A message that was written is read as what it was written of, where it is awaited, unless out of memory. That a fourth message gives its keys is
/// an answer.
pub fn a_written_message_is_read()
    ensures first { (phase : Phase1) (message ni group datagram : List ℕ) (answer : Result First PullFault) →
        PhaseFits phase → MessageFits message → NonceFits ni → AreOctets group → length group ≤ 32 →
        IsPullText phase (first_iv phase message) (first_message message ni group) datagram →
        IsAnswer phase (first_awaited phase) datagram answer →
        (answer ≡ Err NoMemory) ⊎ (answer ≡ Ok (record {
          message = message;
          ni = ni;
          id_type = key_id_type;
          id = group;
          next_iv = next_iv datagram;
        })) }
    ensures second { (phase : Phase1) (message iv ni nr datagram : List ℕ) (policy : SaPolicy) (answer : Result Second PullFault) →
        PhaseFits phase → MessageFits message → AreBytes 16 iv → NonceFits nr → PoliciesFit policy →
        IsPullText phase iv (second_message message ni nr policy) datagram →
        IsAnswer phase (second_awaited message iv ni) datagram answer →
        (answer ≡ Err NoMemory) ⊎ (answer ≡ Ok (record { nr = nr; policy = policy; next_iv = next_iv datagram })) }
    ensures third { (phase : Phase1) (message iv ni nr datagram : List ℕ) (answer : Result Third PullFault) →
        PhaseFits phase → MessageFits message → AreBytes 16 iv →
        IsPullText phase iv (third_message message ni nr) datagram →
        IsAnswer phase (third_awaited message iv ni nr) datagram answer →
        (answer ≡ Err NoMemory) ⊎ (answer ≡ Ok (record { next_iv = next_iv datagram })) }
    ensures fourth { (phase : Phase1) (message iv ni nr datagram : List ℕ) (keyed : Keyed) (answer : Result Keyed PullFault) →
        PhaseFits phase → MessageFits message → AreBytes 16 iv → ReplyFits keyed →
        IsPullText phase iv (fourth_message message ni nr keyed) datagram →
        IsAnswer phase (fourth_awaited message iv ni nr keyed.spi) datagram answer →
        (answer ≡ Err NoMemory) ⊎ (answer ≡ Ok keyed) }
    ensures keys { (phase : Phase1) (message iv ni nr datagram : List ℕ) (keyed : Keyed) →
        PhaseFits phase → MessageFits message → AreBytes 16 iv → ReplyFits keyed →
        IsPullText phase iv (fourth_message message ni nr keyed) datagram →
        IsAnswer phase (fourth_awaited message iv ni nr keyed.spi) datagram (Ok keyed) }
{
    a_written_reply_is_read();
    written_texts_are_octets();
    written_texts_have_their_size();
    written_policies_are_octets();
    written_policies_are_read();
    written_policies_have_their_size();
}

/// A server's message is taken as it was written or not at all, also in another pull under its phase 1 SA, whatever message id, nonces and IV that
/// pull has. A second message gives its nonce and its policies, a fourth its keys; neither is taken as the other one.
pub fn a_message_is_taken_as_it_was_written()
    ensures second { (phase : Phase1) (message iv ni nr datagram : List ℕ) (policy : SaPolicy) (taken : Second) →
        PhaseFits phase → length iv ≡ 16 → IsSomeSecond phase nr policy datagram →
        IsAnswer phase (second_awaited message iv ni) datagram (Ok taken) →
        taken ≡ record { nr = nr; policy = policy; next_iv = next_iv datagram } }
    ensures fourth { (phase : Phase1) (message iv ni nr spi datagram : List ℕ) (keyed taken : Keyed) →
        PhaseFits phase → length iv ≡ 16 → IsSomeFourth phase keyed datagram →
        IsAnswer phase (fourth_awaited message iv ni nr spi) datagram (Ok taken) → taken ≡ keyed }
    ensures second_as_fourth { (phase : Phase1) (message iv ni nr spi server_nr datagram : List ℕ) (policy : SaPolicy) (taken : Keyed) →
        PhaseFits phase → length iv ≡ 16 → IsSomeSecond phase server_nr policy datagram →
        IsAnswer phase (fourth_awaited message iv ni nr spi) datagram (Ok taken) → ⊥ }
    ensures fourth_as_second { (phase : Phase1) (message iv ni datagram : List ℕ) (keyed : Keyed) (taken : Second) →
        PhaseFits phase → length iv ≡ 16 → IsSomeFourth phase keyed datagram →
        IsAnswer phase (second_awaited message iv ni) datagram (Ok taken) → ⊥ }
{
    a_written_reply_is_read();
    written_texts_are_octets();
    written_texts_have_their_size();
    written_policies_are_octets();
    written_policies_are_read();
    written_policies_have_their_size();
}

/// A message that is taken has a message id of 4 octets; its last block, under which the next message is written, has 16.
pub fn a_taken_message_has_its_sizes()
    ensures first { (phase : Phase1) (datagram : List ℕ) (taken : First) →
        IsAnswer phase (first_awaited phase) datagram (Ok taken) → (length taken.message ≡ 4) × (length taken.next_iv ≡ 16) }
    ensures third { (phase : Phase1) (message iv ni nr datagram : List ℕ) (taken : Third) →
        IsAnswer phase (third_awaited message iv ni nr) datagram (Ok taken) → (length message ≡ 4) × (length taken.next_iv ≡ 16) }
{}

/// A fourth message that is taken, whatever its datagram is, gives a path that leads up to the root, and the epoch in which the root's key was made.
pub fn a_taken_reply_is_a_path()
    ensures { (phase : Phase1) (message iv ni nr spi datagram : List ℕ) (keyed : Keyed) →
        IsAnswer phase (fourth_awaited message iv ni nr spi) datagram (Ok keyed) → IsPath keyed.path × (keyed.epoch ≡ root_made keyed.path) }
{
    a_body_has_one_of_three_forms();
}

/// A datagram has 28 octets of header, and whole blocks for its payloads. With nonces of 16 octets and a group whose name has 7 these are
/// 108, 236, 76, and 188 and 48 for each key of the path.
pub fn written_messages_have_their_size()
    ensures first { (phase : Phase1) (message iv ni group datagram : List ℕ) → PhaseFits phase → length message ≡ 4 →
        IsPullText phase iv (first_message message ni group) datagram → length datagram ≡ 28 + filled (48 + length ni + length group) }
    ensures first_of_16 { (phase : Phase1) (message iv ni group datagram : List ℕ) → PhaseFits phase → length message ≡ 4 →
        IsPullText phase iv (first_message message ni group) datagram → length ni ≡ 16 → length group ≡ 7 → length datagram ≡ 108 }
    ensures second { (phase : Phase1) (message iv ni nr datagram : List ℕ) (policy : SaPolicy) → PhaseFits phase → length message ≡ 4 →
        PoliciesFit policy → IsPullText phase iv (second_message message ni nr policy) datagram →
        length datagram ≡ 28 + filled (180 + length nr) }
    ensures second_of_16 { (phase : Phase1) (message iv ni nr datagram : List ℕ) (policy : SaPolicy) → PhaseFits phase →
        length message ≡ 4 → PoliciesFit policy → IsPullText phase iv (second_message message ni nr policy) datagram → length nr ≡ 16 →
        length datagram ≡ 236 }
    ensures third { (phase : Phase1) (message iv ni nr datagram : List ℕ) → PhaseFits phase → length message ≡ 4 →
        IsPullText phase iv (third_message message ni nr) datagram → length datagram ≡ 76 }
    ensures fourth { (phase : Phase1) (message iv ni nr datagram : List ℕ) (keyed : Keyed) → PhaseFits phase → length message ≡ 4 →
        ReplyFits keyed → IsPullText phase iv (fourth_message message ni nr keyed) datagram →
        length datagram ≡ 188 + 48 * length keyed.path }
{
    written_texts_have_their_size();
    written_policies_have_their_size();
}

/// The answer for a datagram has its cause: a fault of the header; or of the text as which its other octets are opened; or another HASH
/// than is due. Else the message is taken. A datagram is opened in one way, so two answers are the same, unless out of memory.
pub fn each_answer_has_its_cause()
    ensures first { (phase : Phase1) (datagram : List ℕ) (answer : Result First PullFault) →
        IsAnswer phase (first_awaited phase) datagram answer → HasCauses _ _ phase (first_awaited phase) datagram answer }
    ensures second { (phase : Phase1) (message iv ni datagram : List ℕ) (answer : Result Second PullFault) →
        IsAnswer phase (second_awaited message iv ni) datagram answer → HasCauses _ _ phase (second_awaited message iv ni) datagram answer }
    ensures third { (phase : Phase1) (message iv ni nr datagram : List ℕ) (answer : Result Third PullFault) →
        IsAnswer phase (third_awaited message iv ni nr) datagram answer →
        HasCauses _ _ phase (third_awaited message iv ni nr) datagram answer }
    ensures fourth { (phase : Phase1) (message iv ni nr spi datagram : List ℕ) (answer : Result Keyed PullFault) →
        IsAnswer phase (fourth_awaited message iv ni nr spi) datagram answer →
        HasCauses _ _ phase (fourth_awaited message iv ni nr spi) datagram answer }
{
    a_text_is_opened_in_one_way();
}
