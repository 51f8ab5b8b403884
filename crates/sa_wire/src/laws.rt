//! Policies that are written are read again.
ghost use Rattle.std.specs.Prelude.{◌≡◌, ℕ, List, length, Ok};
ghost use Rattle.group_terms.specs.Octets.{AreOctets};
ghost use Rattle.sa_wire.specs.declared.policies.SaPolicy.{SaPolicy};
ghost use Rattle.sa_wire.specs.Policies.{sa};
ghost use Rattle.sa_wire.specs.Texts.{sa_text, sa_size, PolicyFits};

use gd_wire::written_framing_is_octets;

/// The body that is written for some policies is read as these.
pub fn written_policies_are_read()
    ensures { (policy : SaPolicy) (base : ℕ) → PolicyFits policy → sa base (sa_text policy) ≡ Ok policy }
{}

/// That body has 12 octets before its payloads, and 73 for a KEK and 51 for a TEK with their headers.
pub fn written_policies_have_their_size()
    ensures { (policy : SaPolicy) → PolicyFits policy → length (sa_text policy) ≡ sa_size policy }
{}

/// That body is octets.
pub fn written_policies_are_octets()
    ensures { (policy : SaPolicy) → PolicyFits policy → AreOctets (sa_text policy) }
{
    written_framing_is_octets();
}
