//! That values fit what is written of them, as their types say.
ghost use Rattle.std.specs.Prelude.{IsSome};
ghost use Rattle.pull_msgs.specs.Fits.{NonceFits, PhaseFits, PoliciesFit};
ghost use Rattle.sa_wire.specs.Texts.{KekPolicyFits, TekPolicyFits};

use crate::Nonce;
use gd_wire::{prove_are_octets, prove_has_two_octets};
use group_terms::Phase1;
use sa_wire::{KekPolicy, SaPolicy, TekPolicy};

/// The cookies and the key fit.
pub fn prove_phase_fits(phase: &Phase1)
    ensures { PhaseFits phase.now }
{
    prove_are_octets(&phase.cookies);
    prove_are_octets(&phase.key);
}

/// A nonce has 8 to 128 octets.
pub fn prove_nonce_fits(nonce: &Nonce)
    ensures { NonceFits nonce.now }
{
    prove_are_octets(nonce.octets());
}

fn prove_kek_policy_fits(kek: &KekPolicy)
    ensures { KekPolicyFits kek.now }
{
    prove_are_octets(&kek.spi);
    prove_has_two_octets(kek.sign.algorithm);
    prove_has_two_octets(kek.sign.key_bits);
}

fn prove_tek_policy_fits(tek: &TekPolicy)
    ensures { TekPolicyFits tek.now }
{
    prove_are_octets(&tek.spi);
}

/// Both policies fit.
pub fn prove_policies_fit(policy: &SaPolicy)
    requires kek { IsSome policy.now.kek }
    requires tek { IsSome policy.now.tek }
    ensures { PoliciesFit policy.now }
{
    if let (Some(kek), Some(tek)) = (&policy.kek, &policy.tek) {
        prove_kek_policy_fits(kek);
        prove_tek_policy_fits(tek);
    }
}
