//! The attributes of a policy: which ones there are, and what is taken of each.
ghost use Rattle.std.specs.Prelude.{◌≡◌};
ghost use Rattle.sa_wire.specs.Rules.{only, between, any, any_form, kek_rules, tek_rules};

use crate::numbers::{
    AES, AUTHENTICATION_ALGORITHM, ENCAPSULATION_MODE, HMAC_SHA_256, KEK_ALGORITHM, KEK_KEY_LENGTH,
    KEK_LIFETIME, KEY_BITS, LIFE_DURATION, LIFE_TYPE, LKH, MANAGEMENT_ALGORITHM, SECONDS, SHA_256,
    SIGNATURE_ALGORITHM, SIGNATURE_HASH, SIGNATURE_KEY_LENGTH, TEK_KEY_LENGTH, TRANSPORT, TUNNEL,
};

/// How many attributes a policy has at the most.
pub(crate) const MOST_RULES: usize = 7;

/// What is taken of an attribute: in the short form the numbers from `least` to `most`.
#[derive(Clone, Copy, Default)]
pub(crate) struct Rule {
    pub kind: u16,
    pub least: u16,
    pub most: u16,
    /// Whether a long form of 4 octets is taken too, with any value.
    pub long: bool,
}

/// The attributes of the KEK.
pub(crate) fn kek_rules() -> [Rule; 7]
    ensures { result ≡ kek_rules }
{
    [
        only(MANAGEMENT_ALGORITHM, LKH),
        only(KEK_ALGORITHM, AES),
        only(KEK_KEY_LENGTH, KEY_BITS),
        any_form(KEK_LIFETIME),
        only(SIGNATURE_HASH, SHA_256),
        any(SIGNATURE_ALGORITHM),
        any(SIGNATURE_KEY_LENGTH),
    ]
}

/// The attributes of the TEK.
pub(crate) fn tek_rules() -> [Rule; 5]
    ensures { result ≡ tek_rules }
{
    [
        only(LIFE_TYPE, SECONDS),
        any_form(LIFE_DURATION),
        between(ENCAPSULATION_MODE, TUNNEL, TRANSPORT),
        only(AUTHENTICATION_ALGORITHM, HMAC_SHA_256),
        only(TEK_KEY_LENGTH, KEY_BITS),
    ]
}

fn only(kind: u16, number: u16) -> Rule
    ensures { result ≡ only kind number }
{
    between(kind, number, number)
}

fn between(kind: u16, least: u16, most: u16) -> Rule
    ensures { result ≡ between kind least most }
{
    Rule {
        kind,
        least,
        most,
        long: false,
    }
}

fn any(kind: u16) -> Rule
    ensures { result ≡ any kind }
{
    between(kind, 0, u16::MAX)
}

fn any_form(kind: u16) -> Rule
    ensures { result ≡ any_form kind }
{
    Rule {
        long: true,
        ..any(kind)
    }
}
