//! What members answer.
ghost use Rattle.std.specs.Prelude.{◌≡◌, Some};
ghost use Rattle.member_steps.specs.Keys.{key_of, print_of};
ghost use Rattle.member_steps.specs.Private.Given.{answer_if};

use group_model::Answer;
use group_terms::PushRefusal;
use member_store::{MemberStore, Taken, TrafficValue};
use sha2::{Digest, Sha256};

/// What is answered where a store answers so, if there is one.
pub(crate) fn answer_if(given: Option<Result<Taken, PushRefusal>>) -> Answer
    ensures { result ≡ answer_if given }
{
    match given {
        Some(Ok(Taken::Root { epoch })) => Answer::TookRoot { epoch },
        Some(Ok(Taken::Traffic { epoch })) => Answer::TookTraffic { epoch },
        Some(Err(why)) => Answer::PushRefused { why },
        None => Answer::Nothing,
    }
}

/// Which traffic key a store has.
pub(crate) fn key_of(store: &MemberStore) -> Answer
    ensures { result ≡ key_of (Some store.now) }
{
    Answer::KeyIs {
        epoch: store.traffic_epoch(),
        sequence: store.last_sequence(),
        print: print_of(&store.traffic_key()),
    }
}

/// The fingerprint of a traffic key: the first 8 octets of the SHA-256 of its two keys.
fn print_of(traffic: &TrafficValue) -> [u8; 8]
    ensures { result ≡ print_of traffic.now }
{
    let mut hash = Sha256::new();
    hash.update(&traffic.cipher_key);
    hash.update(&traffic.integrity_key);
    let hash = hash.finalize();
    let mut print = [0; 8];
    print.copy_from_slice(&hash[..8]);
    print
}
