//! What the HASH of a message is.
ghost use Rattle.std.specs.Prelude.{◌≡◌, ◌++◌, Ok, Err, if◌then◌else◌};
ghost use Rattle.std.specs.Str.{bytes_eq};
ghost use Rattle.pull_msgs.specs.Hashes.{hash_of};
ghost use Rattle.pull_msgs.specs.declared.faults.PullFault.TheVariants.{BadHash};

use crate::faults::PullFault;
use gd_cipher::Hmac;
use group_terms::Phase1;

/// The HASH of a message with this id, after these nonces, and with these payloads after it (RFC 6407 section 3.2).
pub(crate) fn hash_of(
    phase: &Phase1,
    message: &[u8; 4],
    ni: &[u8],
    nr: &[u8],
    payloads: &[u8],
) -> [u8; 32]
    ensures { result ≡ hash_of phase.now message.now (ni.now ++ nr.now) payloads.now }
{
    let mut hash = Hmac::new(&phase.skeyid_a);
    hash.add(message);
    hash.add(ni);
    hash.add(nr);
    hash.add(payloads);
    hash.finish()
}

/// Finds that a message carries the HASH that is due; else `BadHash`.
pub(crate) fn due_hash(carried: [u8; 32], expected: [u8; 32]) -> Result<(), PullFault>
    ensures { result ≡ (if bytes_eq carried expected then Ok tt else Err (BadHash carried expected)) }
{
    if carried != expected {
        return Err(PullFault::BadHash { carried, expected });
    }
    Ok(())
}
