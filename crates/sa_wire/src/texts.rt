//! The text of policies.
ghost use Rattle.std.specs.Prelude.{◌≡◌, ◌++◌, ◌∷◌, ◌⊎◌, ◌≤◌, length, take, OnOk, OnErr, IsSome};
ghost use Rattle.byteorder.specs.Endian.{big_bytes};
ghost use Rattle.gd_wire.specs.Attributes.{long_text};
ghost use Rattle.gd_wire.specs.Chains.{payload_text};
ghost use Rattle.sa_wire.specs.Texts.{sa_text, head_text, address_text, ids_text, kek_text, tek_text, cipher_attributes};
ghost use Rattle.sa_wire.specs.Texts.{signature_attributes, mode_attributes, transform_attributes, sa_size};

use crate::numbers::{
    AES, AUTHENTICATION_ALGORITHM, ENCAPSULATION_MODE, ESP, ESP_AES, HMAC_SHA_256, KEK_ALGORITHM,
    KEK_KEY_LENGTH, KEK_LIFETIME, KEY_BITS, LIFE_DURATION, LIFE_TYPE, LKH, MANAGEMENT_ALGORITHM,
    SAK, SAT, SECONDS, SHA_256, SIGNATURE_ALGORITHM, SIGNATURE_HASH, SIGNATURE_KEY_LENGTH,
    TEK_KEY_LENGTH, TUNNEL,
};
use crate::{KekPolicy, SaPolicy, SignKind, TekPolicy};
use gd_wire::{write_long, write_short};
use group_terms::{NoMemory, Octets};

/// The sizes of what comes before the payloads, and of these with their headers.
const HEAD_SIZE: usize = 12;

const SAK_SIZE: u8 = 73;

const SAT_SIZE: u8 = 51;

/// The source of datagrams and their destination, a group's address: documentation addresses of IPv4, over UDP.
const ID_IPV4_ADDR: u8 = 1;

const SOURCE: [u8; 4] = [192, 0, 2, 1];

const DESTINATION: [u8; 4] = [233, 252, 0, 1];

const UDP: u8 = 17;

const REKEY_PORT: u16 = 848;

/// Lifetimes in seconds.
const KEK_SECONDS: u32 = 86_400;

const TEK_SECONDS: u32 = 3_600;

/// How many octets the body of an SA payload with these policies has.
pub fn sa_size(policy: &SaPolicy) -> usize
    ensures { result ≡ sa_size policy.now }
{
    let kek = policy.kek.map_or(0, |_| usize::from(SAK_SIZE));
    let tek = policy.tek.map_or(0, |_| usize::from(SAT_SIZE));
    HEAD_SIZE + kek + tek
}

/// Appends the body of an SA payload with these policies, of which one at least is there.
pub fn write_sa(policy: &SaPolicy, out: &mut Octets) -> Result<(), NoMemory>
    requires { IsSome policy.now.kek ⊎ IsSome policy.now.tek }
    ensures ok { OnOk result (out.new ≡ out.old ++ sa_text policy.now) }
    ensures err { OnErr result (out.new ≡ out.old) }
{
    let before = out.len();
    let appended = append_sa(policy, out);
    out.keep_or_truncate(before, appended)
}

/// Appends that body; out of memory, maybe only a part of it.
fn append_sa(policy: &SaPolicy, out: &mut Octets) -> Result<(), NoMemory>
    requires { IsSome policy.now.kek ⊎ IsSome policy.now.tek }
    ensures ok { OnOk result (out.new ≡ out.old ++ sa_text policy.now) }
    ensures err { OnErr result (take (length out.old) out.new ≡ out.old) }
{
    match (&policy.kek, &policy.tek) {
        (Some(kek), Some(tek)) => {
            append_head(SAK, out)?;
            append_sak(kek, SAT, out)?;
            append_sat(tek, out)
        }
        (Some(kek), None) => {
            append_head(SAK, out)?;
            append_sak(kek, 0, out)
        }
        (None, Some(tek)) => {
            append_head(SAT, out)?;
            append_sat(tek, out)
        }
        (None, None) => Ok(()),
    }
}

/// Appends what comes before the first payload, and names the kind of that.
fn append_head(first: u8, out: &mut Octets) -> Result<(), NoMemory>
    ensures ok { OnOk result (out.new ≡ out.old ++ head_text first) }
    ensures err { OnErr result (out.new ≡ out.old) }
{
    out.extend(&[0, 0, 0, 2, 0, 0, 0, 0, 0, first, 0, 0])
}

/// Appends the payload for the KEK, after which one of this kind comes, or none for 0.
fn append_sak(kek: &KekPolicy, next: u8, out: &mut Octets) -> Result<(), NoMemory>
    ensures ok { OnOk result (out.new ≡ out.old ++ payload_text next (kek_text kek.now)) }
    ensures err { OnErr result (take (length out.old) out.new ≡ out.old) }
{
    out.extend(&[next, 0, 0, SAK_SIZE, UDP])?;
    append_ids(REKEY_PORT, out)?;
    out.extend(&kek.spi)?;
    out.extend(&[0; 4])?;
    append_cipher_attributes(out)?;
    append_signature_attributes(&kek.sign, out)
}

/// Appends the payload for the TEK, the last one.
fn append_sat(tek: &TekPolicy, out: &mut Octets) -> Result<(), NoMemory>
    ensures ok { OnOk result (out.new ≡ out.old ++ payload_text 0 (tek_text tek.now)) }
    ensures err { OnErr result (take (length out.old) out.new ≡ out.old) }
{
    out.extend(&[0, 0, 0, SAT_SIZE, ESP, UDP])?;
    append_ids(0, out)?;
    out.extend(&[ESP_AES])?;
    out.extend(&tek.spi)?;
    append_mode_attributes(out)?;
    append_transform_attributes(out)
}

/// Appends the identifications of the source and the destination, with this port.
fn append_ids(port: u16, out: &mut Octets) -> Result<(), NoMemory>
    ensures ok { OnOk result (out.new ≡ out.old ++ ids_text port) }
    ensures err { OnErr result (take (length out.old) out.new ≡ out.old) }
{
    append_id(port, &SOURCE, out)?;
    append_id(port, &DESTINATION, out)
}

/// Appends an identification by an address.
fn append_id(port: u16, address: &[u8; 4], out: &mut Octets) -> Result<(), NoMemory>
    ensures ok { OnOk result (out.new ≡ out.old ++ address_text port address.now) }
    ensures err { OnErr result (take (length out.old) out.new ≡ out.old) }
{
    let [high, low] = port.to_be_bytes();
    out.extend(&[ID_IPV4_ADDR, high, low, 4])?;
    out.extend(address)
}

/// Appends the attributes of how keys are encrypted.
fn append_cipher_attributes(out: &mut Octets) -> Result<(), NoMemory>
    ensures ok { OnOk result (out.new ≡ out.old ++ cipher_attributes) }
    ensures err { OnErr result (take (length out.old) out.new ≡ out.old) }
{
    write_short(MANAGEMENT_ALGORITHM, LKH, out)?;
    write_short(KEK_ALGORITHM, AES, out)?;
    write_short(KEK_KEY_LENGTH, KEY_BITS, out)?;
    write_duration(KEK_LIFETIME, KEK_SECONDS, out)?;
    Ok(())
}

/// Appends the attributes of how signatures are made.
fn append_signature_attributes(sign: &SignKind, out: &mut Octets) -> Result<(), NoMemory>
    ensures ok { OnOk result (out.new ≡ out.old ++ signature_attributes sign.now) }
    ensures err { OnErr result (take (length out.old) out.new ≡ out.old) }
{
    write_short(SIGNATURE_HASH, SHA_256, out)?;
    write_short(SIGNATURE_ALGORITHM, sign.algorithm, out)?;
    write_short(SIGNATURE_KEY_LENGTH, sign.key_bits, out)?;
    Ok(())
}

/// Appends the attributes of how long and how traffic is encapsulated.
fn append_mode_attributes(out: &mut Octets) -> Result<(), NoMemory>
    ensures ok { OnOk result (out.new ≡ out.old ++ mode_attributes) }
    ensures err { OnErr result (take (length out.old) out.new ≡ out.old) }
{
    write_short(LIFE_TYPE, SECONDS, out)?;
    write_duration(LIFE_DURATION, TEK_SECONDS, out)?;
    write_short(ENCAPSULATION_MODE, TUNNEL, out)?;
    Ok(())
}

/// Appends the attributes of how traffic is authenticated and encrypted.
fn append_transform_attributes(out: &mut Octets) -> Result<(), NoMemory>
    ensures ok { OnOk result (out.new ≡ out.old ++ transform_attributes) }
    ensures err { OnErr result (take (length out.old) out.new ≡ out.old) }
{
    write_short(AUTHENTICATION_ALGORITHM, HMAC_SHA_256, out)?;
    write_short(TEK_KEY_LENGTH, KEY_BITS, out)?;
    Ok(())
}

/// Appends an attribute with a duration in seconds, in the long form.
fn write_duration(kind: u16, seconds: u32, out: &mut Octets) -> Result<(), NoMemory>
    requires { kind ≤ 32767 }
    ensures ok { OnOk result (out.new ≡ out.old ++ long_text kind (big_bytes 4 seconds)) }
    ensures err { OnErr result (out.new ≡ out.old) }
{
    write_long(kind, &seconds.to_be_bytes(), out)
}
