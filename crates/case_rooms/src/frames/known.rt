//! What is known before a datagram is read.

use case_lines::array;
use group_terms::{MemberName, NodeValue, Phase1};
use pull_msgs::Nonce;

/// SPI and key of the Rekey SA, the phase 1 SA, and of the pull the message id, the IV of the message that is read, and the nonces of the member and of the
/// server.
#[derive(Clone, Copy)]
pub struct Known {
    pub spi: [u8; 16],
    pub kek: NodeValue,
    pub phase: Phase1,
    pub message: [u8; 4],
    pub iv: [u8; 16],
    pub ni: Nonce,
    pub nr: Nonce,
}

impl Known {
    /// What these words say is known. Nonces have 16 octets. A word that is no octets stands for zeros.
    pub fn read(words: &[&str]) -> Option<Self> {
        let [
            spi,
            kek_iv,
            kek,
            cookies,
            skeyid_a,
            key,
            last,
            message,
            iv,
            ni,
            nr,
        ] = words
        else {
            return None;
        };
        Some(Known {
            spi: octets_of(spi),
            kek: NodeValue {
                iv: octets_of(kek_iv),
                key: octets_of(kek),
            },
            phase: Phase1 {
                member: MemberName::default(),
                cookies: octets_of(cookies),
                skeyid_a: octets_of(skeyid_a),
                key: octets_of(key),
                last: octets_of(last),
            },
            message: octets_of(message),
            iv: octets_of(iv),
            ni: nonce_of(ni)?,
            nr: nonce_of(nr)?,
        })
    }
}

fn octets_of<const N: usize>(word: &str) -> [u8; N] {
    array(word).unwrap_or([0; N])
}

fn nonce_of(word: &str) -> Option<Nonce> {
    Nonce::read(&octets_of::<16>(word))
}
