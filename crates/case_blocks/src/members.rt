//! Members by numbers, each with what it sent last.

use group_terms::{GroupName, MemberName, NoMemory, Octets, Phase1};
use member_pull::{Begun, MemberPull};
use std::alloc::Global;

/// A member: its pull, and the datagram that it sent last.
#[derive(Drop)]
pub struct Member {
    pub phase: Phase1,
    pub pull: Option<MemberPull>,
    pub sent: Option<Octets>,
}

impl Member {
    /// A member that sent nothing.
    pub fn new(number: u32) -> Self {
        Member {
            phase: phase_of(number),
            pull: None,
            sent: None,
        }
    }

    /// Begins a pull, the one of this number.
    pub fn begin(&self, alloc: Global, pull: u32) -> Result<Begun, NoMemory> {
        let octets = pull.to_be_bytes();
        let message = [0x80 | octets[0], octets[1], octets[2], octets[3]];
        let mut nonce = [7; 16];
        nonce[..4].copy_from_slice(&octets);
        let group = GroupName::read(b"console").unwrap();
        MemberPull::begin(alloc, self.phase, message, nonce, &group)
    }
}

/// An SA of this number: cookies and a member of its own, and keys that all have.
fn phase_of(number: u32) -> Phase1 {
    let mut cookies = [1; 16];
    cookies[4..8].copy_from_slice(&number.to_be_bytes());
    Phase1 {
        member: name_of(number),
        cookies,
        skeyid_a: [2; 32],
        key: [3; 16],
        last: [4; 16],
    }
}

/// A name for a number: its digits to the base 16, as letters.
pub fn name_of(number: u32) -> MemberName {
    let mut text = [b'a'; 8];
    let mut left = number;
    for octet in text.iter_mut() {
        *octet = b'a' + (left % 16) as u8;
        left /= 16;
    }
    MemberName::read(&text).unwrap_or_default()
}
