//! A member's pull, message after message.
ghost use Rattle.std.specs.Prelude.{IfOk};
ghost use Rattle.member_pull.specs.Pulls.{IsBegun, IsSecond, IsFourth};

use crate::refusals::PullRefusal;
use group_terms::{GroupName, Keyed, NoMemory, Octets, Phase1};
use pull_msgs::{
    Nonce, next_iv, prove_phase_fits, read_fourth, read_second, write_first, write_third,
    written_messages_have_their_size,
};
use std::alloc::Global;
use std::fmt;
use std::marker::Model;

/// A pull that is under way (RFC 6407 section 3.2).
#[derive(Drop)]
pub struct MemberPull {
    phase: Phase1,
    message: [u8; 4],
    ni: Nonce,
    step: Step,
}

impl fmt::Debug for MemberPull {
    ghost use Rattle.std.specs.Prelude.{Some, codes};

    ghost debug_output = { λ _. Some (codes "MemberPull { .. }") };

    fn fmt<W: fmt::Write>(&self, f: &mut fmt::Formatter<W>) -> fmt::Result {
        f.write_str("MemberPull { .. }")
    }
}

/// What a pull waits for. An IV is the last block of the message before it.
#[derive(Drop)]
pub enum Step {
    /// The server's answer to the first message.
    Second {
        iv: [u8; 16],
    },
    /// The server's keys, for the Rekey SA with this SPI.
    Fourth {
        iv: [u8; 16],
        nr: Nonce,
        spi: [u8; 16],
    },
    /// Nothing more: the member has its keys.
    Ended,
}

impl Model for MemberPull {
    ghost use Rattle.member_pull.specs.Views.{Pull};

    ghost Value = { Pull };

    ghost view = { λ pull. record { phase = pull.phase; message = pull.message; ni = pull.ni; step = pull.step } };
}

/// A pull that began, and its first message.
#[derive(Drop)]
pub struct Begun {
    pub pull: MemberPull,
    pub datagram: Octets,
}

impl MemberPull {
    /// Begins a pull for a group under a phase 1 SA, with a message id and a nonce of 16 octets. The message id zero is that of phase 1: no
    /// server takes a message with it.
    pub fn begin(
        alloc: Global,
        phase: Phase1,
        message: [u8; 4],
        ni: [u8; 16],
        group: &GroupName,
    ) -> Result<Begun, NoMemory>
        ensures { IfOk result (λ begun. IsBegun phase message ni group.now begun.pull begun.datagram) }
    {
        prove_phase_fits(&phase);
        written_messages_have_their_size();
        let ni = Nonce::read(&ni).unwrap();
        let datagram = write_first(alloc, &phase, &message, &ni, group)?;
        let iv = next_iv(datagram.as_slice());
        let pull = MemberPull {
            phase,
            message,
            ni,
            step: Step::Second { iv },
        };
        Ok(Begun { pull, datagram })
    }

    /// Takes the server's answer; gives the third message.
    ///
    /// `WrongStep` where the pull does not wait for it; `Malformed` and `BadHash` as its reader says.
    pub fn second(&mut self, alloc: Global, datagram: &[u8]) -> Result<Octets, PullRefusal>
        ensures { IsSecond self.old datagram.now result self.new }
    {
        prove_phase_fits(&self.phase);
        written_messages_have_their_size();
        let iv = match &self.step {
            Step::Second { iv } => *iv,
            _ => return Err(PullRefusal::WrongStep),
        };
        let second = read_second(alloc, datagram, &self.phase, &self.message, &iv, &self.ni)?;
        let iv = second.next_iv;
        let third = write_third(alloc, &self.phase, &self.message, &iv, &self.ni, &second.nr)?;
        let spi = second.policy.kek.unwrap().spi;
        self.step = Step::Fourth {
            iv: next_iv(third.as_slice()),
            nr: second.nr,
            spi,
        };
        Ok(third)
    }

    /// Takes the server's keys; the pull ends.
    ///
    /// `WrongStep` where the pull does not wait for them; `Malformed` and `BadHash` as their reader says.
    pub fn fourth(&mut self, alloc: Global, datagram: &[u8]) -> Result<Keyed, PullRefusal>
        ensures { IsFourth self.old datagram.now result self.new }
    {
        let keyed = match &self.step {
            Step::Fourth { iv, nr, spi } => {
                let (phase, message, ni) = (&self.phase, &self.message, &self.ni);
                read_fourth(alloc, datagram, phase, message, iv, ni, nr, spi)?
            }
            _ => return Err(PullRefusal::WrongStep),
        };
        self.step = Step::Ended;
        Ok(keyed)
    }
}
