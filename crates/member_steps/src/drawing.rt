//! What is drawn for members: their phase 1 SAs, and the message ids and nonces of their pulls.
ghost use Rattle.std.specs.Prelude.{◌≡◌, ℕ};
ghost use Rattle.group_terms.specs.Octets.{AreOctets};
ghost use Rattle.group_values.specs.Drawing.{next_place, place_after};
ghost use Rattle.member_steps.specs.Drawn.{message_drawn, phase_drawn};
ghost use Rattle.pull_msgs.specs.Fits.{MessageFits, NonceFits, PhaseFits};

use gd_edges::Draws;
use group_model::{MemberName, Phase1};
use group_values::{joined, number_of};
use pull_msgs::prove_phase_fits;

/// Draws the phase 1 SA of a member.
pub(crate) fn draw_phase<P: Draws>(draws: &mut P, member: &MemberName) -> Phase1
    ensures phase { result ≡ phase_drawn (P.block_at draws.old) (P.place_of draws.old) member.now }
    ensures fits { PhaseFits result }
    ensures place { P.place_of draws.new ≡ place_after 5 (P.place_of draws.old) }
    ensures blocks { (k : ℕ) → P.block_at draws.new k ≡ P.block_at draws.old k }
{
    let phase = Phase1 {
        member: *member,
        cookies: draws.draw(),
        skeyid_a: joined(&draws.draw(), &draws.draw()),
        key: draws.draw(),
        last: draws.draw(),
    };
    prove_phase_fits(&phase);
    phase
}

/// Draws the message id of a pull.
pub(crate) fn draw_message<P: Draws>(draws: &mut P) -> [u8; 4]
    ensures message { result ≡ message_drawn (P.block_at draws.old) (P.place_of draws.old) }
    ensures fits { MessageFits result }
    ensures place { P.place_of draws.new ≡ next_place (P.place_of draws.old) }
    ensures blocks { (k : ℕ) → P.block_at draws.new k ≡ P.block_at draws.old k }
{
    let message = number_of(&draws.draw());
    prove_are_octets(&message);
    message
}

/// Draws the nonce of a pull.
pub(crate) fn draw_nonce<P: Draws>(draws: &mut P) -> [u8; 16]
    ensures nonce { result ≡ P.block_at draws.old (P.place_of draws.old) }
    ensures fits { NonceFits result }
    ensures place { P.place_of draws.new ≡ next_place (P.place_of draws.old) }
    ensures blocks { (k : ℕ) → P.block_at draws.new k ≡ P.block_at draws.old k }
{
    let nonce = draws.draw();
    prove_are_octets(&nonce);
    nonce
}

/// A slice of octets has octets.
fn prove_are_octets(octets: &[u8])
    ensures { AreOctets octets.now }
{}
