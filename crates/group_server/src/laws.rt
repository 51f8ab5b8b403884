//! What a key server may not refuse: it follows from its steps.
ghost use Rattle.std.specs.Prelude.{ℕ, List};
ghost use Rattle.group_server.specs.Complete.{BatchIsMade, FirstIsAnswered, LeaveIsGranted, ReopeningIsMade, ThirdIsAnswered};

use gd_disk::Disk;
use gd_edges::Signer;

/// What a server may not refuse, and where only memory or the disk may fail.
pub fn a_server_may_not_refuse<D: Disk, G: Signer>()
    ensures first { (signer : G) (block : ℕ → List ℕ) → FirstIsAnswered D.Disk G.Signer signer block }
    ensures third { (signer : G) (block : ℕ → List ℕ) → ThirdIsAnswered D.Disk G.Signer signer block }
    ensures leave { (signer : G) (block : ℕ → List ℕ) → LeaveIsGranted D.Disk G.Signer signer block }
    ensures batch { (signer : G) (block : ℕ → List ℕ) → BatchIsMade D.Disk G.Signer signer block }
    ensures reopening { (signer : G) (block : ℕ → List ℕ) → ReopeningIsMade D.Disk G.Signer signer block }
{}
