//! What follows of the steps of a run.
ghost use Rattle.std.specs.Prelude.{ℕ, List};
ghost use Rattle.group_steps.specs.Counts.{DisksStayHonest, FaultsAreCounted};
ghost use Rattle.group_steps.specs.Crashes.{CrashesLeaveMoments, OpenedHaveJournals};
ghost use Rattle.group_steps.specs.Devices.{Keying, devices};
ghost use Rattle.group_steps.specs.Kinds.{EachStepIsOfAKind};
ghost use Rattle.group_steps.specs.Laws.{LeavesValidList};
ghost use Rattle.group_steps.specs.Moments.{MomentsEndHistories};
ghost use Rattle.group_steps.specs.Mails.{MailIsOfTheGroup, MembersAreAnswered, RepliesAreMessages, SessionsKeepMessages};
ghost use Rattle.group_steps.specs.Served.{ServedAreRunSteps, ServedCountFaults, ServedReachMembers};
ghost use Rattle.group_steps.specs.ServedCrashes.{CrashesLeaveServed};
ghost use Rattle.group_steps.specs.TrueSteps.{SureStepsAreTrue, TrueStepsGrow};

use gd_disk::Disk;
use gd_edges::{Signer, Verifier};
use group_model::laws_hold;
use server_steps::{messages_are_of_the_group, messages_stay};

/// The batches that a history leaves are a valid list, whatever its openings found.
pub fn a_history_leaves_a_valid_list<D: Disk, G: Signer, V: Verifier>()
    ensures valid { (verifier : V) (by : Keying G) → LeavesValidList (devices D.Disk G.Signer V.Verifier verifier) by }
{
    laws_hold();
    messages_are_of_the_group::<D, G>();
}

/// The disk counts at least one fault for each entry that notes one, as far as its count goes, and none where no entry does. It stays as
/// honest as it was, and exposes its octets as before.
pub fn faults_are_counted<D: Disk, G: Signer, V: Verifier>()
    ensures counted { (verifier : V) (by : Keying G) → FaultsAreCounted (devices D.Disk G.Signer V.Verifier verifier) by }
    ensures honest { (verifier : V) (by : Keying G) → DisksStayHonest (devices D.Disk G.Signer V.Verifier verifier) by }
{}

/// A group that was opened has a journal. Where its disk is honest and exposes its octets, a crash at any moment of what follows leaves the
/// journal of that group with the batches of that moment, and no batch that was stored before is lost.
pub fn a_crash_leaves_a_moment_of_the_history<D: Disk, G: Signer, V: Verifier>()
    ensures opened { (verifier : V) (by : Keying G) → OpenedHaveJournals (devices D.Disk G.Signer V.Verifier verifier) by }
    ensures crashes { (verifier : V) (by : Keying G) → CrashesLeaveMoments (devices D.Disk G.Signer V.Verifier verifier) by }
{}

/// Each step after the first request stores a batch, opens the group again, or leaves the group as it is but for what waits.
pub fn each_step_is_of_a_kind<D: Disk, G: Signer, V: Verifier>()
    ensures { (verifier : V) (by : Keying G) → EachStepIsOfAKind (devices D.Disk G.Signer V.Verifier verifier) by }
{
    laws_hold();
}

/// Each moment of a history is the end of one. So what holds after each history holds at each moment.
pub fn each_moment_ends_a_history<D: Disk, G: Signer, V: Verifier>()
    ensures { (verifier : V) (by : Keying G) → MomentsEndHistories (devices D.Disk G.Signer V.Verifier verifier) by }
{}

/// From an opening on a group grows by what is sent and told, as long as each later opening found the group that there was. So it is where the
/// disk is honest and exposes its octets, or nothing was opened again.
pub fn a_group_grows_by_what_is_sent<D: Disk, G: Signer, V: Verifier>()
    ensures grows { (verifier : V) (by : Keying G) → TrueStepsGrow (devices D.Disk G.Signer V.Verifier verifier) by }
    ensures sure { (verifier : V) (by : Keying G) → SureStepsAreTrue (devices D.Disk G.Signer V.Verifier verifier) by }
{
    laws_hold();
    messages_are_of_the_group::<D, G>();
}

/// The steps of a server are steps of a run, whatever came before and whoever its members are: they get what they are told. The disk counts a
/// fault for each that notes one.
pub fn what_is_served_are_steps_of_a_run<D: Disk, G: Signer, V: Verifier>()
    ensures members { (signer : G) (block : ℕ → List ℕ) → ServedReachMembers D.Disk G.Signer signer block }
    ensures steps { (verifier : V) (by : Keying G) → ServedAreRunSteps (devices D.Disk G.Signer V.Verifier verifier) by }
    ensures faults { (signer : G) (block : ℕ → List ℕ) → ServedCountFaults D.Disk G.Signer signer block }
{}

/// Of the steps of a server, pulls included, whoever its members are: where the disk is honest and exposes its octets, a crash at any moment
/// leaves the journal of the group after some of the steps, or with the batch that is being written, and no batch that was stored before is
/// lost.
pub fn a_crash_leaves_a_moment_of_what_was_served<D: Disk, G: Signer>()
    ensures { (signer : G) (block : ℕ → List ℕ) → CrashesLeaveServed D.Disk G.Signer signer block }
{}

/// After each history each datagram that is on its way to a member is a message to it; so is what its session keeps, what its own datagrams are
/// answered by, and each reply of a batch. Sessions keep what was sent, and a batch replies to those whose joins waited.
pub fn mail_is_of_the_group<D: Disk, G: Signer, V: Verifier>()
    ensures mail { (verifier : V) (by : Keying G) → MailIsOfTheGroup (devices D.Disk G.Signer V.Verifier verifier) by }
    ensures kept { (verifier : V) (by : Keying G) → SessionsKeepMessages (devices D.Disk G.Signer V.Verifier verifier) by }
    ensures answers { (verifier : V) (by : Keying G) → MembersAreAnswered (devices D.Disk G.Signer V.Verifier verifier) by }
    ensures replies { (verifier : V) (by : Keying G) → RepliesAreMessages (devices D.Disk G.Signer V.Verifier verifier) by }
{
    laws_hold();
    messages_are_of_the_group::<D, G>();
    messages_stay();
}
