//! What follows where a key server serves one request after the other.
ghost use Rattle.std.specs.Prelude.{ℕ, List};
ghost use Rattle.server_steps.specs.Laws.{BeginsNow, GoesOnSince, ReopeningsAreServed};
ghost use Rattle.server_steps.specs.Messages.{MessagesAreOfTheGroup, MessagesStay};

use gd_disk::Disk;
use gd_edges::{Draws, Signer};
use group_model::{laws_hold, replies_go_to_members};
use pull_msgs::a_taken_message_has_its_sizes;
use pull_sessions::what_is_found_can_be_held;

/// Of a key server and its history up to now: no entry was added since.
pub fn nothing_was_served_yet<D: Disk, G: Signer, R: Draws>()
    ensures { BeginsNow D.Disk G.Signer R.Draws }
{}

/// Where the entries since a moment are steps of the server, they still are with that of one more request that it served.
pub fn one_more_is_served<D: Disk, G: Signer, R: Draws>()
    ensures { GoesOnSince D.Disk G.Signer R.Draws }
{}

/// A group that was opened again was served so, where the answer shows it.
pub fn a_reopening_is_served<D: Disk, G: Signer, R: Draws>()
    ensures { ReopeningsAreServed D.Disk G.Signer R.Draws }
{}

/// Of a sound server whose sessions keep messages of its group: it goes on so, and what it sends are messages of its group.
pub fn messages_are_of_the_group<D: Disk, G: Signer>()
    ensures { (signer : G) (block : ℕ → List ℕ) → MessagesAreOfTheGroup D.Disk G.Signer signer block }
{
    laws_hold();
    replies_go_to_members();
    a_taken_message_has_its_sizes();
    what_is_found_can_be_held();
}

/// A message of a group stays one while batches come.
pub fn messages_stay()
    ensures { MessagesStay }
{
    laws_hold();
}
