//! What follows of the steps of a run for stores.
ghost use Rattle.group_steps.specs.Devices.{Keying, devices};
ghost use Rattle.law_store_steps.specs.Follow.{MembershipPushesAreTaken, OpenedGroupsHaveKeys, OthersAreRefused, RepliesAreKept};
ghost use Rattle.law_store_steps.specs.Follow.{StoresAreOfTheGroup, TrafficPushesAreTaken};
ghost use Rattle.law_store_steps.specs.Fourths.{OwnFourthsAreTaken};

use gd_disk::Disk;
use gd_edges::{Signer, Verifier};
use group_model::first_epochs_stay;
use group_steps::{
    a_history_leaves_a_valid_list, each_moment_ends_a_history, each_step_is_of_a_kind,
    mail_is_of_the_group,
};
use law_member_roots::{
    a_due_push_is_taken, a_later_reply_is_not_older, a_member_that_left_finds_no_path,
    a_push_under_another_root_is_malformed, a_repeated_push_is_stale, a_reply_can_be_written,
    a_reply_is_at_its_root, a_sent_push_leaves_a_store_of_its_group,
    a_store_at_a_root_has_its_epoch,
};
use member_pull::{
    a_pull_always_fits, a_pull_gives_the_keys, a_pull_takes_messages_as_they_were_written,
};

/// A group that was made or found has keys.
pub fn an_opened_group_has_keys<D: Disk, G: Signer, V: Verifier>()
    ensures { (verifier : V) (by : Keying G) → OpenedGroupsHaveKeys (devices D.Disk G.Signer V.Verifier verifier) by }
{
    a_history_leaves_a_valid_list::<D, G, V>();
    each_step_is_of_a_kind::<D, G, V>();
}

/// After a history that reads true each store is one of the group, where keys are apart.
pub fn each_store_is_one_of_the_group<D: Disk, G: Signer, V: Verifier>()
    ensures { (verifier : V) (by : Keying G) → StoresAreOfTheGroup (devices D.Disk G.Signer V.Verifier verifier) by }
{
    an_opened_group_has_keys::<D, G, V>();
    each_step_is_of_a_kind::<D, G, V>();
    each_moment_ends_a_history::<D, G, V>();
    mail_is_of_the_group::<D, G, V>();
    a_pull_always_fits();
    a_pull_takes_messages_as_they_were_written();
    a_reply_can_be_written();
    a_reply_is_at_its_root();
    a_store_at_a_root_has_its_epoch();
    a_sent_push_leaves_a_store_of_its_group::<G, V>();
}

/// After a history a member keeps what it is told, if it has no store yet or one of the group, unless that is older than what its store has, which is at the
/// root of a later epoch then.
pub fn a_reply_is_kept_in_a_history<D: Disk, G: Signer, V: Verifier>()
    ensures { (verifier : V) (by : Keying G) → RepliesAreKept (devices D.Disk G.Signer V.Verifier verifier) by }
{
    an_opened_group_has_keys::<D, G, V>();
    mail_is_of_the_group::<D, G, V>();
    a_pull_always_fits();
    a_pull_takes_messages_as_they_were_written();
    a_reply_can_be_written();
    a_reply_is_at_its_root();
    a_later_reply_is_not_older();
}

/// After a history a member does not ignore the fourth message that its session keeps, where its pull is in step with that session, but can keep it, and
/// keeps the keys that it tells, if the member has no store yet or one of the group, unless they are older than those of the store, whose root is of a later
/// epoch then; or the datagram goes missing, and the one after it comes.
pub fn an_own_fourth_message_is_taken_in_a_history<D: Disk, G: Signer, V: Verifier>()
    ensures { (verifier : V) (by : Keying G) → OwnFourthsAreTaken (devices D.Disk G.Signer V.Verifier verifier) by }
{
    an_opened_group_has_keys::<D, G, V>();
    mail_is_of_the_group::<D, G, V>();
    a_pull_always_fits();
    a_pull_gives_the_keys();
    a_pull_takes_messages_as_they_were_written();
    a_reply_can_be_written();
    a_reply_is_at_its_root();
    a_later_reply_is_not_older();
}

/// After a history that reads true a member takes the push that is due to its store of the group: the membership push of the epoch after that
/// of its root, over which it stays, and the traffic push of that of its root, if it accepted none of that number.
pub fn a_due_push_is_taken_in_a_history<D: Disk, G: Signer, V: Verifier>()
    ensures membership { (verifier : V) (by : Keying G) →
        MembershipPushesAreTaken (devices D.Disk G.Signer V.Verifier verifier) by }
    ensures traffic { (verifier : V) (by : Keying G) →
        TrafficPushesAreTaken (devices D.Disk G.Signer V.Verifier verifier) by }
{
    first_epochs_stay();
    an_opened_group_has_keys::<D, G, V>();
    each_step_is_of_a_kind::<D, G, V>();
    a_due_push_is_taken::<G, V>();
    a_store_at_a_root_has_its_epoch();
}

/// After a history that reads true a member with a store of the group refuses any other push, where keys are apart: the refusal says why, and
/// the store stays.
pub fn any_other_push_is_refused_in_a_history<D: Disk, G: Signer, V: Verifier>()
    ensures { (verifier : V) (by : Keying G) → OthersAreRefused (devices D.Disk G.Signer V.Verifier verifier) by }
{
    first_epochs_stay();
    an_opened_group_has_keys::<D, G, V>();
    each_step_is_of_a_kind::<D, G, V>();
    a_repeated_push_is_stale::<G, V>();
    a_member_that_left_finds_no_path::<G, V>();
    a_push_under_another_root_is_malformed::<G, V>();
}
