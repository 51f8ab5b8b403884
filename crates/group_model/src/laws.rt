//! What the definitions mean, said of lists of batches.
ghost use Rattle.group_model.specs.Growth.{RepliesGoToMembers};
ghost use Rattle.group_model.specs.Laws.{EachLeafHasItsPlace, HoldersStay, LastChangesStay, PlacesAreHeld, NoLeafIsShared};
ghost use Rattle.group_model.specs.Laws.{NoNameHasTwoLeaves, PlacesStay, BatchesSayWhoIsMember, WrapsUseTwoNumbers, DrawnPositionsRise};
ghost use Rattle.group_model.specs.Laws.{NoChangeFits, LeaversAreFew, ChangesAreFew, GrantedJoinsFit, GrantedLeavesFit, Laws};

/// Each leaf of the tree has its place among the holders, at every epoch.
pub fn each_leaf_has_its_place()
    ensures { EachLeafHasItsPlace }
{}

/// The first epochs of a list are as they are without the later ones.
pub fn first_epochs_stay()
    ensures holders { HoldersStay }
    ensures last_changes { LastChangesStay }
{}

/// The leaf that is a member's place is held by it.
pub fn places_are_held()
    ensures { PlacesAreHeld }
{}

/// Two members never have one leaf.
pub fn members_never_share_a_leaf()
    ensures { NoLeafIsShared }
{}

/// In a valid list no name has two leaves.
pub fn no_name_has_two_leaves()
    ensures { NoNameHasTwoLeaves }
{}

/// A member keeps its leaf over each batch over which it stays.
pub fn places_stay_while_members_stay()
    ensures { PlacesStay }
{}

/// After a batch of a valid list its joiners are members, its leavers are none, and anybody else is one exactly where it was one before.
pub fn a_batch_says_who_is_a_member()
    ensures { BatchesSayWhoIsMember }
{}

/// Each reply of a batch tells a member of its epoch the keys that it has then.
pub fn replies_go_to_members()
    ensures { RepliesGoToMembers }
{}

/// A batch that encrypts something uses the next two sequence numbers; any other one uses none.
pub fn a_batch_that_wraps_uses_two_numbers()
    ensures { WrapsUseTwoNumbers }
{}

/// The positions for whose keys a batch draws values come by rising number, each once.
pub fn drawn_positions_rise()
    ensures { DrawnPositionsRise }
{}

/// A batch that fits takes out no more than there are members, and has two changes for each leaf at the most. The empty one fits.
pub fn a_batch_that_fits_has_few_changes()
    ensures none { NoChangeFits }
    ensures leavers { LeaversAreFew }
    ensures changes { ChangesAreFew }
{}

/// A change that may wait still fits with what waits.
pub fn granted_changes_fit()
    ensures joins { GrantedJoinsFit }
    ensures leaves { GrantedLeavesFit }
{}

/// All of these laws.
pub fn laws_hold()
    ensures { Laws }
{
    each_leaf_has_its_place();
    first_epochs_stay();
    places_are_held();
    members_never_share_a_leaf();
    no_name_has_two_leaves();
    places_stay_while_members_stay();
    a_batch_says_who_is_a_member();
    a_batch_that_wraps_uses_two_numbers();
    drawn_positions_rise();
    a_batch_that_fits_has_few_changes();
    granted_changes_fit();
}
