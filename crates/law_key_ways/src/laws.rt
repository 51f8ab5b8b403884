//! Laws of the way from a leaf to the root, and of what a batch encrypts on it.
ghost use Rattle.law_key_ways.specs.Laws.{EncryptionsGoUp, EncryptionsAreFew, TheRootIsGiven, PlacesAreLeaves, MembersHavePlaces};
ghost use Rattle.law_key_ways.specs.Laws.{WaysEndAtTheRoot, ParentsStandAbove, WhoStaysKeepsItsLeaf, WhoStaysIsGivenItsWay};
ghost use Rattle.law_key_ways.specs.Laws.{WhoLeavesHasANewWay, HoldersStayBelowKept, Laws};

use group_model::laws_hold;

/// Each encryption of a batch goes one step up: it gives the new key of an inner position, under that of a child.
pub fn an_encryption_goes_one_step_up()
    ensures { EncryptionsGoUp }
{}

/// A batch encrypts no more than one key for each lowest inner position, and two for each position above these.
pub fn encryptions_are_few()
    ensures { EncryptionsAreFew }
{
    laws_hold();
}

/// Where somebody stayed, the new key of the root is given.
pub fn the_root_is_given()
    ensures { TheRootIsGiven }
{
    laws_hold();
}

/// A member's place is a leaf of the tree.
pub fn a_place_is_a_leaf()
    ensures { PlacesAreLeaves }
{
    laws_hold();
}

/// Each member has a place.
pub fn each_member_has_a_place()
    ensures { MembersHavePlaces }
{}

/// As many steps as the tree is deep lead from a leaf to the root, and what stands below a position stands below the one above that.
pub fn a_way_leads_up_to_the_root()
    ensures root { WaysEndAtTheRoot }
    ensures parent { ParentsStandAbove }
{}

/// Who stays over a batch keeps its leaf, and the key of that leaf.
pub fn who_stays_keeps_its_leaf()
    ensures { WhoStaysKeepsItsLeaf }
{
    laws_hold();
}

/// Who stays over a batch is given each new key on its way up, under the key of the position below that on its way.
pub fn who_stays_is_given_its_way()
    ensures { WhoStaysIsGivenItsWay }
{
    laws_hold();
}

/// Of who does not stay over a batch each position on its way gets a new key.
pub fn who_leaves_has_a_new_way()
    ensures { WhoLeavesHasANewWay }
{
    laws_hold();
}

/// While a position keeps its key, the leaves below it keep their holders.
pub fn holders_stay_below_what_is_kept()
    ensures { HoldersStayBelowKept }
{
    laws_hold();
}

/// All of these laws.
pub fn each_law_holds()
    ensures { Laws }
{
    an_encryption_goes_one_step_up();
    encryptions_are_few();
    the_root_is_given();
    a_place_is_a_leaf();
    each_member_has_a_place();
    a_way_leads_up_to_the_root();
    who_stays_keeps_its_leaf();
    who_stays_is_given_its_way();
    who_leaves_has_a_new_way();
    holders_stay_below_what_is_kept();
}
