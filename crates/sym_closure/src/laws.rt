//! Who can derive which key, said of every list of batches and of the entries among which they came.
ghost use Rattle.std.specs.Prelude.{ℕ, ◌≤◌, ◌++◌, List, take};
ghost use Rattle.group_terms.specs.Names.{Name};
ghost use Rattle.group_terms.specs.declared.changes.Change.{Change};
ghost use Rattle.group_model.specs.declared.entries.Entry.{Entry};
ghost use Rattle.group_model.specs.Places.{IsValid};
ghost use Rattle.sym_closure.specs.Firsts.{AreAmong};
ghost use Rattle.sym_closure.specs.Knowledge.{Known, Knows};
ghost use Rattle.sym_closure.specs.Serving.{EarlierRunsServeNobodyElse, HistoriesServeMembers};
ghost use Rattle.sym_closure.specs.Worlds.{world, holdings};
ghost use Rattle.sym_closure.specs.Secrecy.{NoOthersDerive, NobodyDerivesYet, DerivesOnlyWithinReach, MembersDerive};

use group_model::laws_hold;
use law_key_ways::each_law_holds;

/// No coalition derives the traffic key of an epoch at which none of them is a member, nor that of an epoch to come; nor any key of the
/// tree but those that the positions from their leaves up had while they had these leaves.
pub fn no_others_derive()
    ensures traffic { (depth : ℕ) (batches : List (List Change)) → NoOthersDerive depth batches }
    ensures to_come { (depth : ℕ) (batches : List (List Change)) → NobodyDerivesYet depth batches }
    ensures within_reach { (depth : ℕ) (batches : List (List Change)) → DerivesOnlyWithinReach depth batches }
{
    laws_hold();
    each_law_holds();
}

/// A member at each epoch from one to another derives the traffic key of the second from what it may be told at the first, by the
/// encryptions since; in a valid list, and in a tree of more than one leaf.
pub fn members_derive()
    ensures { (depth : ℕ) (batches : List (List Change)) → 1 ≤ depth → IsValid depth batches → MembersDerive depth batches }
{
    each_law_holds();
}

/// What can be sent and given over the first epochs of a list is among what can be over all of them.
pub fn a_longer_list_has_a_larger_world()
    ensures sent { (depth n : ℕ) (batches : List (List Change)) → AreAmong (world depth (take n batches)) (world depth batches) }
    ensures held { (depth n : ℕ) (batches : List (List Change)) (coalition : List Name) → AreAmong (holdings depth (take n batches) coalition) (holdings depth batches coalition) }
{
    laws_hold();
}

/// Entries that leave a valid list of batches serve its members, and nobody else; nor do they with what earlier runs over the journal gave and sent.
pub fn a_history_serves_its_members()
    ensures serves { HistoriesServeMembers }
    ensures earlier { EarlierRunsServeNobodyElse }
{
    laws_hold();
    each_law_holds();
}

/// What is known of a history stays known as it goes on.
pub fn what_is_known_stays_known()
    ensures { (known : Known) (entries more : List Entry) → Knows known entries → Knows known (entries ++ more) }
{}
