//! A group as it is shown to who asks.
ghost use Rattle.std.specs.Prelude.{◌≡◌, ◌≤◌, ◌+◌, ◌++◌, ◌∷◌, ◌^◌, true, [], None, IfOk};
ghost use Rattle.group_model.specs.Seen.{seen_group, standings};
ghost use Rattle.group_model.specs.Servers.{Server, members_now, present_batches};
ghost use Rattle.group_model.specs.declared.entries.Asked.TheVariants as requests;
ghost use Rattle.gcks_core.specs.Stands.{Stands};
ghost use Rattle.server_steps.specs.Private.Standings.{standings_among};
ghost use Rattle.server_steps.specs.Sent.{pair_by};
ghost use Rattle.server_steps.specs.Serves.{ServesBeside};

use gcks_core::{Core, LkhId, Refusal};
use gd_disk::Disk;
use gd_edges::{Draws, Signer};
use group_model::{Answer, GroupSeen, List, Log, NoMemory, Standing};
use std::alloc::Global;

/// How many leaves the deepest tree has.
const MOST_LEAVES: u16 = 512;

/// Room for all members of a group, however deep its tree is, so that it can be shown.
#[derive(Drop)]
pub struct ShowRoom {
    pub(crate) standings: Log<Standing>,
    ghost no_standings: { standings.items ≡ [] },
    ghost room_for_standings: { 512 ≤ standings.spare },
}

impl ShowRoom {
    pub fn new(alloc: Global) -> Result<Self, NoMemory> {
        let standings = room(alloc, MOST_LEAVES)?;
        Ok(ShowRoom { standings })
    }
}

/// Who has which leaf; `NeedsReopen` where that is so. Out of memory, nothing is answered.
pub fn show<D: Disk, G: Signer, R: Draws>(
    alloc: Global,
    core: &Core<D, G, R>,
) -> Result<Answer, NoMemory>
    ensures serves { IfOk result (λ answer. ServesBeside D.Disk G.Signer R.Draws requests.Show answer core.now core.now) }
    ensures silent { IfOk result (λ answer. pair_by answer ≡ None) }
{
    let standings = room(alloc, leaf_count(core.depth()))?;
    if core.needs_reopen() {
        let why = Refusal::NeedsReopen;
        return Ok(Answer::Refused { why });
    }
    Ok(Answer::Shown {
        group: seen(core, standings),
    })
}

/// That no push is given to any member, since the server has to be opened again.
pub fn refuse_deliveries<D: Disk, G: Signer, R: Draws>(core: &Core<D, G, R>) -> Answer
    requires { core.now.needs_reopen ≡ true }
    ensures serves { ServesBeside D.Disk G.Signer R.Draws requests.DeliverAll result core.now core.now }
    ensures silent { pair_by result ≡ None }
{
    let _ = core.needs_reopen();
    let why = Refusal::NeedsReopen;
    Answer::Refused { why }
}

/// Room for the members of a group whose tree has this many leaves.
fn room(alloc: Global, leaves: u16) -> Result<Log<Standing>, NoMemory>
    ensures items { IfOk result (λ room. room.items ≡ []) }
    ensures spare { IfOk result (λ room. leaves ≤ room.spare) }
{
    let mut room = Log::of(List::new(alloc));
    room.reserve(u64::from(leaves))?;
    Ok(room)
}

/// The group of a core, with its members by rising leaf. It takes no memory.
pub(crate) fn seen<D: Disk, G: Signer, R: Draws>(
    core: &Core<D, G, R>,
    room: Log<Standing>,
) -> GroupSeen
    requires items { room.items ≡ [] }
    requires spare { 2 ^ core.now.head.depth ≤ room.spare }
    ensures { (server : Server) → Stands R.Draws core.now server → result ≡ seen_group server.depth (present_batches server) }
{
    GroupSeen {
        depth: core.depth(),
        epoch: core.epoch(),
        sequence: core.sequence(),
        members: members(core, room).into_list(),
    }
}

/// The members with their leaves, by rising leaf.
fn members<D: Disk, G: Signer, R: Draws>(
    core: &Core<D, G, R>,
    mut room: Log<Standing>,
) -> Log<Standing>
    requires items { room.items ≡ [] }
    requires spare { 2 ^ core.now.head.depth ≤ room.spare }
    ensures { (server : Server) → Stands R.Draws core.now server → result.items ≡ standings server.depth (members_now server) }
{
    let leaves = leaf_count(core.depth());
    for place in 0..leaves {
        add_standing(core, leaves + place, &mut room);
    }
    room
}

/// How many leaves a tree of this depth has.
pub(crate) fn leaf_count(depth: u8) -> u16
    requires { depth ≤ 9 }
    ensures count { result ≡ 2 ^ depth }
    ensures some { 1 ≤ result }
    ensures few { result ≤ 512 }
{
    1 << depth
}

/// Adds the member that has a leaf, if somebody has it.
fn add_standing<D: Disk, G: Signer, R: Draws>(
    core: &Core<D, G, R>,
    leaf: u16,
    room: &mut Log<Standing>,
)
    requires spare { 1 ≤ room.old.spare }
    requires leaf { 1 ≤ leaf }
    ensures items { room.new.items ≡ room.old.items ++ standings_among core.now.tree.depth core.now.tree.holders (leaf ∷ []) }
    ensures spare { room.old.spare ≤ room.new.spare + 1 }
{
    let Some(leaf) = LkhId::new(leaf) else {
        return;
    };
    if let Some(member) = core.member_at(leaf) {
        room.add(Standing { leaf, member });
    }
}
