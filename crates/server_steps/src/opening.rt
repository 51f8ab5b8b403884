//! Making a group, and opening one from its journal.
ghost use Rattle.std.specs.Prelude.{◌≡◌, ◌+◌, ◌<◌, ◌≤◌, ◌^◌, ℕ, List, [], Option, None, IfSome, IfOk, IfErr, OnOk, OnErr};
ghost use Rattle.group_terms.specs.Names.{Name};
ghost use Rattle.group_terms.specs.declared.patterns.Rule.{Rule};
ghost use Rattle.group_model.specs.Servers.{Server};
ghost use Rattle.group_model.specs.declared.entries.Answer.TheVariants as answers;
ghost use Rattle.group_model.specs.declared.entries.Asked.TheVariants as requests;
ghost use Rattle.group_model.specs.declared.entries.GroupSeen.{GroupSeen};
ghost use Rattle.group_model.specs.declared.entries.PushPair.{PushPair as PairSeen};
ghost use Rattle.group_pushes.specs.Pairs.{IsPairIfStayed};
ghost use Rattle.gcks_core.specs.Stands.{Stands};
ghost use Rattle.pull_sessions.specs.Sessions.{Sessions};
ghost use Rattle.server_steps.specs.Hosts.{no_host, no_sessions};
ghost use Rattle.server_steps.specs.Openings.{IsBeginning, IsCreation};
ghost use Rattle.server_steps.specs.Opens.{FailsToOpen, Opens};
ghost use Rattle.server_steps.specs.Serves.{ServesReopening, answer_opened, sessions_reopened};
ghost use Rattle.server_steps.specs.Views.{server_of};

use crate::ShowRoom;
use crate::seeing::{leaf_count, seen};
use gcks_core::{Core, CoreOpened, NewGroup, Opening, Parts, PushPair, Refusal};
use gd_disk::Disk;
use gd_edges::{Draws, Signer};
use group_model::Answer;
use std::alloc::Global;
use tree_store::a_file_has_one_group;

/// Makes a group (RFC 2627 section 5.4) on the disk of these parts, whatever that held: its depth is 1 to 9, and its limit at least 1. Where that is refused
/// (`DiskFault`, `NoMemory`), the parts come back.
pub fn create<D: Disk, G: Signer, R: Draws>(
    alloc: Global,
    parts: Parts<D, G, R>,
    group: &NewGroup,
) -> Result<Core<D, G, R>, Opening<D, G, R>>
    requires shallow { 1 ≤ group.now.depth }
    requires not_deep { group.now.depth ≤ 9 }
    requires limited { 1 ≤ group.now.limit }
    ensures ok { IfOk result (λ core. (phases : ℕ) → Opens D.Disk R.Draws (IsCreation D.Disk (R.block_at parts.draws) group.now.depth)
        (requests.Create group.now.depth) (no_host parts.disk group.now.name group.now.limit (R.place_of parts.draws) phases) parts
        (server_of core [] (no_sessions phases)) None) }
    ensures nothing_waits { IfOk result (λ core. core.queue ≡ []) }
    ensures err { IfErr result (λ opening. (phases : ℕ) → FailsToOpen D.Disk R.Draws (IsCreation D.Disk (R.block_at parts.draws) group.now.depth)
        (requests.Create group.now.depth) (no_host parts.disk group.now.name group.now.limit (R.place_of parts.draws) phases) parts
        opening.refusal opening.parts) }
{
    let core = Core::create(alloc, parts, group)?;
    core.prove_head_fits();
    Ok(core)
}

/// Opens the group on the disk of these parts. Where that is refused (`DiskFault`, `NotAJournal` with its place, `NoMemory`), the parts come back.
pub fn open<D: Disk, G: Signer, R: Draws>(
    alloc: Global,
    parts: Parts<D, G, R>,
) -> Result<CoreOpened<D, G, R>, Opening<D, G, R>>
    ensures ok { IfOk result (λ opened. (name : Name) (limit phases : ℕ) → Opens D.Disk R.Draws (IsBeginning D.Disk G.Signer parts.signer) requests.Begin
        (no_host parts.disk name limit (R.place_of parts.draws) phases) parts (server_of opened.core [] (no_sessions phases)) opened.resent) }
    ensures nothing_waits { IfOk result (λ opened. opened.core.queue ≡ []) }
    ensures fits { IfOk result (λ opened. IfSome opened.resent (λ pair. pair.first + 1 < 2 ^ 32)) }
    ensures err { IfErr result (λ opening. (name : Name) (limit phases : ℕ) → FailsToOpen D.Disk R.Draws (IsBeginning D.Disk G.Signer parts.signer)
        requests.Begin (no_host parts.disk name limit (R.place_of parts.draws) phases) parts opening.refusal opening.parts) }
{
    let opened = Core::open(alloc, parts)?;
    opened.core.prove_head_fits();
    prove_last_pair_fits(&opened.core);
    Ok(opened)
}

/// Opens the group again, from its journal, and gives the pair of its last batch, where that one sent a pair. `DiskFault`, `NotAJournal`, `NoMemory`: then it
/// still has to be opened again.
pub fn reopen<D: Disk, G: Signer, R: Draws>(
    alloc: Global,
    core: &mut Core<D, G, R>,
) -> Result<Option<PushPair>, Refusal>
    ensures serves { (rules : List Rule) (sessions : Sessions) → ServesReopening D.Disk G.Signer R.Draws result (server_of core.old rules sessions)
        (server_of core.new rules (sessions_reopened result sessions)) }
    ensures nothing_waits { OnOk result (core.new.queue ≡ []) }
    ensures waits { OnErr result (core.new.queue ≡ core.old.queue) }
    ensures fits { IfOk result (λ resent. IfSome resent (λ pair. pair.first + 1 < 2 ^ 32)) }
{
    a_file_has_one_group();
    let resent = core.reopen(alloc)?;
    core.prove_head_fits();
    prove_last_pair_fits(core);
    Ok(resent)
}

/// The answer of a core that was just made or opened, which shows its group.
pub fn show_opened<D: Disk, G: Signer, R: Draws>(
    core: &Core<D, G, R>,
    resent: Option<PushPair>,
    room: ShowRoom,
) -> Answer
    ensures shows { (server : Server) → Stands R.Draws core.now server → result ≡ answer_opened server resent }
    ensures opened { (seen : GroupSeen) × (result ≡ answers.Opened seen resent) }
{
    let ShowRoom { standings } = room;
    let _ = leaf_count(core.depth());
    Answer::Opened {
        group: seen(core, standings),
        resent,
    }
}

/// Both numbers of the pair of the last batch have 32 bits, for the number of the last push has.
fn prove_last_pair_fits<D: Disk, G: Signer, R: Draws>(core: &Core<D, G, R>)
    ensures { (signer : G) (server : Server) (spi : List ℕ) (pair : Option PairSeen) → Stands R.Draws core.now server →
        IsPairIfStayed G.Signer signer server.depth spi server.list pair → IfSome pair (λ sent. sent.first + 1 < 2 ^ 32) }
{
    core.sequence();
}
