//! Making and opening a core.
ghost use Rattle.std.specs.Prelude.{◌≡◌, ◌⊎◌, ◌≤◌, ◌<◌, [], ℕ, List, None, Some, Err, IfOk, IfErr};
ghost use Rattle.gd_disk.specs.Disks.{Knows, Only};
ghost use Rattle.gd_disk.specs.Moments.{shown, OnlyReads, ReportsFaults};
ghost use Rattle.group_values.specs.Drawing.{next_place};
ghost use Rattle.group_values.specs.Values.{Made};
ghost use Rattle.group_model.specs.Servers.{opened_server};
ghost use Rattle.group_model.specs.declared.entries.Refusal.TheVariants.{DiskFault, NotAJournal, NoMemory as OutOfMemory};
ghost use Rattle.group_records.specs.declared.heads.Head.{Head};
ghost use Rattle.tree_store.specs.Groups.{HasGroup, IsGroup, IsNoGroup, MakesGroup};
ghost use Rattle.group_pushes.specs.Pairs.{IsPairIfStayed};
ghost use Rattle.gcks_core.specs.Private.Cores.{IsGroupOf};
ghost use Rattle.gcks_core.specs.Stands.{Stands};
ghost use Rattle.gcks_core.specs.Stored.{IsOnDisk, stored_list};
ghost use Rattle.gcks_core.specs.Openings.{core_disk, FoundFault, head_of, opened_disk};

use crate::reading::{Found, read_all, refusal_of};
use crate::{Core, CoreOpened, NewGroup, Opening, Parts, Queue, Refusal};
use gd_disk::{Disk, a_crash_may_leave_nothing_or_all};
use gd_edges::{Draws, Signer};
use group_terms::NoMemory;
use key_tree::KeyTree;
use std::alloc::Global;
use tree_store::{FormatRefusal, Head, TreeStore};

impl<D: Disk, G: Signer, R: Draws> Core<D, G, R> {
    /// Makes a group without a batch on the disk of these parts, whatever that held; its SPI is the next block of the draws. It gives the parts back
    /// where the disk fails (`DiskFault`), or where there is no memory; the block may be drawn then.
    pub fn create(
        alloc: Global,
        parts: Parts<D, G, R>,
        group: &NewGroup,
    ) -> Result<Self, Opening<D, G, R>>
        requires shallow { 1 ≤ group.now.depth }
        requires not_deep { group.now.depth ≤ 9 }
        requires limited { 1 ≤ group.now.limit }
        ensures head { IfOk result (λ core. core.head ≡ head_of group.now (R.block_at parts.draws (R.place_of parts.draws))) }
        ensures server { IfOk result (λ core. Stands R.Draws core (opened_server group.now.depth group.now.limit [] (next_place (R.place_of parts.draws)))) }
        ensures made { IfOk result (λ core. Knows (shown D.Disk parts.disk) (λ _. HasGroup (shown D.Disk core.disk) core.head [])) }
        ensures durable { IfOk result (λ core. Knows (shown D.Disk parts.disk) (λ _. (c : List ℕ) → D.may_leave core.disk c → IsGroup c core.head [])) }
        ensures moments { Knows (shown D.Disk parts.disk)
            (λ _. MakesGroup D.Disk (head_of group.now (R.block_at parts.draws (R.place_of parts.draws))) parts.disk (core_disk result)) }
        ensures signer { IfOk result (λ core. core.signer ≡ parts.signer) }
        ensures blocks { IfOk result (λ core. (k : ℕ) → R.block_at core.draws k ≡ R.block_at parts.draws k) }
        ensures parts { IfErr result (λ opening. (opening.parts.signer ≡ parts.signer)
            × ((R.place_of opening.parts.draws ≡ R.place_of parts.draws) ⊎ (R.place_of opening.parts.draws ≡ next_place (R.place_of parts.draws)))
            × ((k : ℕ) → R.block_at opening.parts.draws k ≡ R.block_at parts.draws k)) }
        ensures no_other { IfErr result (λ opening. (opening.refusal ≡ DiskFault) ⊎ (opening.refusal ≡ OutOfMemory)) }
        ensures untouched { IfErr result (λ opening. opening.refusal ≡ OutOfMemory → opening.parts.disk ≡ parts.disk) }
        ensures disk { ReportsFaults D.Disk (FoundFault result) parts.disk (core_disk result) }
    {
        a_crash_may_leave_nothing_or_all();
        let Parts {
            disk,
            signer,
            mut draws,
        } = parts;
        let head = Head {
            depth: group.depth,
            name: group.name,
            spi: draws.draw(),
            limit: group.limit,
        };
        let Ok(tree) = begun(alloc, group.depth) else {
            return Err(Opening {
                refusal: Refusal::NoMemory,
                parts: Parts {
                    disk,
                    signer,
                    draws,
                },
            });
        };
        match TreeStore::create(alloc, disk, &head) {
            Ok(store) => Ok(Core {
                store,
                head,
                signer,
                draws,
                tree,
                queue: Queue::new(),
                needs_reopen: false,
            }),
            Err(FormatRefusal { why, disk }) => Err(Opening {
                refusal: refusal_of(why),
                parts: Parts {
                    disk,
                    signer,
                    draws,
                },
            }),
        }
    }

    /// Opens the group on the disk of these parts, and gives the pair of its last batch again, where that one sent a pair: with the same octets, where this
    /// signer signs like the one that signed it first. Its draws go on from where they are. It gives the parts back where the disk fails (`DiskFault`), where there is no memory, and where the file is the journal
    /// of no group (`NotAJournal`, with the place of the first fault).
    pub fn open(
        alloc: Global,
        parts: Parts<D, G, R>,
    ) -> Result<CoreOpened<D, G, R>, Opening<D, G, R>>
        ensures read { IfOk result (λ opened. (list : List Made)
            × Stands R.Draws opened.core (opened_server opened.core.head.depth opened.core.head.limit list (R.place_of parts.draws))
            × Knows (shown D.Disk parts.disk) (λ file. IsGroup file opened.core.head (stored_list opened.core.head.depth list))
            × IsPairIfStayed G.Signer parts.signer opened.core.head.depth opened.core.head.spi list opened.resent) }
        ensures durable { IfOk result (λ opened. Knows (shown D.Disk opened.core.disk) (λ file. Only file (D.may_leave opened.core.disk))) }
        ensures others { IfOk result (λ opened. (opened.core.signer ≡ parts.signer) × (opened.core.draws ≡ parts.draws)) }
        ensures parts { IfErr result (λ opening. (opening.parts.signer ≡ parts.signer) × (opening.parts.draws ≡ parts.draws)) }
        ensures broken { IfErr result (λ opening. (at : ℕ) → opening.refusal ≡ NotAJournal at → Knows (shown D.Disk parts.disk) (λ file. IsNoGroup file at)) }
        ensures only { IfErr result (λ opening. (at : ℕ) → opening.refusal ≡ NotAJournal at →
            Knows (shown D.Disk parts.disk) (λ file. Only file (D.may_leave opening.parts.disk))) }
        ensures no_other { IfErr result (λ opening. (opening.refusal ≡ DiskFault) ⊎ ((opening.refusal ≡ OutOfMemory)
            ⊎ ((at : ℕ) × (opening.refusal ≡ NotAJournal at)))) }
        ensures reads { OnlyReads D.Disk (FoundFault result) parts.disk (opened_disk result) }
    {
        let Parts {
            disk,
            signer,
            draws,
        } = parts;
        let mut store = match TreeStore::open(alloc, disk) {
            Ok(store) => store,
            Err(FormatRefusal { why, disk }) => {
                return Err(Opening {
                    refusal: refusal_of(why),
                    parts: Parts {
                        disk,
                        signer,
                        draws,
                    },
                });
            }
        };
        match read_all(alloc, &mut store, &signer) {
            Ok(Found { head, tree, resent }) => Ok(CoreOpened {
                core: Core {
                    store,
                    head,
                    signer,
                    draws,
                    tree,
                    queue: Queue::new(),
                    needs_reopen: false,
                },
                resent,
            }),
            Err(why) => Err(Opening {
                refusal: refusal_of(why),
                parts: Parts {
                    disk: store.into_disk(),
                    signer,
                    draws,
                },
            }),
        }
    }
}

/// The tree of a group before its first batch.
fn begun(alloc: Global, depth: u8) -> Result<KeyTree, NoMemory>
    requires shallow { 1 ≤ depth }
    requires not_deep { depth ≤ 9 }
    ensures { (head : Head) → head.depth ≡ depth → IfOk result (λ tree. IsGroupOf head tree []) }
{
    let tree = KeyTree::new(alloc, depth)?;
    tree.prove_room();
    Ok(tree)
}
