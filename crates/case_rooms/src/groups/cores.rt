//! Groups on a disk, with signatures of tests and draws of a seed. The calls of a core that promise much are made here, once for each kind of disk.
ghost use Rattle.std.specs.Prelude.{◌≤◌, IfSome};

use case_lines::number;
use gcks_core::{
    Core, CoreOpened, CoreOutput, GroupName, MemberName, NewGroup, Opening, Parts, Refusal,
};
use gd_disk::Disk;
use gd_edges::{ChaChaDraws, TestSigner};
use std::alloc::Global;

pub type SeedCore<D> = Core<D, TestSigner, ChaChaDraws>;

pub type SeedParts<D> = Parts<D, TestSigner, ChaChaDraws>;

pub type SeedOpening<D> = Opening<D, TestSigner, ChaChaDraws>;

type SeedOpened<D> = CoreOpened<D, TestSigner, ChaChaDraws>;

/// What a group is made of on a disk.
pub fn parts_on<D>(disk: D, seed: u64) -> SeedParts<D> {
    Parts {
        disk,
        signer: TestSigner::new(),
        draws: ChaChaDraws::new(seed, 0),
    }
}

/// A group of this depth and this limit; `None` where there is none.
pub fn new_group(depth: &str, limit: &str) -> Option<NewGroup>
    ensures { IfSome result (λ group. (1 ≤ group.depth) × (group.depth ≤ 9) × (1 ≤ group.limit)) }
{
    let (depth, limit) = (depth.parse::<u8>().ok()?, number(limit)?);
    if depth == 0 || depth > 9 || limit == 0 {
        return None;
    }
    let name = GroupName::read(b"console")?;
    Some(NewGroup { depth, name, limit })
}

/// Makes a group, of which nothing more is said.
pub fn create<D: Disk>(
    alloc: Global,
    parts: SeedParts<D>,
    group: &NewGroup,
) -> Result<SeedCore<D>, SeedOpening<D>>
    requires shallow { 1 ≤ group.now.depth }
    requires not_deep { group.now.depth ≤ 9 }
    requires limited { 1 ≤ group.now.limit }
{
    Core::create(alloc, parts, group)
}

/// Opens a group, of which nothing more is said.
pub fn open<D: Disk>(alloc: Global, parts: SeedParts<D>) -> Result<SeedOpened<D>, SeedOpening<D>> {
    Core::open(alloc, parts)
}

/// Has somebody wait who comes in. `false` where that is a member.
pub fn join<D: Disk>(core: &mut SeedCore<D>, member: &MemberName) -> Result<bool, Refusal> {
    if core.is_member(member) {
        return Ok(false);
    }
    core.join(member)?;
    Ok(true)
}

/// Closes the batch of the changes that wait.
pub fn close_batch<D: Disk>(alloc: Global, core: &mut SeedCore<D>) -> Result<CoreOutput, Refusal> {
    let prepared = core.prepare(alloc)?;
    core.commit(prepared)
}
