//! The calls of a disk, over a file and its stage.
ghost use Rattle.std.specs.Prelude.{◌≡◌, ◌⊎◌, ◌+◌, ◌^◌, ◌<◌, ◌≤◌, length, take, Some, IsErr, IfOk, OnOk, OnErr};
ghost use Rattle.group_terms.specs.Faults.{Rose};
ghost use Rattle.gd_disk.specs.Disks.{Knows, IsRead, Torn, Cut, Only, written};
ghost use Rattle.folder_files.specs.Calls.{octets_of, IsQuiet, IsNarrow, IsStep};
ghost use Rattle.folder_files.specs.Stages.{Fits};
ghost use Rattle.folder_files.specs.declared.stages.Stage.TheVariants.{Lost};

use crate::FolderFile;
use crate::stages::{Stage, hold, list};
use crate::whole::{read_all, write_all};
use gd_disk::{FARTHEST, Failed, a_crash_may_leave_nothing_or_all, ends_too_far};

/// Moves octets from a place on to the front of `into`, and says how many: all that are there and fit, and none past the farthest place.
/// `Failed` where a call of the file fails, and after a sync that failed.
pub fn read<F: FolderFile>(
    file: &mut F,
    stage: &mut Stage,
    at: u64,
    into: &mut [u8],
) -> Result<usize, Failed>
    requires { Fits stage.old (F.standing file.old) }
    ensures fits { Fits stage.new (F.standing file.new) }
    ensures count { IfOk result (λ n. n ≤ length into.new) }
    ensures far { 2 ^ 62 ≤ at → IfOk result (λ n. n ≡ 0) }
    ensures octets { IfOk result (λ n. Knows (octets_of F.FolderFile file.old)
        (λ octets. IsRead octets at (length into.old) n into.new)) }
    ensures quiet { IsQuiet F.FolderFile file.old file.new }
    ensures cause { OnErr result ((stage.old ≡ Lost) ⊎ Rose (F.faults file.old) (F.faults file.new)) }
    ensures counted { F.faults file.old ≤ F.faults file.new }
    ensures ended { stage.old ≡ Lost → IsErr result × (stage.new ≡ Lost) }
{
    hold(file, stage)?;
    if at >= FARTHEST {
        file.prove_ends_near();
        return Ok(0);
    }
    Ok(read_all(file, at, into)?)
}

/// Writes octets over those at a place, and past the end. `Failed` where they would end past the farthest place, where a call of the file
/// fails, and after a sync that failed.
pub fn write<F: FolderFile>(
    file: &mut F,
    stage: &mut Stage,
    at: u64,
    octets: &[u8],
) -> Result<(), Failed>
    requires fits { Fits stage.old (F.standing file.old) }
    requires there { Knows (octets_of F.FolderFile file.old) (λ octets. at ≤ length octets) }
    ensures fits { Fits stage.new (F.standing file.new) }
    ensures far { OnOk result (at + length octets.now ≤ 2 ^ 62) }
    ensures image { OnOk result (Knows (octets_of F.FolderFile file.old)
        (λ before. octets_of F.FolderFile file.new ≡ Some (written before at octets.now))) }
    ensures step { IsStep F.FolderFile (Torn at (length octets.now)) file.old file.new }
    ensures cause { OnErr result (((stage.old ≡ Lost) ⊎ Rose (F.faults file.old) (F.faults file.new)) ⊎ (2 ^ 62 < at + length octets.now)) }
    ensures counted { F.faults file.old ≤ F.faults file.new }
    ensures ended { stage.old ≡ Lost → IsErr result × (stage.new ≡ Lost) }
{
    hold(file, stage)?;
    if ends_too_far(at, octets) {
        return Err(Failed);
    }
    write_all(file, at, octets)?;
    Ok(())
}

/// Cuts all octets from a place on. `Failed` where a call of the file fails, and after a sync that failed.
pub fn cut<F: FolderFile>(file: &mut F, stage: &mut Stage, to: u64) -> Result<(), Failed>
    requires fits { Fits stage.old (F.standing file.old) }
    requires there { Knows (octets_of F.FolderFile file.old) (λ octets. to ≤ length octets) }
    ensures fits { Fits stage.new (F.standing file.new) }
    ensures image { OnOk result (Knows (octets_of F.FolderFile file.old)
        (λ before. octets_of F.FolderFile file.new ≡ Some (take to before))) }
    ensures step { IsStep F.FolderFile (Cut to) file.old file.new }
    ensures cause { OnErr result ((stage.old ≡ Lost) ⊎ Rose (F.faults file.old) (F.faults file.new)) }
    ensures counted { F.faults file.old ≤ F.faults file.new }
    ensures ended { stage.old ≡ Lost → IsErr result × (stage.new ≡ Lost) }
{
    a_crash_may_leave_nothing_or_all();
    hold(file, stage)?;
    file.set_len(to)?;
    Ok(())
}

/// Waits until the folder has the file on the device, and all octets of it are there. `Failed` where a call of the file or of its folder
/// fails, and after a sync that failed.
pub fn sync<F: FolderFile>(file: &mut F, stage: &mut Stage) -> Result<(), Failed>
    requires { Fits stage.old (F.standing file.old) }
    ensures fits { Fits stage.new (F.standing file.new) }
    ensures durable { OnOk result (Knows (octets_of F.FolderFile file.old)
        (λ octets. Only octets (F.may_leave file.new))) }
    ensures narrow { IsNarrow F.FolderFile file.old file.new }
    ensures cause { OnErr result ((stage.old ≡ Lost) ⊎ Rose (F.faults file.old) (F.faults file.new)) }
    ensures counted { F.faults file.old ≤ F.faults file.new }
    ensures ended { stage.old ≡ Lost → IsErr result × (stage.new ≡ Lost) }
{
    list(file, stage)?;
    *stage = Stage::Lost;
    file.sync()?;
    *stage = Stage::Listed;
    Ok(())
}
