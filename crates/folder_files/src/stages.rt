//! Opening, locking and listing the file of a disk.
ghost use Rattle.std.specs.Prelude.{◌≡◌, ◌⊎◌, ◌≤◌, IsTrue, IsErr, OnOk, OnErr};
ghost use Rattle.group_terms.specs.Faults.{Rose};
ghost use Rattle.folder_files.specs.Files.{IsHeld};
ghost use Rattle.folder_files.specs.Calls.{IsQuiet, IsNarrow};
ghost use Rattle.folder_files.specs.Stages.{Fits};
ghost use Rattle.folder_files.specs.declared.stages.Stage.TheVariants.{Lost};

use crate::FolderFile;
use gd_disk::Failed;

/// How far the file of a disk is.
#[derive(Clone, Copy)]
pub enum Stage {
    /// It is not opened and locked yet.
    Unopened,
    /// It is open and locked.
    Held,
    /// Its folder has it on the device, too.
    Listed,
    /// A sync failed.
    Lost,
}

/// Opens the file and takes its lock, where that is not done.
pub(crate) fn hold<F: FolderFile>(file: &mut F, stage: &mut Stage) -> Result<(), Failed>
    requires { Fits stage.old (F.standing file.old) }
    ensures fits { Fits stage.new (F.standing file.new) }
    ensures held { OnOk result (IsHeld (F.standing file.new)) }
    ensures quiet { IsQuiet F.FolderFile file.old file.new }
    ensures cause { OnErr result ((stage.old ≡ Lost) ⊎ Rose (F.faults file.old) (F.faults file.new)) }
    ensures counted { F.faults file.old ≤ F.faults file.new }
    ensures ended { stage.old ≡ Lost → IsErr result × (stage.new ≡ Lost) }
{
    match stage {
        Stage::Held | Stage::Listed => Ok(()),
        Stage::Lost => Err(Failed),
        Stage::Unopened => {
            file.open()?;
            file.lock()?;
            *stage = Stage::Held;
            Ok(())
        }
    }
}

/// Opens the file, takes its lock, and waits until its folder has it on the device, where that is not done.
pub(crate) fn list<F: FolderFile>(file: &mut F, stage: &mut Stage) -> Result<(), Failed>
    requires { Fits stage.old (F.standing file.old) }
    ensures fits { Fits stage.new (F.standing file.new) }
    ensures held { OnOk result (IsHeld (F.standing file.new)) }
    ensures listed { OnOk result (IsTrue (F.standing file.new).is_listed) }
    ensures narrow { IsNarrow F.FolderFile file.old file.new }
    ensures cause { OnErr result ((stage.old ≡ Lost) ⊎ Rose (F.faults file.old) (F.faults file.new)) }
    ensures counted { F.faults file.old ≤ F.faults file.new }
    ensures ended { stage.old ≡ Lost → IsErr result × (stage.new ≡ Lost) }
{
    if let Stage::Listed = stage {
        return Ok(());
    }
    hold(file, stage)?;
    *stage = Stage::Lost;
    file.sync_folder()?;
    *stage = Stage::Listed;
    Ok(())
}
