//! Reading and writing whole pieces.
ghost use Rattle.std.specs.Prelude.{◌≡◌, ◌+◌, ◌^◌, ◌<◌, ◌≤◌, length, Some, IfOk, OnOk, OnErr};
ghost use Rattle.group_terms.specs.Faults.{Rose};
ghost use Rattle.gd_disk.specs.Disks.{Knows, IsRead, Torn, written};
ghost use Rattle.folder_files.specs.Files.{IsHeld};
ghost use Rattle.folder_files.specs.Calls.{octets_of, IsQuiet, IsStep};

use crate::FolderFile;
use gd_disk::{Failed, a_crash_may_leave_nothing_or_all};

/// Reads from a place on until all is read or the file ends, and says how much was.
pub(crate) fn read_all<F: FolderFile>(
    file: &mut F,
    at: u64,
    into: &mut [u8],
) -> Result<usize, Failed>
    requires held { IsHeld (F.standing file.old) }
    requires near { at < 2 ^ 62 }
    ensures standing { F.standing file.new ≡ F.standing file.old }
    ensures count { IfOk result (λ n. n ≤ length into.new) }
    ensures octets { IfOk result (λ n. Knows (octets_of F.FolderFile file.old)
        (λ octets. IsRead octets at (length into.old) n into.new)) }
    ensures quiet { IsQuiet F.FolderFile file.old file.new }
    ensures cause { OnErr result (Rose (F.faults file.old) (F.faults file.new)) }
    ensures counted { F.faults file.old ≤ F.faults file.new }
{
    let mut n = 0;
    while n < into.len() {
        let moved = file.read_at(at + n as u64, &mut into[n..])?;
        if moved == 0 {
            return Ok(n);
        }
        n += moved;
    }
    Ok(n)
}

/// Writes at a place until all is written.
pub(crate) fn write_all<F: FolderFile>(file: &mut F, at: u64, octets: &[u8]) -> Result<(), Failed>
    requires held { IsHeld (F.standing file.old) }
    requires there { Knows (octets_of F.FolderFile file.old) (λ octets. at ≤ length octets) }
    requires near { at + length octets.now ≤ 2 ^ 62 }
    ensures standing { F.standing file.new ≡ F.standing file.old }
    ensures image { OnOk result (Knows (octets_of F.FolderFile file.old)
        (λ before. octets_of F.FolderFile file.new ≡ Some (written before at octets.now))) }
    ensures step { IsStep F.FolderFile (Torn at (length octets.now)) file.old file.new }
    ensures cause { OnErr result (Rose (F.faults file.old) (F.faults file.new)) }
    ensures counted { F.faults file.old ≤ F.faults file.new }
{
    let mut done = 0;
    while done < octets.len() {
        a_crash_may_leave_nothing_or_all();
        done += file.write_at(at + done as u64, &octets[done..])?;
    }
    Ok(())
}
