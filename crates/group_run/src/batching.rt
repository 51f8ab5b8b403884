//! Closing a batch.
ghost use Rattle.std.specs.Prelude.{◌≡◌, OnOk, OnErr};
ghost use Rattle.group_model.specs.declared.entries.Asked.TheVariants as requests;
ghost use Rattle.group_run.specs.Stays.{MailStays, RulesStay};
ghost use Rattle.group_run.specs.Moves.{Serves};

use crate::GroupRun;
use crate::sending::note_pushes;
use gd_disk::Disk;
use gd_edges::{Draws, Signer};
use group_model::{Asked, NoMemory};
use group_server::answer_batch;
use server_steps::entry;
use std::alloc::Global;
use sym_closure::what_is_known_stays_known;

impl<D: Disk, G: Signer, R: Draws> GroupRun<D, G, R> {
    /// Closes the batch (RFC 6407 section 4): what waits makes the next epoch, is stored, and is sent, and a fourth message is on its way to each who comes in; or
    /// that is refused (`NeedsReopen`, `Spent`, `DiskFault`). Where memory runs out, the history may have it as refused for that.
    pub fn batch(&mut self, alloc: Global) -> Result<(), NoMemory>
        ensures ok { OnOk result (Serves D.Disk G.Signer R.Draws self.old.members requests.Batch self.old self.new) }
        ensures stays { OnOk result (RulesStay self.old self.new) }
        ensures err { OnErr result (self.new ≡ self.old) }
    {
        what_is_known_stays_known();
        self.entries.reserve(1)?;
        self.pushes.reserve(2)?;
        let place = self.server.draws_at();
        let answer = answer_batch(self.server.batch(alloc));
        note_pushes(&mut self.pushes, &answer, self.entries.items().len());
        self.entries.add(entry(Asked::Batch, answer, place));
        Ok(())
    }
}
