//! The value that keeps a group and its history.
ghost use Rattle.std.specs.Prelude.{◌≡◌, List, [], ◌++◌, ◌∷◌, MatchOption};
ghost use Rattle.group_model.specs.declared.entries.Entry.{Entry};

use crate::boards::Board;
use crate::unread::Unread;
use gd_disk::Disk;
use gd_edges::{Draws, Signer};
use group_model::{Entry, List, Log};
use group_server::{GroupServer, Parts};
use member_steps::Members;
use sent_pushes::SentPushes;
use std::marker::Model;
use sym_closure::Sent;

/// A group that runs: its key server, its members, and the history of all that was asked of them.
///
/// Each request adds one entry. It may run out of memory before it does anything; then the history is as it was.
#[derive(Drop)]
pub struct GroupRun<D: Disk, G: Signer, R: Draws> {
    pub(crate) server: GroupServer<D, G, R>,
    pub(crate) members: Members,
    /// What is on its way to the members.
    pub(crate) unread: Unread,
    /// What was sent so far, by key names.
    pub(crate) sent: Sent,
    /// Which entry sent the last push of each number.
    pub(crate) pushes: SentPushes,
    pub(crate) board: Board,
    pub(crate) entries: Log<Entry>,
}

impl<D: Disk, G: Signer, R: Draws> Model for GroupRun<D, G, R> {
    ghost use Rattle.group_run.specs.Private.Kept.{IsKept, members_at};
    ghost use Rattle.group_run.specs.Views.{View};

    ghost Value = { View D G R };

    ghost view = { λ run. record {
      server = run.server;
      members = members_at run.members run.entries.items run.unread;
      entries = run.entries.items;
    } };

    ghost invariant = { λ run. IsKept D.Disk R.Draws run.server run.members.all run.unread run.sent run.pushes.items run.board run.entries.items };
}

impl<D: Disk, G: Signer, R: Draws> GroupRun<D, G, R> {
    /// The last entry of the history.
    pub fn last(&self) -> Option<&Entry>
        ensures { MatchOption result (self.now.entries ≡ []) (λ entry. (front : List Entry) × (self.now.entries ≡ front ++ entry.now ∷ [])) }
    {
        self.entries.items().last()
    }

    /// The history.
    pub fn history(&self) -> &[Entry]
        ensures { result.now ≡ self.now.entries }
    {
        self.entries.items()
    }

    /// Whether the server has to be opened again.
    pub fn needs_reopen(&self) -> bool
        ensures { result ≡ self.now.server.core.needs_reopen }
    {
        self.server.needs_reopen()
    }

    /// The history, and the disk, the signer and the draws of the group.
    pub fn into_parts(self) -> (List<Entry>, Parts<D, G, R>)
        ensures history { result.0 ≡ self.entries }
        ensures disk { result.1.disk ≡ self.server.core.disk }
        ensures others { (result.1.signer ≡ self.server.core.signer) × (result.1.draws ≡ self.server.core.draws) }
    {
        let GroupRun {
            server,
            members: _,
            unread: _,
            sent: _,
            pushes: _,
            board: _,
            entries,
        } = self;
        (entries.into_list(), server.close())
    }
}
