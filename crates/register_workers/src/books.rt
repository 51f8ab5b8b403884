//! A key server with its history.
ghost use Rattle.std.specs.Prelude.{◌≡◌};
ghost use Rattle.epoch_board.specs.Pairs.{StartsWith};
ghost use Rattle.group_steps.specs.Shows.{pairs_shown};

use epoch_board::{BoardPass, EpochBoard, Publisher};
use gd_disk::Disk;
use gd_edges::{Draws, Signer};
use group_model::{Entry, Log};
use group_server::GroupServer;
use std::marker::Model;

/// A key server with the history of what was asked of it, and the publisher of its epochs.
///
/// It keeps that it published just the pairs of its history, each of an opening or a batch.
#[derive(Drop)]
pub struct Book<D: Disk, G: Signer, R: Draws> {
    pub(crate) server: GroupServer<D, G, R>,
    pub(crate) publisher: Publisher,
    pub(crate) entries: Log<Entry>,
}

impl<D: Disk, G: Signer, R: Draws> Model for Book<D, G, R> {
    ghost use Rattle.std.specs.Prelude.{◌≡◌};
    ghost use Rattle.group_steps.specs.Shows.{pairs_shown};
    ghost use Rattle.register_workers.specs.Views.{View};

    ghost Value = { View D G R };

    ghost view = { λ book. record {
      server = book.server;
      board = book.publisher.board;
      published = book.publisher.published;
      entries = book.entries.items;
    } };

    ghost invariant = { λ book. book.publisher.published ≡ pairs_shown book.entries.items };
}

impl<D: Disk, G: Signer, R: Draws> Book<D, G, R> {
    /// A server with its history, of which the publisher published just the pairs.
    pub fn new(server: GroupServer<D, G, R>, publisher: Publisher, entries: Log<Entry>) -> Self
        requires { publisher.published ≡ pairs_shown entries.items }
        ensures { result ≡ record { server = server; board = publisher.board; published = publisher.published; entries = entries.items } }
    {
        Book {
            server,
            publisher,
            entries,
        }
    }

    /// What it is made of.
    pub fn into_parts(self) -> (GroupServer<D, G, R>, Publisher, Log<Entry>)
        ensures server { result.0 ≡ self.server }
        ensures board { result.1.board ≡ self.board }
        ensures published { result.1.published ≡ self.published }
        ensures shown { self.published ≡ pairs_shown self.entries }
        ensures entries { result.2.items ≡ self.entries }
    {
        let Book {
            server,
            publisher,
            entries,
        } = self;
        (server, publisher, entries)
    }

    /// Shows a pass of its board all that was published.
    pub fn show(&mut self, board: &EpochBoard, reader: &mut BoardPass)
        requires book { self.old.board ≡ board.now }
        requires reader { reader.old.board ≡ board.now }
        ensures same { self.new ≡ self.old }
        ensures board { reader.new.board ≡ board.now }
        ensures seen { reader.new.seen ≡ self.old.published }
        ensures before { StartsWith reader.new.seen reader.old.seen }
        ensures shown { self.old.published ≡ pairs_shown self.old.entries }
    {
        board.meet(&mut self.publisher, reader);
    }

    /// The history.
    pub fn entries(&self) -> &[Entry]
        ensures { result.now ≡ self.now.entries }
    {
        self.entries.items()
    }
}
