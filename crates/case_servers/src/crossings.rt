//! What goes from thread to thread where threads serve one group.

use gd_disk::Disk;
use gd_edges::{Draws, Signer};
use group_model::{Answer, Asked, Entry, Log, PushPair, Refusal};
use group_server::{GroupServer, Opening, Parts, Reply, ServerOpened};
use group_terms::{Octets, Phase1};

/// Only what may be handed to another thread.
fn sends<T: Send>() {}

/// A server, that is its core over its disk with its rules and its sessions; what it is made of, opened with and closed to; and what it is handed and
/// answers, which is what its history has.
pub fn a_server_crosses_threads<D: Disk + Send, G: Signer + Send, R: Draws + Send>() {
    sends::<GroupServer<D, G, R>>();
    sends::<(Parts<D, G, R>, Opening<D, G, R>, ServerOpened<D, G, R>)>();
    sends::<(Phase1, Octets, Asked)>();
    sends::<(Reply, PushPair, Refusal, Answer)>();
    sends::<Log<Entry>>();
}
