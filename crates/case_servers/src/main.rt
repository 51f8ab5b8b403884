//! Calls a key server. Each line of standard input is one call, and is answered by what the server says. Octets are in hexadecimal (`-` for none):
//!
//! ```text
//! group DEPTH LIMIT SAS SEED CALL ..           a group on an empty disk that fails at these of its calls, with draws of a seed; it has room for so many SAs
//! open SAS                                     the group is closed, and opened from its disk: without a rule, and without an SA
//! allow PATTERN
//! deny PATTERN
//! introduce NAME COOKIES SKEYID-A KEY LAST     introduces an SA
//! fill COUNT                                   introduces SAs of the first numbers, with keys that all have
//! serve OCTETS                                 gives the server a datagram
//! leave NAME
//! batch
//! halt
//! reopen
//! leaf NUMBER                                  who has a leaf
//! state                                        the depth of the tree, the place of the draws, and what else is known of the group
//! sessions LIMIT NAME COOKIES SKEYID-A KEY LAST SPI ALGORITHM BITS SPI NR STEP OCTETS ..
//! ```
//!
//! The last one asks the sessions of a server by themselves, which have room for so many SAs and have one introduced: in the steps `begin` and `queue` first
//! messages are answered with these policies and this nonce, and third messages wait. After each there is what is held of the member.
//!
//! A number outside its limits counts as the nearest one within. `bench/server_lines.py` makes the lines and the answers that are due.
#![tactic(auto)]

ghost use Rattle.std.specs.Prelude.{⊤};

use asks::ask;
use case_lines::{Cases, Text, answer_all, number, put};
use crossings::a_server_crosses_threads;
use gd_disk::MemDisk;
use gd_edges::{ChaChaDraws, TestSigner};
use group_model::Refusal;
use group_server::ServerOpened;
use groups::{TestOpened, TestServer, calls, create, open, read_plan};
use shown::{show_pair, show_refused};
use std::alloc::Global;
use std::io;

mod asks;
mod crossings;
mod groups;
mod sessions;
mod shown;

fn main(rt: HostRuntime) -> io::Result<()> {
    a_server_crosses_threads::<MemDisk, TestSigner, ChaChaDraws>();
    answer_all(&rt, Case { server: None })
}

/// The group, if there is one.
#[derive(Drop)]
struct Case {
    server: Option<TestServer>,
}

impl Cases for Case {
    // a line may come at any time
    ghost Ready = { λ _. ⊤ };

    fn answer(&mut self, rt: &HostRuntime, words: &[&str], text: &mut Text) -> Option<()> {
        let (word, rest) = words.split_first()?;
        let alloc = rt.alloc();
        match *word {
            "group" => self.make(alloc, rest, text),
            "open" => self.open(alloc, rest, text),
            "sessions" => sessions::ask(alloc, rest, text),
            word => match &mut self.server {
                Some(server) => ask(alloc, server, word, rest, text),
                None => None,
            },
        }
    }
}

impl Case {
    /// Makes another group.
    fn make(&mut self, alloc: Global, words: &[&str], text: &mut Text) -> Option<()> {
        let (numbers, fails) = words.split_at_checked(4)?;
        let plan = read_plan(numbers)?;
        let fails = calls(alloc, fails)?;
        put(&mut self.server, made(create(alloc, &plan, fails), text));
        Some(())
    }

    /// Closes the group, and opens it.
    fn open(&mut self, alloc: Global, words: &[&str], text: &mut Text) -> Option<()> {
        let [sas] = words else {
            return None;
        };
        let sas = number(sas)?;
        let server = self.server.take()?;
        put(&mut self.server, opened(open(alloc, server, sas), text));
        Some(())
    }
}

/// The server that was made, or none.
fn made(made: Result<TestServer, Refusal>, text: &mut Text) -> Option<TestServer> {
    match made {
        Ok(server) => {
            text.add("made\n");
            Some(server)
        }
        Err(why) => {
            show_refused(why, text);
            None
        }
    }
}

/// The server that was opened, or none; with the pair that was sent again.
fn opened(opened: Result<TestOpened, Refusal>, text: &mut Text) -> Option<TestServer> {
    match opened {
        Ok(ServerOpened { server, resent }) => {
            text.add("opened\n");
            show_pair(&resent, text);
            drop(resent);
            Some(server)
        }
        Err(why) => {
            show_refused(why, text);
            None
        }
    }
}
