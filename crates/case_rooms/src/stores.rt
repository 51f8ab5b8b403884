//! Gives datagrams to the stores of members.
//!
//! ```text
//! store case NAME              nobody has a store
//! store tell NAME LAST OCTETS  a member is told its keys: the last number that was used, and the body of the key download that a registration ends with
//!                              (RFC 6407 section 5.6)
//! store push OCTETS            each store is given a datagram, in the order in which they were made
//! store keys                   the leaf and the traffic key of each store
//! ```
//!
//! Of each store there is its member, what came of it, and after that the epochs of the keys of its root and of the traffic, and its last number.
ghost use Rattle.std.specs.Prelude.{◌<◌, vec_len, IfSome};
ghost use Rattle.member_store.specs.Stores.{IsReply};

use crate::stores::members::Member;
use crate::stores::replies::read_reply;
use case_lines::{Text, number, octets, put};
use group_terms::{Keyed, MemberName, NoMemory};
use member_store::Room;
use std::alloc::Global;

mod members;
mod replies;

/// The members that have stores, in the order in which these were made, and the room in which they open datagrams.
#[derive(Drop)]
pub struct Stores {
    list: Vec<Member>,
    room: Room,
}

impl Stores {
    /// Nobody has a store.
    pub fn new(alloc: Global) -> Result<Self, NoMemory> {
        let room = Room::new(alloc)?;
        Ok(Stores {
            list: Vec::new(alloc),
            room,
        })
    }

    /// Does what these words ask for, and appends the answer. `None` where they ask for nothing that can be done.
    pub fn answer(&mut self, alloc: Global, words: &[&str], text: &mut Text) -> Option<()> {
        let (word, rest) = words.split_first()?;
        text.add(word);
        match *word {
            "case" => self.begin(alloc, rest, text),
            "tell" => self.tell(alloc, rest, text),
            "push" => self.push(alloc, rest, text),
            "keys" => {
                self.add_keys(text);
                Some(())
            }
            _ => None,
        }
    }

    fn begin(&mut self, alloc: Global, words: &[&str], text: &mut Text) -> Option<()> {
        let [name] = words else {
            return None;
        };
        put(&mut self.list, Vec::new(alloc));
        text.add(" ");
        text.add(name);
        Some(())
    }

    fn tell(&mut self, alloc: Global, words: &[&str], text: &mut Text) -> Option<()> {
        let [name, last, body] = words else {
            return None;
        };
        let (name, last) = (MemberName::read(name.as_bytes())?, number(last)?);
        let keyed = read_reply(alloc, last, body)?;
        self.keep(name, keyed, text)
    }

    /// Makes the store of a member, or makes it anew.
    fn keep(&mut self, name: MemberName, keyed: Keyed, text: &mut Text) -> Option<()>
        requires { IsReply keyed }
    {
        match self.place(&name) {
            Some(place) => {
                self.list[place].renew(keyed, text);
                Some(())
            }
            None => self.list.push(Member::new(name, keyed, text)).ok(),
        }
    }

    /// Where a member is in the list.
    fn place(&self, name: &MemberName) -> Option<usize>
        ensures { IfSome result (λ place. place < vec_len self.now.list) }
    {
        self.list.iter().position(|member| member.name == *name)
    }

    fn push(&mut self, alloc: Global, words: &[&str], text: &mut Text) -> Option<()> {
        let [datagram] = words else {
            return None;
        };
        let datagram = octets(alloc, datagram)?;
        for member in self.list.iter_mut() {
            member.give(datagram.as_slice(), &mut self.room, text);
        }
        drop(datagram);
        Some(())
    }

    fn add_keys(&self, text: &mut Text) {
        for member in self.list.iter() {
            member.add_keys(text);
        }
    }
}
