//! Writes and reads payloads, pushes and messages of pulls. Each line of standard input asks for one thing by its first two words; its last word is octets in
//! hexadecimal (`-` for none), and between them are numbers and other octets. What is written is answered as octets, and what is refused in words.
//! Known texts are as another implementation writes them. What is read of headers, attributes and chains, and where a faulty one has its fault, are lines of
//! `case_rooms`.
//!
//! ```text
//! write payload NEXT 0 OCTETS           the payload with this body
//! write head NEXT SIZE -                the head of a payload
//! write short KIND NUMBER -             an attribute
//! write long KIND 0 OCTETS              an attribute
//! write sequence NUMBER 0 -             a body
//! write identification TYPE 0 OCTETS    a body
//! write padding 0 0 OCTETS              the octets, and the zeros that fill the last block
//! read header EXCHANGE OCTETS           the header of a datagram, written again
//! read part KIND OCTETS                 what is read of a body whose payload is at place 28
//! read sa BASE OCTETS                   the policies with the places of their numbers, the body's size, and the body written again
//! read kd BASE OCTETS                   where the SPIs are, the body's size and the body written again; or the keys that its arrays give
//! read wraps BASE OCTETS                a body with each key of this body's path under the key before it
//! read updates COUNT -                  how many octets a body with so many update arrays has
//! open push SPI IV KEY LAST KIND OCTETS        a push, whose signature is accepted if it is that of tests
//! open unsigned SPI IV KEY LAST KIND OCTETS    a push, whose signature is not accepted
//! open membership SPI IV KEY COUNT KIND OCTETS a push with so many times these update arrays is written and opened
//! message first COOKIES SKEYID-A KEY LAST MESSAGE IV NI NR SPI OCTETS    is read by who knows this; so are `second`, `third` and `fourth`
//! pull begin COOKIES SKEYID-A KEY LAST MESSAGE NI -    a pull for the group `console`, which the lines after it go on with
//! pull answer OCTETS                    gives it the second message
//! pull keys OCTETS                      gives it the fourth message
//! ```
#![tactic(auto)]

ghost use Rattle.std.specs.Prelude.{⊤, ◌≤◌, length};

use case_lines::{Cases, Text, answer_all, octets};
use group_terms::{NoMemory, Octets};
use member_pull::MemberPull;
use push_msg::Room;
use std::alloc::Global;
use std::io;
use std::io::ErrorKind;

mod bodies;
mod frames;
mod members;
mod pulls;
mod pushes;
mod words;

fn main(rt: HostRuntime) -> io::Result<()> {
    match Room::new(rt.alloc()) {
        Ok(room) => answer_all(&rt, Case { room, pull: None }),
        Err(NoMemory) => Err(ErrorKind::OutOfMemory.into()),
    }
}

/// The room in which pushes are opened, and the pull that began last.
#[derive(Drop)]
struct Case {
    room: Room,
    pull: Option<MemberPull>,
}

impl Cases for Case {
    // a line may come at any time
    ghost Ready = { λ _. ⊤ };

    fn answer(&mut self, rt: &HostRuntime, words: &[&str], text: &mut Text) -> Option<()> {
        let [word, what, rest @ .., last] = words else {
            return None;
        };
        let octets = octets(rt.alloc(), last)?;
        let mut out = Octets::new(rt.alloc());
        let few = &octets[..octets.len().min(65_507)];
        let asked = self.ask(rt.alloc(), word, what, rest, few, &mut out, text);
        text.add_hex(out.as_slice());
        text.add("\n");
        asked
    }
}

impl Case {
    /// Does what two words ask for with other words and the octets of a datagram at most, and answers in words or by octets that are written.
    fn ask(
        &mut self,
        alloc: Global,
        word: &str,
        what: &str,
        rest: &[&str],
        octets: &[u8],
        out: &mut Octets,
        text: &mut Text,
    ) -> Option<()>
        requires { length octets.now ≤ 65507 }
    {
        match word {
            "write" => frames::write(what, rest, octets, out),
            "read" => frames::read(alloc, what, rest, octets, out, text),
            "open" => pushes::open(alloc, what, rest, octets, &mut self.room, text),
            "message" => pulls::read(alloc, what, rest, octets, out, text),
            _ => members::ask(alloc, what, rest, octets, &mut self.pull, out, text),
        }
    }
}
