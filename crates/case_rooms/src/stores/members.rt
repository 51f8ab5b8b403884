//! A member with its store.
ghost use Rattle.member_store.specs.Stores.{IsReply};

use case_lines::Text;
use gd_edges::TestVerifier;
use group_terms::{Keyed, MemberName};
use member_store::{MemberStore, Room, Taken};

/// A member that was told its keys.
#[derive(Drop)]
pub struct Member {
    pub name: MemberName,
    store: MemberStore,
}

impl Member {
    /// A member that is told its keys, with a line on it.
    pub fn new(name: MemberName, keyed: Keyed, text: &mut Text) -> Self
        requires { IsReply keyed }
    {
        let store = MemberStore::new(keyed);
        let member = Member { name, store };
        member.add_name(text);
        text.add("made");
        member.add_state(text);
        member
    }

    /// Tells it its keys again, and says what comes of it.
    pub fn renew(&mut self, keyed: Keyed, text: &mut Text)
        requires { IsReply keyed }
    {
        self.add_name(text);
        match self.store.renew(keyed) {
            Ok(()) => text.add("renewed"),
            Err(older) => text.add_value(&older),
        }
        self.add_state(text);
    }

    /// Gives it a datagram, and says what comes of it.
    pub fn give(&mut self, datagram: &[u8], room: &mut Room, text: &mut Text) {
        self.add_name(text);
        match self.store.accept(datagram, &TestVerifier::new(), room) {
            Ok(Taken::Root { .. }) => text.add("root"),
            Ok(Taken::Traffic { .. }) => text.add("traffic"),
            Err(refusal) => text.add_value(&refusal),
        }
        self.add_state(text);
    }

    /// `leaf POSITION CIPHER-KEY INTEGRITY-KEY SPI`.
    pub fn add_keys(&self, text: &mut Text) {
        self.add_name(text);
        text.add("leaf");
        text.add_numbers(&[u64::from(self.store.leaf().number())]);
        let traffic = self.store.traffic_key();
        text.add_octets(&[&traffic.cipher_key, &traffic.integrity_key, &traffic.spi]);
        self.add_state(text);
    }

    fn add_name(&self, text: &mut Text) {
        text.add(" / ");
        text.add_letters(self.name.text());
        text.add(" ");
    }

    /// ` ROOT-EPOCH TRAFFIC-EPOCH LAST`.
    fn add_state(&self, text: &mut Text) {
        text.add_numbers(&[
            u64::from(self.store.root_epoch()),
            u64::from(self.store.traffic_epoch()),
            u64::from(self.store.last_sequence()),
        ]);
    }
}
