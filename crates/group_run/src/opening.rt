//! Making a group, and opening one from its journal.
ghost use Rattle.std.specs.Prelude.{◌≡◌, ◌≤◌, ◌+◌, ◌<◌, ◌^◌, ℕ, [], ◌∷◌, IfSome, IfOk, IfErr, OnOk, OnErr};
ghost use Rattle.group_terms.specs.Names.{Name};
ghost use Rattle.group_model.specs.declared.entries.Answer.TheVariants as answers;
ghost use Rattle.group_model.specs.declared.entries.Asked.TheVariants as requests;
ghost use Rattle.gcks_core.specs.Stands.{Stands};
ghost use Rattle.group_model.specs.Servers.{Server};
ghost use Rattle.server_steps.specs.Entries.{noted};
ghost use Rattle.server_steps.specs.Hosts.{Host};
ghost use Rattle.server_steps.specs.Openings.{IsBeginning, IsCreation};
ghost use Rattle.server_steps.specs.Reflects.{IsServerOf};
ghost use Rattle.server_steps.specs.Sent.{pair_by};
ghost use Rattle.server_steps.specs.Serves.{answer_reopened};
ghost use Rattle.member_steps.specs.Members.{nobody};
ghost use Rattle.group_steps.specs.Runs.{no_run, outset_of};
ghost use Rattle.group_run.specs.Stays.{MailStays, RulesStay};
ghost use Rattle.group_run.specs.Moves.{Serves};
ghost use Rattle.group_run.specs.Mails.{mail_of_answer};
ghost use Rattle.group_run.specs.Openings.{FailsToOpen, Opens};
ghost use Rattle.group_run.specs.Private.Boards.{IsShown};

use crate::boards::Board;
use crate::sending::note_pushes;
use crate::unread::Unread;
use crate::{GroupRun, Unopened};
use gd_disk::Disk;
use gd_edges::{Draws, Signer};
use group_model::{Answer, Asked, Entry, List, Log, NoMemory, PushPair, Refusal};
use group_server::{GroupServer, NewGroup, Opening, Parts, ServerOpened};
use member_steps::Members;
use sent_pushes::SentPushes;
use server_steps::{ShowRoom, a_reopening_is_served, entry};
use std::alloc::Global;
use sym_closure::{Sent, what_is_known_stays_known};

/// All memory that an opening takes, but for what the core takes.
#[derive(Drop)]
struct Ready {
    members: Members,
    pushes: SentPushes,
    board: Board,
    entries: Log<Entry>,
    ghost nobody: { members.all ≡ [] },
    ghost no_pushes: { pushes.items ≡ [] },
    ghost nothing_shown: { IsShown board [] },
    ghost room_for_pushes: { 2 ≤ pushes.spare },
    ghost no_entries: { entries.items ≡ [] },
    ghost room_for_entry: { 1 ≤ entries.spare },
}

impl<D: Disk, G: Signer, R: Draws> GroupRun<D, G, R> {
    /// Makes a group (RFC 2627 section 5.4) on the disk of these parts, whatever that held: its depth is 1 to 9, and its limit at least 1. Where that is
    /// refused (`DiskFault`, `NoMemory`), the parts come back with the entry that says so, or with none where nothing was done.
    pub fn create(
        alloc: Global,
        parts: Parts<D, G, R>,
        group: &NewGroup,
        phases: u32,
        members_place: u64,
    ) -> Result<Self, Unopened<D, G, R>>
        requires some { 1 ≤ phases }
        requires few { phases ≤ 65536 }
        requires shallow { 1 ≤ group.now.depth }
        requires not_deep { group.now.depth ≤ 9 }
        requires limited { 1 ≤ group.now.limit }
        ensures ok { IfOk result (Opens D.Disk R.Draws (IsCreation D.Disk (R.block_at parts.draws) group.now.depth) (requests.Create group.now.depth)
            (no_run (outset_of parts.disk group.now.name group.now.limit (R.place_of parts.draws) members_place phases))) }
        ensures begins { IfOk result (λ run. (run.server.rules ≡ []) × (run.members.mail ≡ []) × (run.members.place ≡ members_place)) }
        ensures goes_on { IfOk result (λ run. (run.server.core.signer ≡ parts.signer) × ((k : ℕ) → R.block_at run.server.core.draws k ≡ R.block_at parts.draws k)) }
        ensures err { IfErr result (λ unopened. FailsToOpen D.Disk (IsCreation D.Disk (R.block_at parts.draws) group.now.depth)
            (requests.Create group.now.depth) (no_run (outset_of parts.disk group.now.name group.now.limit (R.place_of parts.draws) members_place phases))
            unopened.history unopened.parts.disk) }
    {
        let Ok((ready, room)) = make_ready(alloc, members_place) else {
            let history = List::new(alloc);
            return Err(Unopened { history, parts });
        };
        let asked = Asked::Create { depth: group.depth };
        let place = parts.draws.place();
        match GroupServer::create(alloc, parts, group, phases) {
            Ok(server) => {
                let answer = server.show_opened(None, room);
                Ok(opened(alloc, server, answer, asked, place, ready))
            }
            Err(opening) => Err(refused(opening, asked, place, ready)),
        }
    }

    /// Opens the group on the disk of these parts. Where that is refused (`DiskFault`, `NotAJournal` with its place, `NoMemory`), the parts come back as where
    /// none is made.
    pub fn open(
        alloc: Global,
        parts: Parts<D, G, R>,
        phases: u32,
        members_place: u64,
    ) -> Result<Self, Unopened<D, G, R>>
        requires some { 1 ≤ phases }
        requires few { phases ≤ 65536 }
        ensures ok { IfOk result (λ run. (name : Name) (limit : ℕ) → Opens D.Disk R.Draws (IsBeginning D.Disk G.Signer parts.signer) requests.Begin
            (no_run (outset_of parts.disk name limit (R.place_of parts.draws) members_place phases)) run) }
        ensures begins { IfOk result (λ run. (run.server.rules ≡ []) × (run.members.mail ≡ []) × (run.members.place ≡ members_place)) }
        ensures goes_on { IfOk result (λ run. (run.server.core.signer ≡ parts.signer) × ((k : ℕ) → R.block_at run.server.core.draws k ≡ R.block_at parts.draws k)) }
        ensures err { IfErr result (λ unopened. (name : Name) (limit : ℕ) → FailsToOpen D.Disk (IsBeginning D.Disk G.Signer parts.signer) requests.Begin
            (no_run (outset_of parts.disk name limit (R.place_of parts.draws) members_place phases)) unopened.history unopened.parts.disk) }
    {
        let Ok((ready, room)) = make_ready(alloc, members_place) else {
            let history = List::new(alloc);
            return Err(Unopened { history, parts });
        };
        let place = parts.draws.place();
        match GroupServer::open(alloc, parts, phases) {
            Ok(ServerOpened { server, resent }) => {
                let answer = server.show_opened(resent, room);
                Ok(opened(alloc, server, answer, Asked::Begin, place, ready))
            }
            Err(opening) => Err(refused(opening, Asked::Begin, place, ready)),
        }
    }

    /// Opens the group again, from its journal. Where memory runs out, the history may have it as refused for that.
    pub fn reopen(&mut self, alloc: Global) -> Result<(), NoMemory>
        ensures ok { OnOk result (Serves D.Disk G.Signer R.Draws self.old.members requests.Reopen self.old self.new) }
        ensures stays { OnOk result (RulesStay self.old self.new) }
        ensures rest { OnOk result (self.new.members.mail ≡ []) }
        ensures err { OnErr result (self.new ≡ self.old) }
    {
        what_is_known_stays_known();
        a_reopening_is_served::<D, G, R>();
        self.entries.reserve(1)?;
        self.pushes.reserve(2)?;
        let place = self.server.draws_at();
        let room = ShowRoom::new(alloc)?;
        let reopened = self.server.reopen(alloc);
        let answer = answer_reopened(&self.server, reopened, room);
        note_pushes(&mut self.pushes, &answer, self.entries.items().len());
        self.entries.add(entry(Asked::Reopen, answer, place));
        self.unread = Unread {
            place: self.entries.items().len(),
            taken: 0,
        };
        Ok(())
    }
}

fn make_ready(alloc: Global, members_place: u64) -> Result<(Ready, ShowRoom), NoMemory>
    ensures { IfOk result (λ made. made.0.members.place ≡ members_place) }
{
    let room = ShowRoom::new(alloc)?;
    let (pushes, entries) = make_notes(alloc)?;
    let (members, board) = make_members(alloc, members_place)?;
    let ready = Ready {
        members,
        pushes,
        board,
        entries,
    };
    Ok((ready, room))
}

/// Room for the pushes and the entry of an opening.
fn make_notes(alloc: Global) -> Result<(SentPushes, Log<Entry>), NoMemory>
    ensures pushes { IfOk result (λ notes. (notes.0.items ≡ []) × (2 ≤ notes.0.spare)) }
    ensures entries { IfOk result (λ notes. (notes.1.items ≡ []) × (1 ≤ notes.1.spare)) }
{
    let mut pushes = SentPushes::new(alloc);
    pushes.reserve(2)?;
    let mut entries = Log::of(List::new(alloc));
    entries.reserve(1)?;
    Ok((pushes, entries))
}

/// Nobody yet, and a board that showed nothing.
fn make_members(alloc: Global, place: u64) -> Result<(Members, Board), NoMemory>
    ensures members { IfOk result (λ made. (made.0.all ≡ []) × (made.0.place ≡ place)) }
    ensures board { IfOk result (λ made. IsShown made.1 []) }
{
    let members = Members::new(alloc, place)?;
    let board = Board::new(alloc)?;
    Ok((members, board))
}

/// The answer of a server that was opened again, or not.
fn answer_reopened<D: Disk, G: Signer, R: Draws>(
    server: &GroupServer<D, G, R>,
    reopened: Result<Option<PushPair>, Refusal>,
    room: ShowRoom,
) -> Answer
    ensures { (one : Server) → Stands R.Draws server.now.core one → result ≡ answer_reopened one reopened }
{
    match reopened {
        Ok(resent) => server.show_opened(resent, room),
        Err(why) => Answer::Refused { why },
    }
}

/// The run of a server that was just made or opened, with this answer.
fn opened<D: Disk, G: Signer, R: Draws>(
    alloc: Global,
    server: GroupServer<D, G, R>,
    answer: Answer,
    asked: Asked,
    place: u64,
    ready: Ready,
) -> GroupRun<D, G, R>
    requires host { (host : Host D) × IsServerOf D.Disk R.Draws server host }
    requires nobody { server.sessions.sas ≡ [] }
    requires silent { mail_of_answer asked answer ≡ [] }
    requires fits { IfSome (pair_by answer) (λ pair. pair.first + 1 < 2 ^ 32) }
    ensures { result ≡ record { server = server; members = nobody ready.members.place; entries = noted asked answer place ∷ [] } }
{
    let Ready {
        members,
        mut pushes,
        board,
        mut entries,
    } = ready;
    note_pushes(&mut pushes, &answer, 0);
    entries.add(entry(asked, answer, place));
    let sent = Sent::new(alloc);
    GroupRun {
        server,
        members,
        unread: Unread { place: 0, taken: 0 },
        sent,
        pushes,
        board,
        entries,
    }
}

/// What is left where no group was made or opened.
fn refused<D, G, R>(
    opening: Opening<D, G, R>,
    asked: Asked,
    place: u64,
    ready: Ready,
) -> Unopened<D, G, R>
    ensures history { result.history ≡ noted asked (answers.Refused opening.refusal) place ∷ [] }
    ensures parts { result.parts ≡ opening.parts }
{
    let Opening {
        refusal: why,
        parts,
    } = opening;
    let Ready { mut entries, .. } = ready;
    entries.add(entry(asked, Answer::Refused { why }, place));
    Unopened {
        history: entries.into_list(),
        parts,
    }
}
