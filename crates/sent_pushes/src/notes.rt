//! Notes by rising number.
ghost use Rattle.std.specs.Prelude.{◌≡◌, ◌≢◌, ◌+◌, ◌<◌, ◌≤◌, length, vec_len, vec_capacity, IsTrue, IsFalse};
ghost use Rattle.std.specs.List.{position_or_len};
ghost use Rattle.sent_pushes.specs.Notes.{Rises, is_after, noted, place_of};
ghost use Rattle.sent_pushes.specs.Notes as of;
ghost use Rattle.sent_pushes.specs.Private.Searches.{is_from, number_at};

/// Where the last push of a number was sent.
#[derive(Clone, Copy, PartialEq, Eq)]
pub struct Note {
    pub number: u32,
    pub place: usize,
}

/// Puts a note among those that rise, in place of the one of its number; there has to be room.
pub(crate) fn put(notes: &mut Vec<Note>, note: Note)
    requires rises { Rises notes.old.items }
    requires room { vec_len notes.old < vec_capacity notes.old }
    ensures items { notes.new.items ≡ noted notes.old.items note.number note.place }
    ensures len { vec_len notes.new ≤ vec_len notes.old + 1 }
    ensures capacity { vec_capacity notes.old ≤ vec_capacity notes.new }
{
    let at = first_from(notes, note.number);
    if is_at(notes, at, note.number) {
        notes[at] = note;
    } else {
        let _ = notes.insert(at, note);
    }
}

/// The place of the note of a number.
pub(crate) fn find(notes: &[Note], number: u32) -> Option<usize>
    requires { Rises notes.now }
    ensures { result ≡ place_of notes.now number }
{
    let at = first_from(notes, number);
    if is_at(notes, at, number) {
        Some(notes[at].place)
    } else {
        None
    }
}

/// The least number that is greater than this one.
pub(crate) fn next_after(notes: &[Note], number: u32) -> Option<u32>
    requires { Rises notes.now }
    ensures { result ≡ of.next_after notes.now number }
{
    let at = first_after(notes, number);
    if at < notes.len() {
        Some(notes[at].number)
    } else {
        None
    }
}

/// Whether the note at a place has this number.
fn is_at(notes: &[Note], at: usize, number: u32) -> bool
    ensures there { IsTrue result → at < length notes.now }
    ensures same { IsTrue result → number_at notes.now at ≡ number }
    ensures other { IsFalse result → at < length notes.now → number_at notes.now at ≢ number }
{
    at < notes.len() && notes[at].number == number
}

/// Where the first note of this or a greater number is; past the last one where there is none.
fn first_from(notes: &[Note], number: u32) -> usize
    requires { Rises notes.now }
    ensures at { result ≡ position_or_len (is_from number) notes.now }
    ensures within { result ≤ length notes.now }
{
    notes.partition_point(|note| note.number < number)
}

/// Where the first note of a greater number is; past the last one where there is none.
fn first_after(notes: &[Note], number: u32) -> usize
    requires { Rises notes.now }
    ensures { result ≡ position_or_len (is_after number) notes.now }
{
    notes.partition_point(|note| note.number <= number)
}
