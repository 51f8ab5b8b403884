//! Asks what journals are. An image is the octets of a file. `journal` answers with the sizes of its records, and with depth, batches, epoch and last number
//! of its group; `group` with what is written of the head and of each batch that are read, and then with the same. A refusal is in place of what could not
//! be read, after what was.
//!
//! ```text
//! journal OCTETS
//! group OCTETS
//! append PATH COUNT
//! open PATH
//! ```
//!
//! The others work on the file at a path, so that the time of it can be taken from outside. `append` makes an empty journal of the file, whatever that held,
//! and appends so many records with bodies of 300 octets. `open` reads all batches of a group.

use crate::groups::disk_with;
use crate::journals::groups::read_group;
use crate::journals::records::{append, read_records};
use case_lines::{Text, number};
use file_disks::FileDisk;
use std::alloc::Global;
use tree_journal::JournalRefusal;

pub mod forms;
mod groups;
mod records;

/// What a word asks of an image. `None` where the words ask for nothing that can be done.
pub fn ask_image(alloc: Global, word: &str, rest: &[&str], text: &mut Text) -> Option<()> {
    let [image] = rest else {
        return None;
    };
    let shows = word == "group";
    text.add(word);
    if !shows {
        add_read(read_records(alloc, disk_with(alloc, image)?, text), text);
    }
    add_read(
        read_group(alloc, disk_with(alloc, image)?, shows, text),
        text,
    );
    Some(())
}

/// Why something was not read to its end.
fn add_read(read: Result<(), JournalRefusal>, text: &mut Text) {
    if let Err(why) = read {
        text.add(" ");
        text.add_value(&why);
    }
}

/// What a word asks of the file at a path.
pub fn ask_file(rt: &HostRuntime, word: &str, rest: &[&str], text: &mut Text) -> Option<()> {
    let (path, rest) = rest.split_first()?;
    let disk = FileDisk::new(rt.alloc(), rt, path).ok()?;
    text.add(word);
    match rest {
        [count] if word == "append" => append(rt.alloc(), disk, number(count)?, text),
        _ => {
            add_read(read_group(rt.alloc(), disk, false, text), text);
            Some(())
        }
    }
}
