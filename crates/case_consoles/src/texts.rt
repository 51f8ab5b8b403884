//! How runs are told.

use case_lines::Text;
use console_run::Ending;
use sha2::{Digest, Sha256};
use std::alloc::Global;

/// The report of a run, its status and the line at which it ended, and the journal that it left. `None` where runs are not told so.
pub fn add_run(
    detail: &str,
    report: &[u8],
    ending: Ending,
    journal: &[u8],
    text: &mut Text,
) -> Option<()> {
    match detail {
        "octets" | "report" => text.add_letters(report),
        "hashes" => add_octets("report ", report, &Sha256::digest(report), text),
        "outline" => add_outline(report, text),
        "batches" => add_batches(report, text),
        _ => return None,
    }
    add_ending(ending, text);
    match detail {
        "batches" | "report" => {}
        "hashes" => add_octets("journal ", journal, &Sha256::digest(journal), text),
        _ => add_octets("journal ", journal, journal, text),
    }
    Some(())
}

fn add_ending(ending: Ending, text: &mut Text) {
    text.add("status ");
    text.add_number(u64::from(ending.status()));
    text.add(" line ");
    text.add_number(u64::from(ending.line()));
    text.add("\n");
}

/// The size of octets, and these or their SHA-256 in hexadecimal, with `-` for none.
fn add_octets(what: &str, octets: &[u8], shown: &[u8], text: &mut Text) {
    text.add(what);
    text.add_number(octets.len() as u64);
    text.add(if shown.is_empty() { " -" } else { " " });
    text.add_hex(shown);
    text.add("\n");
}

/// A report with `#` for the octets of each push; there is no line after the last line feed.
fn add_outline(report: &[u8], text: &mut Text) {
    for line in report.split(|octet| *octet == b'\n') {
        if line.starts_with(b"push ") {
            add_push(line, text);
        } else if !line.is_empty() {
            text.add_letters(line);
            text.add("\n");
        }
    }
}

/// The number of a push and its length.
fn add_push(line: &[u8], text: &mut Text) {
    for word in line.split(|octet| *octet == b' ').take(3) {
        text.add_letters(word);
        text.add(" ");
    }
    text.add("#\n");
}

/// How many batches a report has, and how many that were refused.
fn add_batches(report: &[u8], text: &mut Text) {
    text.add_named("batches ", lines_with(report, b"epoch "));
    text.add_named(" refused ", lines_with(report, b"batch refused "));
    text.add("\n");
}

/// How many lines begin so.
pub fn lines_with(report: &[u8], beginning: &[u8]) -> u64 {
    let mut count = 0u64;
    for line in report.split(|octet| *octet == b'\n') {
        if line.starts_with(beginning) {
            count = count.saturating_add(1);
        }
    }
    count
}

/// Whether a run is told by octets that are due, which the SHA-256 of them says. One that is not is told in full.
pub fn add_due(
    alloc: Global,
    due: &[String],
    report: &[u8],
    ending: Ending,
    journal: &[u8],
    text: &mut Text,
) -> Option<()> {
    let mut told = Text::new(alloc);
    add_run("octets", report, ending, journal, &mut told)?;
    if is_due(alloc, due, &told) {
        text.add("due\n");
    } else {
        text.add("not due\n");
        text.add_text(&told);
    }
    Some(())
}

fn is_due(alloc: Global, due: &[String], told: &Text) -> bool {
    let mut hash = Text::new(alloc);
    match told.whole() {
        Some(told) => hash.add_hex(&Sha256::digest(told.as_bytes())),
        None => hash.lose(),
    }
    match hash.whole() {
        Some(hash) => is_among(due, hash),
        None => false,
    }
}

fn is_among(due: &[String], hash: &str) -> bool {
    due.iter().any(|one| one.as_str() == hash)
}

/// Whether a report begins with the opening of a group, of depth 2, that has so many batches or one more.
pub fn add_kept(alloc: Global, report: &[u8], batches: u64, text: &mut Text) -> Option<()> {
    let kept = opens_at(alloc, report, batches)
        | opens_at(alloc, report, batches.saturating_add(1));
    text.add(if kept { "kept\n" } else { "lost\n" });
    Some(())
}

fn opens_at(alloc: Global, report: &[u8], epoch: u64) -> bool {
    let mut beginning = Text::new(alloc);
    beginning.add_named("open depth 2 epoch ", epoch);
    beginning.add(" ");
    match beginning.whole() {
        Some(beginning) => report.starts_with(beginning.as_bytes()),
        None => false,
    }
}
