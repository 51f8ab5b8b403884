//! Texts that are put together.

use std::alloc::Global;
use std::fmt::Debug;

/// A text that is put together piece by piece. Where memory runs out a piece is left out, and the text is no longer whole: who appends need not look
/// whether each piece was kept.
#[derive(Drop)]
pub struct Text {
    text: String,
    whole: bool,
}

impl Text {
    pub fn new(alloc: Global) -> Self {
        Text {
            text: String::new(alloc),
            whole: true,
        }
    }

    /// The text, if nothing was left out.
    pub fn whole(&self) -> Option<&str> {
        if self.whole {
            Some(self.text.as_str())
        } else {
            None
        }
    }

    /// Notes that something was left out.
    pub fn lose(&mut self) {
        self.whole = false;
    }

    pub fn add(&mut self, piece: &str) {
        if self.text.push_str(piece).is_err() {
            self.whole = false;
        }
    }

    /// Appends another text.
    pub fn add_text(&mut self, other: &Text) {
        match other.whole() {
            Some(piece) => self.add(piece),
            None => self.lose(),
        }
    }

    /// Appends a number in decimal.
    pub fn add_number(&mut self, number: u64) {
        if write!(self.text, "{number}").is_err() {
            self.whole = false;
        }
    }

    /// Appends words, and behind them a number in decimal.
    pub fn add_named(&mut self, words: &str, number: u64) {
        self.add(words);
        self.add_number(number);
    }

    /// Appends a line: words, how many octets there are, and these in hexadecimal.
    pub fn add_message(&mut self, words: &str, octets: &[u8]) {
        self.add_named(words, octets.len() as u64);
        self.add(" ");
        self.add_hex(octets);
        self.add("\n");
    }

    /// Appends octets in hexadecimal.
    pub fn add_hex(&mut self, octets: &[u8]) {
        for octet in octets {
            self.add_octet(*octet);
        }
    }

    fn add_octet(&mut self, octet: u8) {
        if write!(self.text, "{octet:02x}").is_err() {
            self.whole = false;
        }
    }

    /// Appends numbers in decimal, a space before each.
    pub fn add_numbers(&mut self, numbers: &[u64]) {
        for number in numbers {
            self.add(" ");
            self.add_number(*number);
        }
    }

    /// Appends texts of octets in hexadecimal, a space before each, with `-` for one of no octets.
    pub fn add_octets(&mut self, texts: &[&[u8]]) {
        for octets in texts {
            self.add(if octets.is_empty() { " -" } else { " " });
            self.add_hex(octets);
        }
    }

    /// Appends a value as its type shows it.
    pub fn add_value<T: Debug>(&mut self, value: &T) {
        if write!(self.text, "{value:?}").is_err() {
            self.whole = false;
        }
    }

    /// Appends letters, digits and other characters of one octet each.
    pub fn add_letters(&mut self, letters: &[u8]) {
        for letter in letters {
            self.add_letter(*letter);
        }
    }

    fn add_letter(&mut self, letter: u8) {
        if self.text.push(char::from(letter)).is_err() {
            self.whole = false;
        }
    }
}
