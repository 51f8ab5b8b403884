//! A source in memory.
ghost use Rattle.std.specs.Prelude.{◌≡◌, ◌<◌, ◌≤◌, min, length, take, drop, ◌++◌, Some, Ok, is_err, IfOk, OnOk, OnErr, if◌then◌else◌};
ghost use Rattle.std.specs.Io.KnownBytes.{Consumes, Keeps, IsAtEnd};
ghost use Rattle.group_terms.specs.Faults.{Rose, one_more, fails_next};

use crate::{Failed, Source};
use group_terms::{List, Octets, Schedule};
use std::marker::Model;

/// A text in memory, read as a source that fails at chosen calls.
#[derive(Drop)]
pub struct TextSource {
    text: Octets,
    at: usize,
    schedule: Schedule,
}

impl Model for TextSource {
    ghost use Rattle.std.specs.Prelude.{◌≤◌, length, drop};
    ghost use Rattle.gd_edges.specs.Texts.{TextLeft};

    ghost Value = { TextLeft };

    ghost view = { λ source. record {
      left = drop source.at source.text;
      calls = source.schedule.calls;
      fails = source.schedule.fails;
      faults = source.schedule.faults;
    } };

    ghost invariant = { λ source. source.at ≤ length source.text };
}

impl TextSource {
    /// A source of the octets of a text, which fails at the calls listed, counted from 1.
    pub fn new(text: Octets, fails: List<u64>) -> Self
        ensures { result ≡ record { left = text; calls = 0; fails = fails; faults = 0 } }
    {
        TextSource {
            text,
            at: 0,
            schedule: Schedule::new(fails),
        }
    }

    /// The octets that no call has taken yet.
    pub fn rest(&self) -> &[u8]
        ensures { result.now ≡ self.now.left }
    {
        left_at(self.text.as_slice(), self.at)
    }
}

impl Source for TextSource {
    ghost shows = { λ source. record { octets = Some source.left; faults = source.faults } };

    /// A call that is listed fails and leaves all in place; any other moves as much as is left and fits.
    fn take(&mut self, into: &mut [u8]) -> Result<usize, Failed>
        requires { 0 < length into.old }
        ensures count { IfOk result (λ n. n ≤ length into.new) }
        ensures moved { IfOk result
            (λ n. Consumes (Some self.old.left) (Some self.new.left) (take n into.new)) }
        ensures end { result ≡ Ok 0 → IsAtEnd (Some self.old.left) }
        ensures failed { OnErr result (Keeps (Some self.old.left) (Some self.new.left)) }
        ensures cause { OnErr result (Rose self.old.faults self.new.faults) }
        ensures no_fault { OnOk result (self.new.faults ≡ self.old.faults) }
        ensures counted { self.old.faults ≤ self.new.faults }
        ensures listed { is_err result ≡ fails_next self.old.calls self.old.fails }
        ensures all_that_fits { IfOk result
            (λ n. n ≡ min (length self.old.left) (length into.old)) }
        ensures octets { IfOk result (λ n. into.new ≡ take n self.old.left ++ drop n into.old) }
        ensures rest { IfOk result (λ n. self.new.left ≡ drop n self.old.left) }
        ensures untouched { OnErr result (into.new ≡ into.old) }
        ensures calls { self.new.calls ≡ one_more self.old.calls }
        ensures fails { self.new.fails ≡ self.old.fails }
        ensures faults { self.new.faults ≡
            (if is_err result then one_more self.old.faults else self.old.faults) }
    {
        if self.schedule.call() {
            return Err(self.schedule.fail());
        }
        let n = moved(left_at(self.text.as_slice(), self.at), into);
        self.at += n;
        Ok(n)
    }
}

/// The octets from a place on.
fn left_at(text: &[u8], at: usize) -> &[u8]
    requires { at ≤ length text.now }
    ensures { result.now ≡ drop at text.now }
{
    &text[at..]
}

/// Copies as many octets as there are and fit, and says how many.
fn moved(from: &[u8], into: &mut [u8]) -> usize
    ensures count { result ≡ min (length from.now) (length into.old) }
    ensures octets { into.new ≡ take result from.now ++ drop result into.old }
    ensures consumed { from.now ≡ take result into.new ++ drop result from.now }
{
    let n = from.len().min(into.len());
    into[..n].copy_from_slice(&from[..n]);
    n
}
