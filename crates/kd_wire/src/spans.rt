//! The update arrays of a body, one after the other.
ghost use Rattle.std.specs.Prelude.{◌≡◌, ◌≤◌, length};
ghost use Rattle.kd_wire.specs.Spans.{span_text, span_arrays};

use crate::arrays::next_update;
use crate::updates::UpdateArray;
use gd_wire::Reader;
use std::marker::Model;

/// Where the update arrays of a body are: from the first octet of the first one to the place after the last one, counted from the body's
/// first octet, and how many there are.
#[derive(Clone, Copy, PartialEq, Eq)]
pub struct UpdateSpan {
    pub start: usize,
    pub end: usize,
    pub arrays: u32,
}

impl UpdateSpan {
    /// The arrays that are there. In another body than that in which the span was found they end where no array is; a span that leads out
    /// of the body has none.
    pub fn arrays<'a>(&self, body: &'a [u8]) -> Updates<'a>
        ensures { result ≡ span_arrays self.now body.now }
    {
        Updates {
            left: self.arrays,
            handle: None,
            text: Reader::new(self.text(body), 0),
        }
    }

    /// The octets of the body that are there.
    fn text<'a>(&self, body: &'a [u8]) -> &'a [u8]
        ensures text { result.now ≡ span_text self.now body.now }
        ensures small { length result.now ≤ 4294967295 }
    {
        match body.get(self.start..self.end) {
            Some(text) if text.len() <= u32::MAX as usize => text,
            _ => &body[..0],
        }
    }
}

/// The update arrays of a body, one after the other.
#[derive(Drop)]
pub struct Updates<'a> {
    left: u32,
    handle: Option<u32>,
    text: Reader<'a>,
}

impl<'a> Model for Updates<'a> {
    ghost use Rattle.std.specs.Prelude.{List};
    ghost use Rattle.kd_wire.specs.declared.updates.UpdateArray.{UpdateArray};
    ghost use Rattle.kd_wire.specs.Spans.{arrays_left};

    ghost Value = { List UpdateArray };

    ghost view = { λ arrays. arrays_left arrays.left arrays.handle arrays.text };
}

impl<'a> Iterator for Updates<'a> {
    ghost use Rattle.std.specs.Iterator.{YieldsFirst, item_count};

    type Item = UpdateArray<'a>;

    ghost next_gives = { YieldsFirst (λ arrays. arrays) };

    ghost remaining = { item_count (λ arrays. arrays) };

    fn next(&mut self) -> Option<UpdateArray<'a>> {
        if self.left == 0 {
            return None;
        }
        match next_update(self.handle, &mut self.text) {
            Ok(Some(next)) => {
                self.left -= 1;
                self.handle = next.seen.handle;
                Some(next.array)
            }
            _ => {
                self.left = 0;
                None
            }
        }
    }
}
