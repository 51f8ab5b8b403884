//! A batch that is ready to be stored.
ghost use Rattle.std.specs.Prelude.{◌≡◌};

use crate::{CoreOutput, Keyed, MemberName};
use group_terms::{BatchValues, Octets};
use key_tree::Marked;
use std::marker::Model;

/// A batch with all that it makes: the values of its keys, its record, what it puts out, and what it makes of the tree.
#[derive(Drop)]
pub struct Prepared {
    pub(crate) values: BatchValues,
    pub(crate) text: Octets,
    pub(crate) output: CoreOutput,
    pub(crate) marked: Marked,
}

impl Model for Prepared {
    ghost use Rattle.gcks_core.specs.Prepares.{PreparedBatch};

    ghost Value = { PreparedBatch };

    ghost view = { λ prepared. record {
      values = prepared.values;
      text = prepared.text;
      output = prepared.output;
      marked = prepared.marked;
    } };
}

impl Prepared {
    /// The keys for each member who comes in with the batch, in the order of their changes.
    pub fn told(&self) -> &[(MemberName, Keyed)]
        ensures { result.now ≡ self.now.output.told }
    {
        self.output.told.as_slice()
    }
}
