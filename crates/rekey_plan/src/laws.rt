//! How many encryptions a batch sends.
ghost use Rattle.rekey_plan.specs.WrapCounts.{WrapsAreFew, RemovalsWrapTwice};

use group_terms::a_mark_is_that_of_a_child;

/// The number of changes bounds the encryptions of a batch. A removal from a full tree of depth d makes 2d - 1 encryptions of keys of the tree, and one of the
/// traffic key.
pub fn a_batch_encrypts_few()
    ensures few { WrapsAreFew }
    ensures removal { RemovalsWrapTwice }
{
    a_mark_is_that_of_a_child();
}
