//! The update arrays of a membership push (RFC 6407 section 5.6.3.2).
ghost use Rattle.std.specs.Prelude.{◌≡◌, ◌+◌, ◌*◌, ◌^◌, ◌<◌, ◌≤◌, ◌++◌, [], ◌∷◌, List, length, IfOk, OnOk};
ghost use Rattle.std.specs.List.{All};
ghost use Rattle.group_terms.specs.declared.keys.Wrap.{Wrap};
ghost use Rattle.group_model.specs.Wraps.{IsBetween, IsOfPosition};
ghost use Rattle.group_pushes.specs.Private.Jobs.{AreArraysAfter, IsJobAfter, IsKeyAfter};
ghost use Rattle.kd_wire.specs.Widths.{update_octets};

use group_terms::{BatchValues, KeyName, List, NoMemory, Octets, PathKey, Wrap};
use kd_wire::{
    WrapJob, prove_job_fits, texts_of_jobs_are_put_together, write_update,
    written_texts_have_their_size,
};
use key_tree::KeyTree;
use std::alloc::Global;

/// How many octets an array has.
const ARRAY_OCTETS: usize = 64;

/// The arrays of encryptions between positions, one after the other.
pub(crate) fn update_arrays(
    alloc: Global,
    tree: &KeyTree,
    values: &BatchValues,
    wraps: &[Wrap],
) -> Result<Octets, NoMemory>
    requires within { All (IsBetween (2 ^ (tree.now.depth + 1))) wraps.now }
    requires few { length wraps.now ≤ 1000 }
    ensures arrays { IfOk result (AreArraysAfter tree.now.kept values.now wraps.now) }
    ensures size { IfOk result (λ arrays. length arrays ≡ update_octets * length wraps.now) }
{
    texts_of_jobs_are_put_together();
    let mut arrays = List::with_room(alloc, ARRAY_OCTETS * wraps.len())?;
    for wrap in wraps {
        append_array(tree, values, wrap, &mut arrays)?;
    }
    Ok(arrays)
}

/// Appends the array of an encryption to those of others.
fn append_array(
    tree: &KeyTree,
    values: &BatchValues,
    wrap: &Wrap,
    arrays: &mut Octets,
) -> Result<(), NoMemory>
    requires { IsBetween (2 ^ (tree.now.depth + 1)) wrap.now }
    ensures arrays { (wraps : List Wrap) → AreArraysAfter tree.now.kept values.now wraps arrays.old →
        OnOk result (AreArraysAfter tree.now.kept values.now (wraps ++ wrap.now ∷ []) arrays.new) }
    ensures size { OnOk result (length arrays.new ≡ length arrays.old + update_octets) }
{
    texts_of_jobs_are_put_together();
    written_texts_have_their_size();
    write_update(&job(tree, values, wrap), arrays)?;
    Ok(())
}

/// An encryption with the values that its keys have after the batch.
fn job(tree: &KeyTree, values: &BatchValues, wrap: &Wrap) -> WrapJob
    requires { IsBetween (2 ^ (tree.now.depth + 1)) wrap.now }
    ensures { IsJobAfter tree.now.kept values.now wrap.now result }
{
    let job = WrapJob {
        by: key_after(tree, values, &wrap.by),
        gives: key_after(tree, values, &wrap.gives),
    };
    prove_job_fits(&job);
    job
}

/// A position's key with the value that it has after the batch.
fn key_after(tree: &KeyTree, values: &BatchValues, name: &KeyName) -> PathKey
    requires { IsOfPosition (2 ^ (tree.now.depth + 1)) name.now }
    ensures { IsKeyAfter tree.now.kept values.now name.now result }
{
    match *name {
        KeyName::Node { id, made } => PathKey {
            id,
            made,
            value: tree.value_after(values, id),
        },
        KeyName::Traffic { .. } | KeyName::Phase { .. } => unreachable!(),
    }
}
