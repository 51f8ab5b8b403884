//! Both pushes of a batch are determined.
ghost use Rattle.std.specs.Prelude.{◌≡◌, ℕ, List};
ghost use Rattle.group_model.specs.declared.entries.PushPair.{PushPair};
ghost use Rattle.group_values.specs.Values.{Made};
ghost use Rattle.group_pushes.specs.Laws.{SignAlike};
ghost use Rattle.group_pushes.specs.Pairs.{IsPairOf};

use gd_cipher::a_text_is_sealed_in_one_way;
use gd_edges::Signer;

/// Pairs of a batch are the same, octet for octet, where the signers sign alike.
pub fn pairs_of_a_batch_are_one<G: Signer>()
    ensures { (signer another : G) (depth : ℕ) (spi : List ℕ) (list : List Made) (pair other : PushPair) → SignAlike G.Signer signer another →
        IsPairOf G.Signer signer depth spi list pair → IsPairOf G.Signer another depth spi list other → pair ≡ other }
{
    a_text_is_sealed_in_one_way();
}
