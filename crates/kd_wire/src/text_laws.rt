//! What is written: how long it is, that it is octets, and the texts of jobs one after the other.
ghost use Rattle.std.specs.Prelude.{◌≡◌, ◌*◌, ◌++◌, ℕ, List, [], ◌∷◌, length, All};
ghost use Rattle.group_terms.specs.Octets.{AreOctets, rekey_spi_octets};
ghost use Rattle.group_terms.specs.declared.paths.Keyed.{Keyed};
ghost use Rattle.group_terms.specs.declared.values.TrafficValue.{TrafficValue};
ghost use Rattle.kd_wire.specs.declared.sealing.WrapJob.{WrapJob};
ghost use Rattle.kd_wire.specs.Texts.{traffic_kd, update_kd, reply_kd, update_text, updates_text, IsUpdate, AreUpdateTexts};
ghost use Rattle.kd_wire.specs.Texts.{TrafficFits, KeyedFits, Sealed, SealedFits, AreJobsOfOnePush, AreSealedJobs};
ghost use Rattle.kd_wire.specs.Widths.{update_octets, traffic_kd_octets, update_kd_octets, reply_kd_octets};

use gd_wire::written_framing_is_octets;

/// How many octets are written: an update array with its attribute's header, those of a list of jobs, and each body.
pub fn written_texts_have_their_size()
    ensures update { (job : WrapJob) (text : List ℕ) → IsUpdate job text → length text ≡ update_octets }
    ensures updates { (jobs : List WrapJob) (text : List ℕ) → AreUpdateTexts jobs text → length text ≡ update_octets * length jobs }
    ensures sealed { (updates : List Sealed) → All SealedFits updates → length (updates_text updates) ≡ update_octets * length updates }
    ensures traffic_kd { (traffic : TrafficValue) → TrafficFits traffic → length (traffic_kd traffic) ≡ traffic_kd_octets }
    ensures update_kd { (spi : List ℕ) (jobs : List WrapJob) (text : List ℕ) → length spi ≡ rekey_spi_octets → AreUpdateTexts jobs text →
        length (update_kd spi text) ≡ update_kd_octets (length jobs) }
    ensures reply_kd { (keyed : Keyed) → KeyedFits keyed → length (reply_kd keyed) ≡ reply_kd_octets (length keyed.path) }
{}

/// What is written is octets, where what it is written of is.
pub fn written_texts_are_octets()
    ensures update { (job : WrapJob) (sealed : List ℕ) → AreOctets sealed → AreOctets (update_text job sealed) }
    ensures updates { (jobs : List WrapJob) (text : List ℕ) → AreUpdateTexts jobs text → AreOctets text }
    ensures sealed { (updates : List Sealed) → All SealedFits updates → AreOctets (updates_text updates) }
    ensures traffic_kd { (traffic : TrafficValue) → TrafficFits traffic → AreOctets (traffic_kd traffic) }
    ensures update_kd { (spi arrays : List ℕ) → length spi ≡ rekey_spi_octets → AreOctets spi → AreOctets arrays →
        AreOctets (update_kd spi arrays) }
    ensures reply_kd { (keyed : Keyed) → KeyedFits keyed → AreOctets (reply_kd keyed) }
{
    written_framing_is_octets();
}

/// The texts of jobs come one after the other: of none, of one more at the end, and of two lists.
pub fn texts_of_jobs_are_put_together()
    ensures none { AreUpdateTexts [] [] }
    ensures one_more { (jobs : List WrapJob) (job : WrapJob) (text next : List ℕ) → AreUpdateTexts jobs text → IsUpdate job next →
        AreUpdateTexts (jobs ++ job ∷ []) (text ++ next) }
    ensures both { (jobs later : List WrapJob) (text more : List ℕ) → AreUpdateTexts jobs text → AreUpdateTexts later more →
        AreUpdateTexts (jobs ++ later) (text ++ more) }
{}

/// The text of the jobs of a push has, job by job, the sealed data of the key that the job gives.
pub fn texts_of_jobs_are_sealed()
    ensures { (jobs : List WrapJob) (text : List ℕ) → AreJobsOfOnePush jobs → AreUpdateTexts jobs text →
        (updates : List Sealed) × AreSealedJobs jobs text updates }
{}
