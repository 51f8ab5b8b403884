//! What is written is read again, and what a body without fault gives.
ghost use Rattle.std.specs.Prelude.{◌≡◌, ◌≤◌, ◌+◌, ◌⊎◌, ℕ, List, [], length, map, None, Some, Ok, true};
ghost use Rattle.gd_cipher.specs.Chains.{IsOpened};
ghost use Rattle.group_terms.specs.Octets.{rekey_spi_octets};
ghost use Rattle.group_terms.specs.declared.paths.Keyed.{Keyed};
ghost use Rattle.group_terms.specs.declared.values.TrafficValue.{TrafficValue};
ghost use Rattle.kd_wire.specs.declared.updates.UpdateArray.{UpdateArray};
ghost use Rattle.kd_wire.specs.declared.sealing.WrapJob.{WrapJob};
ghost use Rattle.kd_wire.specs.declared.spans.UpdateSpan.{UpdateSpan};
ghost use Rattle.kd_wire.specs.Arrays.{gives_root};
ghost use Rattle.kd_wire.specs.Bodies.{Kd, kd_of, kd_view};
ghost use Rattle.kd_wire.specs.Spans.{span_arrays};
ghost use Rattle.kd_wire.specs.UpdateTexts.{AreUpdates, OneEpoch, ReadsAsSealed, array_of};
ghost use Rattle.kd_wire.specs.Texts.{traffic_kd, update_kd, reply_kd, updates_text, data_of, Sealed, IsUpdate};
ghost use Rattle.kd_wire.specs.Texts.{TrafficFits, KeyedFits, JobFits, AreOfOnePush};
ghost use Rattle.kd_wire.specs.Views.{GivesTraffic, GivesUpdates, GivesPath};
ghost use Rattle.kd_wire.specs.Widths.{traffic_kd_octets, update_kd_octets};

use gd_cipher::open_undoes_seal;

/// The body that is written for a traffic key is read, from any base.
pub fn a_written_traffic_key_is_read()
    ensures { (traffic : TrafficValue) (base : ℕ) → TrafficFits traffic →
        kd_view base (traffic_kd traffic) ≡ Ok (record {
          tek = Some traffic;
          lkh_spi = None;
          download = [];
          updates = None;
          spis = record { tek = Some (base + 9); lkh = None };
        }) }
{}

/// The arrays of the jobs of a push, written one after the other, are a text of update attributes, of which these arrays are read.
pub fn jobs_of_a_push_are_updates()
    ensures { (updates : List Sealed) → AreOfOnePush updates → AreUpdates (map array_of updates) (updates_text updates) }
{}

/// The body that is written for the jobs of a push is read, from any base, and its arrays with the keys that they give.
pub fn written_updates_are_read()
    ensures { (spi : List ℕ) (updates : List Sealed) (base : ℕ) → length spi ≡ rekey_spi_octets → AreOfOnePush updates →
        kd_of base (update_kd spi (updates_text updates)) ≡ Ok (record {
          view = record {
            tek = None;
            lkh_spi = Some spi;
            download = [];
            updates = Some (record { start = update_kd_octets 0; end = update_kd_octets (length updates); arrays = length updates });
            spis = record { tek = None; lkh = Some (base + 9) };
          };
          arrays = map array_of updates;
        }) }
{}

/// The body that is written for a member that registers is read, from any base.
pub fn a_written_reply_is_read()
    ensures { (keyed : Keyed) (base : ℕ) → KeyedFits keyed →
        kd_view base (reply_kd keyed) ≡ Ok (record {
          tek = Some keyed.traffic;
          lkh_spi = Some keyed.spi;
          download = keyed.path;
          updates = None;
          spis = record { tek = Some (base + 9); lkh = Some (base + (traffic_kd_octets + 5)) };
        }) }
{}

/// A body without fault gives a traffic key alone, update arrays alone, or a traffic key and a path that leads up to the root.
pub fn a_body_has_one_of_three_forms()
    ensures { (base : ℕ) (body : List ℕ) (given : Kd) → kd_of base body ≡ Ok given →
        GivesTraffic given.view ⊎ (GivesUpdates given.view ⊎ GivesPath given.view) }
{}

/// The keys that the update arrays of a body without fault give have one handle, and one of them is the root's.
pub fn given_keys_are_of_one_epoch()
    ensures { (base : ℕ) (body : List ℕ) (given : Kd) (span : UpdateSpan) → kd_of base body ≡ Ok given → given.view.updates ≡ Some span →
        OneEpoch given.arrays × (gives_root given.arrays ≡ true) }
{}

/// What is written for a job is read as one array with one key, sealed by the key that the job names; and under that key and its IV the
/// data of it opens to that of the given key.
pub fn a_sealed_key_opens()
    ensures { (job : WrapJob) (text : List ℕ) → JobFits job → IsUpdate job text →
        (sealed : List ℕ) × ReadsAsSealed job text sealed
        × ((opened : List ℕ) → IsOpened job.by.value.key job.by.value.iv sealed opened → opened ≡ data_of job.gives.value) }
{
    open_undoes_seal();
}

/// The span of a body without fault has the arrays that were read.
pub fn a_span_has_the_arrays_that_were_read()
    ensures { (base : ℕ) (body : List ℕ) (given : Kd) (span : UpdateSpan) → length body ≤ 4294967295 →
        kd_of base body ≡ Ok given → given.view.updates ≡ Some span →
        span_arrays span body ≡ given.arrays }
{}

/// The body that is written for a text of update attributes is read, from any base, and its arrays are those of the text.
pub fn a_written_text_of_updates_is_read()
    ensures { (spi text : List ℕ) (arrays : List UpdateArray) (base : ℕ) →
        length spi ≡ rekey_spi_octets → length text ≤ 65000 → AreUpdates arrays text →
        (span : UpdateSpan) × (kd_of base (update_kd spi text) ≡ Ok (record {
          view = record {
            tek = None;
            lkh_spi = Some spi;
            download = [];
            updates = Some span;
            spis = record { tek = None; lkh = Some (base + 9) };
          };
          arrays = arrays;
        })) }
{}
