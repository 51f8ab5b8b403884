//! What is written is read again, and what holds of what is read.
ghost use Rattle.std.specs.Prelude.{◌≡◌, ◌≤◌, ℕ, List};
ghost use Rattle.gd_wire.specs.Readings.{octet_at};
ghost use Rattle.group_terms.specs.declared.changes.Change.{Change};
ghost use Rattle.group_terms.specs.declared.values.BatchValues.{BatchValues};
ghost use Rattle.group_records.specs.declared.batches.Stored.{Stored};
ghost use Rattle.group_records.specs.declared.heads.Head.{Head};
ghost use Rattle.group_records.specs.Fits.{HeadFits, BatchFits};
ghost use Rattle.group_records.specs.Records.{IsHeadOf, IsBatchOf};
ghost use Rattle.group_records.specs.Texts.{head_text, batch_text};

use gd_wire::a_written_field_is_read;

/// A record that was written of what fits is read as that.
pub fn a_written_record_is_read()
    ensures head { (head : Head) → HeadFits head → IsHeadOf (head_text head) head }
    ensures batch { (batch : List Change) (epoch sequence : ℕ) (values : BatchValues) → BatchFits batch epoch sequence values →
        IsBatchOf (batch_text batch epoch sequence values) (record { batch = batch; epoch = epoch; sequence = sequence; values = values }) }
{
    a_written_field_is_read();
}

/// A batch that is read has a traffic key whose SPI has its highest bit set.
pub fn a_read_batch_has_a_high_spi()
    ensures { (body : List ℕ) (stored : Stored) → IsBatchOf body stored → 128 ≤ octet_at stored.values.traffic.spi 0 }
{}
