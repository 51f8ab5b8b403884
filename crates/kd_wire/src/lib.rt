//! The key download payload of GDOI (RFC 6407 section 5.6): traffic keys, and keys of the tree in download and update arrays.
#![tactic(auto)]

pub use bodies::{KdView, read_kd};
pub use fits::{
    prove_job_fits, prove_path_key_fits, prove_path_keys_fit, prove_spi_fits, prove_traffic_fits,
};
pub use group_terms::{Keyed, LkhId, NodeValue, Path, PathKey, TrafficValue, WireFault, WireWhat};
pub use laws::{
    a_body_has_one_of_three_forms, a_sealed_key_opens, a_span_has_the_arrays_that_were_read,
    a_written_reply_is_read, a_written_text_of_updates_is_read, a_written_traffic_key_is_read,
    given_keys_are_of_one_epoch, jobs_of_a_push_are_updates, written_updates_are_read,
};
pub use sealing::{WrapJob, write_update};
pub use sizes::{reply_kd_size, traffic_kd_size, update_kd_size};
pub use spans::{UpdateSpan, Updates};
pub use spis::SpiPlaces;
pub use text_laws::{
    texts_of_jobs_are_put_together, texts_of_jobs_are_sealed, written_texts_are_octets,
    written_texts_have_their_size,
};
pub use texts::{write_reply_kd, write_traffic_kd, write_update_kd};
pub use updates::{SealedKey, SealedKeys, UpdateArray, UpdateKey};

mod arrays;
mod bodies;
mod downloads;
mod fits;
mod keys;
mod laws;
mod sealing;
mod sizes;
mod spans;
mod spis;
mod text_laws;
mod texts;
mod traffic;
mod updates;
mod widths;
