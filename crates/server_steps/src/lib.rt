//! The steps of a key server on its disk: what each request answers and leaves, by definition, and the calls on a core that do so.
#![tactic(auto)]

pub use batching::close_batch;
pub use changing::{halt, leave};
pub use entries::{answer_done, entry};
pub use laws::{
    a_reopening_is_served, messages_are_of_the_group, messages_stay, nothing_was_served_yet,
    one_more_is_served,
};
pub use opening::{create, open, reopen, show_opened};
pub use replying::reply_says;
pub use seeing::{ShowRoom, refuse_deliveries, show};

mod batching;
mod changing;
mod entries;
mod laws;
mod opening;
mod replying;
mod seeing;
