//! The steps of a group's run, which are steps of its key server and steps of its members; and what follows of them, said of every history.
#![tactic(auto)]

pub use laws::{
    a_crash_leaves_a_moment_of_the_history, a_crash_leaves_a_moment_of_what_was_served,
    a_group_grows_by_what_is_sent, a_history_leaves_a_valid_list, each_moment_ends_a_history,
    each_step_is_of_a_kind, faults_are_counted, mail_is_of_the_group,
    what_is_served_are_steps_of_a_run,
};

mod laws;
