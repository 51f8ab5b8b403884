//! What programs share that answer cases, which are lines of standard input: the words of a line, and the text that answers it.
#![tactic(auto)]

pub use answers::{Cases, answer_all, print_text};
pub use places::put;
pub use texts::Text;
pub use words::{array, long_number, number, octets};

mod answers;
mod places;
mod texts;
mod words;
