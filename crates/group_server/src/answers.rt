//! What calls of the server answer, as answers of a history.
ghost use Rattle.std.specs.Prelude.{◌≡◌};
ghost use Rattle.group_server.specs.Answers.{answer_served};
ghost use Rattle.server_steps.specs.Serves.{answer_batch};

use crate::Reply;
use group_model::{Answer, Output, Refusal};

/// The answer to a datagram.
pub fn answer_served(reply: Result<Reply, Refusal>) -> Answer
    ensures { result ≡ answer_served reply }
{
    match reply {
        Ok(Reply::Datagram { octets, names }) => Answer::Datagram { octets, names },
        Ok(Reply::Queued) => Answer::Queued,
        Err(why) => Answer::Refused { why },
    }
}

/// The answer to a request for a batch.
pub fn answer_batch(output: Result<Output, Refusal>) -> Answer
    ensures { result ≡ answer_batch output }
{
    match output {
        Ok(output) => Answer::Batched { output },
        Err(why) => Answer::Refused { why },
    }
}
