//! The reply of a program to words and an input in memory.
ghost use Rattle.std.specs.Prelude.{◌≡◌, IfOk, map};
ghost use Rattle.std.specs.String.{string_bytes};
ghost use Rattle.cedar_runs.specs.Reports.{report_of};

use cedar_io::MAX_INPUT;
use cedar_runs::{Program, Reply};
use std::alloc::{AllocError, Global};

/// The reply of a program to words and an input: what a run of it would end with and write, where no device fails. It
/// errs when out of memory.
pub fn reply_of_words<P: Program>(
    alloc: Global,
    words: &[String],
    bytes: &[u8],
) -> Result<Reply, AllocError>
    ensures { IfOk result (λ reply. P.planned (map string_bytes words.now) bytes.now (report_of reply)) }
{
    P::one_command();
    P::long_inputs();
    let Some(command) = P::of_words(alloc, words)? else {
        return P::usage_reply(alloc);
    };
    match command.own_reply(alloc)? {
        Some(reply) => Ok(reply),
        None => {
            if bytes.len() > MAX_INPUT {
                return Reply::too_long(alloc);
            }
            command.input_reply(alloc, bytes)
        }
    }
}
