ghost use Rattle.std.specs.Prelude.{◌≡◌, [], IfOk};

use crate::status::Status;
use cedar_data::Text;
use std::alloc::{AllocError, Global};

/// How a run is to end, and what it is to write: all that is taken from memory before the first write.
#[derive(Drop)]
pub struct Reply {
    pub status: Status,
    /// What goes to the output.
    pub out: Text,
    /// What goes to the error output.
    pub err: Text,
}

impl Reply {
    ghost use Rattle.cedar_runs.specs.Reports.{report_of, not_text_report, too_long_report};

    /// The reply whose one line goes to the error output.
    pub fn line(alloc: Global, status: Status, line: &str) -> Result<Reply, AllocError>
        ensures { IfOk result (λ reply. report_of reply ≡ record { status = status; out = []; err = line.now }) }
    {
        Ok(Reply {
            status,
            out: Text::new(alloc),
            err: Text::from_str(alloc, line)?,
        })
    }

    /// The reply to an input that is not UTF-8.
    pub fn not_text(alloc: Global) -> Result<Reply, AllocError>
        ensures { IfOk result (λ reply. report_of reply ≡ not_text_report) }
    {
        Reply::line(alloc, Status::NotText, "error: the input is not UTF-8\n")
    }

    /// The reply to an input that is longer than an input may be.
    pub fn too_long(alloc: Global) -> Result<Reply, AllocError>
        ensures { IfOk result (λ reply. report_of reply ≡ too_long_report) }
    {
        Reply::line(
            alloc,
            Status::TooLong,
            "error: the input is longer than 16777216 bytes\n",
        )
    }
}
