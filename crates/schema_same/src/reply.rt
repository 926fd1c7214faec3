//! What is said of two texts.
ghost use Rattle.std.specs.List.{list_all};
ghost use Rattle.std.specs.Char.{is_ascii};
ghost use Rattle.std.specs.Prelude.{◌≡◌, IfOk, true};
ghost use Rattle.cedar_runs.specs.Reports.{report_of};
ghost use Rattle.schema_same.specs.Replies.{done_report, refused_report, IsSameReport};

use crate::errors::SameError;
use crate::same::same_meaning;
use cedar_data::{Text, message};
use cedar_names::ExtensionTable;
use cedar_runs::{Reply, Status};
use cedar_schema_core_faults::{RecoverError, fault_text};
use std::alloc::{AllocError, Global};

// The reply where both texts mean something.
fn done_reply(alloc: Global, same: bool) -> Result<Reply, AllocError>
    ensures { IfOk result (λ reply. report_of reply ≡ done_report same) }
{
    let out = if same {
        message(alloc, "same\n")?
    } else {
        message(alloc, "different\n")?
    };
    Ok(Reply {
        status: Status::Done,
        out,
        err: Text::new(alloc),
    })
}

// The reply where one of the texts is no schema: which, and its faults.
fn refused_reply(
    alloc: Global,
    which: &str,
    text: &str,
    fault: &RecoverError,
) -> Result<Reply, AllocError>
    requires { list_all is_ascii which.now ≡ true }
    ensures { IfOk result (λ reply. report_of reply ≡ refused_report which.now text.now fault.now) }
{
    Ok(Reply {
        status: Status::Refused,
        out: message(alloc, which)?,
        err: fault_text(alloc, text, fault)?,
    })
}

/// What is said of two texts: `same` or `different`; or `first` or `second`, with the faults of that text, where it is
/// no schema. It errs when out of memory.
pub fn same_reply(
    alloc: Global,
    first: &str,
    second: &str,
    table: &ExtensionTable,
) -> Result<Reply, AllocError>
    ensures { IfOk result (λ reply. IsSameReport table.now first.now second.now (report_of reply)) }
{
    match same_meaning(alloc, first, second, table) {
        Ok(same) => done_reply(alloc, same),
        Err(SameError::First(fault)) => refused_reply(alloc, "first\n", first, &fault),
        Err(SameError::Second(fault)) => refused_reply(alloc, "second\n", second, &fault),
        Err(SameError::Memory) => Err(AllocError),
    }
}
