//! The reply of a comparison to two inputs in memory.
ghost use Rattle.std.specs.Prelude.{◌≡◌, ◌≤◌, ℕ, List, IfOk, length};
ghost use Rattle.cedar_io.specs.Input.{max_input};
ghost use Rattle.cedar_names.specs.declared.extension_table.ExtensionTable.{ExtensionTable};
ghost use Rattle.cedar_runs.specs.Reports.{Report, report_of};
ghost use Rattle.schema_inclusion.specs.Plans.{IsTextsReport};
ghost use Rattle.schema_same.specs.Replies.{IsSameReport};
ghost use Rattle.cedar_schema_c.specs.Answers.{IsTwoTextsReport, IsTwoInputsReport};

use cedar_io::MAX_INPUT;
use cedar_names::ExtensionTable;
use cedar_runs::Reply;
use schema_inclusion::texts_reply;
use schema_same::same_reply;
use std::alloc::{AllocError, Global};

/// A comparison of two texts.
pub trait TwoTexts {
    /// What is reported of two texts under a table of extension types.
    ghost answers: { ExtensionTable → List ℕ → List ℕ → Report → Type 0 };

    /// The reply to two texts. It errs when out of memory.
    fn reply(
        alloc: Global,
        table: &ExtensionTable,
        first: &str,
        second: &str,
    ) -> Result<Reply, AllocError>
        ensures { IfOk result (λ reply. answers table.now first.now second.now (report_of reply)) };
}

/// Whether two texts mean the same.
pub struct AreSame;

impl TwoTexts for AreSame {
    ghost answers = { IsSameReport };

    fn reply(
        alloc: Global,
        table: &ExtensionTable,
        first: &str,
        second: &str,
    ) -> Result<Reply, AllocError> {
        same_reply(alloc, first, second, table)
    }
}

/// Whether the second text admits all that the first one does.
pub struct AdmitsAll;

impl TwoTexts for AdmitsAll {
    ghost answers = { IsTextsReport };

    fn reply(
        alloc: Global,
        table: &ExtensionTable,
        first: &str,
        second: &str,
    ) -> Result<Reply, AllocError> {
        texts_reply(alloc, table, first, second)
    }
}

// The reply to two inputs, neither too long, under the table.
fn reply_of_both<T: TwoTexts>(
    alloc: Global,
    table: &ExtensionTable,
    first: &[u8],
    second: &[u8],
) -> Result<Reply, AllocError>
    requires first { length first.now ≤ max_input }
    requires second { length second.now ≤ max_input }
    ensures { IfOk result (λ reply. IsTwoTextsReport (T.answers table.now) first.now second.now (report_of reply)) }
{
    let Ok(one) = str::from_utf8(first) else {
        return Reply::not_text(alloc);
    };
    let Ok(other) = str::from_utf8(second) else {
        return Reply::not_text(alloc);
    };
    T::reply(alloc, table, one, other)
}

/// The reply to two inputs, with all extension types that Cedar has. It errs when out of memory.
pub fn reply_of_two<T: TwoTexts>(
    alloc: Global,
    first: &[u8],
    second: &[u8],
) -> Result<Reply, AllocError>
    ensures { IfOk result (λ reply. IsTwoInputsReport T.answers first.now second.now (report_of reply)) }
{
    let table = ExtensionTable::all_available(alloc)?;
    if first.len() > MAX_INPUT {
        return Reply::too_long(alloc);
    }
    if second.len() > MAX_INPUT {
        return Reply::too_long(alloc);
    }
    reply_of_both::<T>(alloc, &table, first, second)
}
