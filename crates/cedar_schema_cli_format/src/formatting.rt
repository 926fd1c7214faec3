//! How far a run of `format` has come.
ghost use Rattle.std.specs.Prelude.{◌≡◌, ◌∷◌, [], true, OnOk};
ghost use Rattle.std.specs.Char.{is_ascii};
ghost use Rattle.std.specs.List.{list_all};
ghost use Rattle.std.specs.Str.{encode_utf8_all};
ghost use Rattle.cedar_schema_cli_sheets.specs.Sheets.{items_of, fault_item};
ghost use Rattle.cedar_schema_cli_format.specs.Formatting.{HasPlan, Follows};
ghost use Rattle.cedar_schema_cli_format.specs.Plans.{laid, faulty, empty_plan};

use crate::changes::Change;
use crate::laid::{counted, push_change, push_printed};
use cedar_data::Text;
use cedar_runs::Status;
use cedar_schema_cli_check::joined_status;
use cedar_schema_cli_sheets::Sheet;
use cedar_schema_cli_words::{Mode, Options};
use schema_report::{Lines, Report};
use std::alloc::{AllocError, Global};

/// A run of `format`.
#[derive(Drop)]
pub struct Formatting {
    /// What becomes of the texts laid out.
    pub mode: Mode,
    /// What is reported.
    pub sheet: Sheet,
    /// What goes to the output.
    pub out: String,
    /// The status.
    pub status: Status,
    /// The files that are to be replaced.
    pub changes: Vec<Change>,
}

impl Formatting {
    /// The run before its first input.
    pub(crate) fn new(alloc: Global, options: &Options) -> Formatting
        ensures { HasPlan options.now result empty_plan }
    {
        Formatting {
            mode: options.mode,
            sheet: Sheet::new(alloc, options.form, options.all),
            out: String::new(alloc),
            status: Status::Done,
            changes: Vec::new(alloc),
        }
    }

    /// Takes a text laid out. When out of memory, a part of it may be taken.
    pub(crate) fn take_laid(
        &mut self,
        alloc: Global,
        name: &str,
        old: &str,
        new: Text,
    ) -> Result<(), AllocError>
        ensures { OnOk result (Follows name.now (laid old.now (encode_utf8_all new)) self.old self.new) }
    {
        push_printed(&mut self.out, self.mode, name, old, new.as_str())?;
        self.status = joined_status(self.status, counted(self.mode, old, new.as_str()));
        push_change(alloc, &mut self.changes, self.mode, name, old, new)
    }

    /// Takes what is reported of a text that is not laid out. When out of memory, a part of it may be taken.
    pub(crate) fn take_reports(
        &mut self,
        alloc: Global,
        name: &str,
        lines: &Lines<'_>,
        reports: &[Report],
        status: Status,
    ) -> Result<(), AllocError>
        ensures { OnOk result (Follows name.now (faulty (items_of name.now lines.now reports.now) status)
            self.old self.new) }
    {
        self.sheet.push_all(alloc, name, lines, reports)?;
        self.status = joined_status(self.status, status);
        Ok(())
    }

    /// Takes what is reported of an input without a text. When out of memory, a part of it may be taken.
    pub(crate) fn take_fault(
        &mut self,
        alloc: Global,
        name: &str,
        words: &str,
        status: Status,
    ) -> Result<(), AllocError>
        requires { list_all is_ascii words.now ≡ true }
        ensures { OnOk result (Follows name.now (faulty (fault_item name.now words.now ∷ []) status)
            self.old self.new) }
    {
        self.sheet.push_fault(alloc, name, words)?;
        self.status = joined_status(self.status, status);
        Ok(())
    }
}
