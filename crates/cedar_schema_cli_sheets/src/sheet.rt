//! Reports of many texts, one after another.
ghost use Rattle.std.specs.Prelude.{◌≡◌, ◌+◌, [], ◌∷◌, List, true, string_bytes, IfOk, OnOk};
ghost use Rattle.std.specs.Char.{is_ascii};
ghost use Rattle.std.specs.List.{list_all};
ghost use Rattle.cedar_schema_cli_sheets.specs.Sheets.{Item, sheet_text, hidden_of, items_of, plain_report, fault_item};
ghost use Rattle.cedar_schema_cli_sheets.specs.Says.{HasItems, Gets, text_if_shown};
ghost use Rattle.schema_json_quotes.specs.Adds.{Adds};

use crate::items::{push_hidden, push_item};
use cedar_data::{List, Severity, message};
use cedar_schema_cli_words::Form;
use schema_report::{Lines, Report};
use std::alloc::{AllocError, Global};

// How many reports are written, where not all are.
const MOST: usize = 100;

// How many of so many reports are not written.
fn hidden_of(all: bool, count: usize) -> usize
    ensures { result ≡ hidden_of all count }
{
    if all {
        return 0;
    }
    count.saturating_sub(MOST)
}

// The report that says this and points to no place.
fn plain_report(alloc: Global, words: &str) -> Result<Report, AllocError>
    requires { list_all is_ascii words.now ≡ true }
    ensures { IfOk result (λ report. report ≡ plain_report words.now) }
{
    Ok(Report {
        severity: Severity::Error,
        rule: None,
        message: message(alloc, words)?,
        help: None,
        places: List::new(alloc),
    })
}

/// A sheet on which reports are written one after another.
#[derive(Drop)]
pub struct Sheet {
    /// How reports are written.
    pub form: Form,
    /// Whether all are written, and not the first 100 alone.
    pub all: bool,
    /// What is written so far.
    pub out: String,
    /// How many reports it has got.
    pub count: usize,
}

impl Sheet {
    /// The empty sheet.
    pub fn new(alloc: Global, form: Form, all: bool) -> Sheet
        ensures form { result.form ≡ form }
        ensures all { result.all ≡ all }
        ensures items { HasItems result [] }
    {
        Sheet {
            form,
            all,
            out: String::new(alloc),
            count: 0,
        }
    }

    // Counts a report.
    fn count_one(&mut self) -> Result<(), AllocError>
        ensures { OnOk result (self.new ≡ record self.old { count = self.old.count + 1 }) }
    {
        let Some(count) = self.count.checked_add(1) else {
            return Err(AllocError);
        };
        self.count = count;
        Ok(())
    }

    // Writes the report, where it is one of those to be written.
    fn show(
        &mut self,
        alloc: Global,
        path: &str,
        lines: &Lines<'_>,
        report: &Report,
    ) -> Result<(), AllocError>
        ensures form { self.new.form ≡ self.old.form }
        ensures all { self.new.all ≡ self.old.all }
        ensures count { self.new.count ≡ self.old.count }
        ensures out { OnOk result (Adds self.old.out self.new.out
            (text_if_shown self.old.form self.old.all self.old.count
            (record { path = path.now; lines = lines.now; report = report.now }))) }
    {
        if self.all || self.count < MOST {
            return push_item(alloc, &mut self.out, self.form, path, lines, report);
        }
        Ok(())
    }

    /// Writes a report behind the others, on the text with these lines at this path. When out of memory, the sheet may
    /// have a front of it.
    pub fn push(
        &mut self,
        alloc: Global,
        path: &str,
        lines: &Lines<'_>,
        report: &Report,
    ) -> Result<(), AllocError>
        ensures { OnOk result (Gets self.old self.new
            (record { path = path.now; lines = lines.now; report = report.now } ∷ [])) }
    {
        self.show(alloc, path, lines, report)?;
        self.count_one()
    }

    /// Writes the reports on one text behind the others. When out of memory, the sheet may have a front of them.
    pub fn push_all(
        &mut self,
        alloc: Global,
        path: &str,
        lines: &Lines<'_>,
        reports: &[Report],
    ) -> Result<(), AllocError>
        ensures { OnOk result (Gets self.old self.new (items_of path.now lines.now reports.now)) }
    {
        for report in reports {
            self.push(alloc, path, lines, report)?;
        }
        Ok(())
    }

    /// Writes a report on an input without a text. When out of memory, the sheet may have a front of it.
    pub fn push_fault(&mut self, alloc: Global, path: &str, words: &str) -> Result<(), AllocError>
        requires { list_all is_ascii words.now ≡ true }
        ensures { OnOk result (Gets self.old self.new (fault_item path.now words.now ∷ [])) }
    {
        let report = plain_report(alloc, words)?;
        let lines = Lines::of(alloc, "")?;
        self.push(alloc, path, &lines, &report)
    }

    /// What is written on the sheet, with how many reports more there are.
    pub fn finish(self) -> Result<String, AllocError>
        ensures { (items : List Item) → HasItems self items
            → IfOk result (λ out. string_bytes out ≡ sheet_text self.form self.all items) }
    {
        let Sheet {
            form,
            all,
            mut out,
            count,
        } = self;
        push_hidden(&mut out, form, hidden_of(all, count))?;
        Ok(out)
    }
}
