//! Reports as results of SARIF.
ghost use Rattle.std.specs.Prelude.{true, OnOk, Some};
ghost use Rattle.serde_json.specs.Written.{compact_text, members_text};
ghost use Rattle.schema_json_quotes.specs.Adds.{Adds};
ghost use Rattle.schema_report_sarif.specs.Sarif.{result_value, rule_member};

use crate::regions::{push_locations, push_related};
use crate::values::{push_said, push_severity, push_text};
use cedar_data::Text;
use schema_json_quotes::pushing::push;
use schema_report::Report;
use std::alloc::{AllocError, Global};

// Adds the report on the text at this path.
pub(crate) fn push_result(
    alloc: Global,
    out: &mut String,
    path: &str,
    report: &Report,
) -> Result<(), AllocError>
    ensures { OnOk result (Adds out.old out.new (compact_text (result_value path.now report.now))) }
{
    push(out, "{\"level\":")?;
    push_severity(out, report.severity)?;
    push(out, ",\"locations\":")?;
    push_locations(alloc, out, path, report.places.as_slice())?;
    push(out, ",\"message\":")?;
    push_said(alloc, out, &report.message, &report.help)?;
    push(out, ",\"relatedLocations\":")?;
    push_related(alloc, out, path, report.places.as_slice())?;
    push_rule(out, &report.rule)
}

// Adds the name of the rule, where there is one, and ends the report.
fn push_rule(out: &mut String, rule: &Option<Text>) -> Result<(), AllocError>
    ensures { OnOk result (Adds out.old out.new (members_text true (rule_member rule.now))) }
{
    match rule {
        Some(name) => push_named_end(out, name),
        None => push(out, "}"),
    }
}

// Adds the name of the rule, and ends the report.
fn push_named_end(out: &mut String, name: &Text) -> Result<(), AllocError>
    ensures { OnOk result (Adds out.old out.new (members_text true (rule_member (Some name.now)))) }
{
    push(out, ",\"ruleId\":")?;
    push_text(out, name)?;
    push(out, "}")
}
