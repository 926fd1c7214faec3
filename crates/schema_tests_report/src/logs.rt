// SARIF logs against the table.

use crate::forms::{PATH, report};
use crate::report_table::ROWS;
use schema_report::{Lines, Report};
use schema_report_sarif::{Found, push_sarif};
use std::alloc::{AllocError, Global};

const FRONT: &str =
    "{\"$schema\":\"https://json.schemastore.org/sarif-2.1.0.json\",\"runs\":[{\"columnKind\":\"unicodeCodePoints\",\"results\":[";

const END: &str =
    "],\"tool\":{\"driver\":{\"name\":\"cedar-schema\",\"version\":\"0.1.0\"}}}],\"version\":\"2.1.0\"}";

// The reports of the first rows.
fn reports(alloc: Global, rows: usize) -> Result<Vec<Report>, AllocError> {
    let mut reports = Vec::new(alloc);
    for (at, row) in ROWS.iter().enumerate() {
        if at < rows {
            let lines = Lines::of(alloc, row.text)?;
            reports.push(report(alloc, row, &lines)?)?;
        }
    }
    Ok(reports)
}

// The log of the reports.
fn log(alloc: Global, reports: &[Report]) -> Result<String, AllocError> {
    let mut found = Vec::new(alloc);
    for report in reports {
        found.push(Found { path: PATH, report })?;
    }
    let mut out = String::new(alloc);
    push_sarif(alloc, &mut out, "0.1.0", found.as_slice())?;
    Ok(out)
}

// The log that the table has for the first rows.
fn expected(alloc: Global, rows: usize) -> Result<String, AllocError> {
    let mut out = String::new(alloc);
    out.push_str(FRONT)?;
    for (at, row) in ROWS.iter().enumerate() {
        if 0 < at && at < rows {
            out.push_str(",")?;
        }
        if at < rows {
            out.push_str(row.sarif)?;
        }
    }
    out.push_str(END)?;
    Ok(out)
}

// Is the log of the first rows that of the table?
fn agrees(alloc: Global, rows: usize) -> Result<bool, AllocError> {
    let reports = reports(alloc, rows)?;
    let log = log(alloc, reports.as_slice())?;
    let expected = expected(alloc, rows)?;
    Ok(log.as_str() == expected.as_str())
}

#[test]
fn logs_agree_with_table(rt: HostRuntime) {
    for rows in [0, 1, 10] {
        assert!(rt; agrees(rt.alloc(), rows) == Ok(true), "{} rows", rows);
    }
}
