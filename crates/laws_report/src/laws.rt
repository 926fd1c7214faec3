//! Laws of reports as JSON and as SARIF. Each law is what its function ensures.
ghost use Rattle.std.specs.Prelude.{◌≡◌, ℕ, Some, All, List};
ghost use Rattle.serde_json.specs.Read.{read};
ghost use Rattle.serde_json.specs.Written.{compact_text};
ghost use Rattle.schema_report.specs.Json.{report_value, json_line};
ghost use Rattle.schema_report.specs.declared.report.Report.{Report};
ghost use Rattle.schema_report_sarif.specs.Sarif.{log_value};
ghost use Rattle.schema_report_sarif.specs.declared.sarif.Found.{Found};
ghost use Rattle.laws_report.specs.Counted.{IsCounted, HasTexts};

/// The JSON of a report is read as its value.
pub fn reports_are_read()
    ensures { (path : List ℕ) (report : Report) → IsCounted report
        → read (compact_text (report_value path report)) ≡ Some (report_value path report) }
{}

/// The line of a report tells its path and the whole report.
pub fn one_report_a_line()
    ensures { (path other : List ℕ) (report second : Report) → IsCounted report → IsCounted second
        → HasTexts report → HasTexts second → json_line path report ≡ json_line other second
        → (path ≡ other) × (report ≡ second) }
{}

/// A SARIF log is read as its value.
pub fn logs_are_read()
    ensures { (version : List ℕ) (found : List Found) → All (λ f. IsCounted f.report.now) found
        → read (compact_text (log_value version found)) ≡ Some (log_value version found) }
{}
