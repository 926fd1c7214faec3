//! How a run over several inputs ends.
ghost use Rattle.std.specs.Prelude.{◌≡◌, true};
ghost use Rattle.std.specs.Char.{is_ascii};
ghost use Rattle.std.specs.List.{list_all};
ghost use Rattle.schema_text_reports.specs.ReportReplies.{reports_status};
ghost use Rattle.cedar_schema_cli_check.specs.Statuses.{fault_words, fault_status, joined_status};

use cedar_data::Severity;
use cedar_files::FileFault;
use cedar_runs::Status;
use schema_report::Report;

/// What is said of an input that is not read.
pub fn fault_words(fault: FileFault) -> &'static str
    ensures words { result.now ≡ fault_words fault }
    ensures ascii { list_all is_ascii result.now ≡ true }
{
    match fault {
        FileFault::Missing => "there is no such file",
        FileFault::Denied => "permission denied",
        FileFault::TooLong => "the input is longer than 16777216 bytes",
        FileFault::System => "reading failed",
        FileFault::Memory => "out of memory",
    }
}

/// The status where an input is not read.
pub fn fault_status(fault: FileFault) -> Status
    ensures { result ≡ fault_status fault }
{
    match fault {
        FileFault::Missing | FileFault::Denied | FileFault::System => Status::ReadFault,
        FileFault::TooLong => Status::TooLong,
        FileFault::Memory => Status::Memory,
    }
}

/// The status after one input more: that of the first that is not fine.
pub fn joined_status(status: Status, next: Status) -> Status
    ensures { result ≡ joined_status status next }
{
    match status {
        Status::Done => next,
        _ => status,
    }
}

// The status that reports give: refused where one is of a fault.
pub(crate) fn reports_status(reports: &[Report]) -> Status
    ensures { result ≡ reports_status reports.now }
{
    for report in reports {
        if report.severity == Severity::Error {
            return Status::Refused;
        }
    }
    Status::Done
}
