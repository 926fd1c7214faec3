/// The severity of a report.
#[derive(Clone, Copy, PartialEq, Eq)]
pub enum Severity {
    /// What it reports keeps an input from being taken.
    Error,
    /// What it reports keeps no input from being taken.
    Warning,
}
