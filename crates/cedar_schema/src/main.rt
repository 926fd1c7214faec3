//! The program for people: checks and lays out schemas in files.
#![tactic(auto)]

use cedar_files::SystemFiles;
use cedar_runs::{Call, StdSink, StdSource, call_of};
use cedar_schema_cli::run_cli;
use std::process::ExitCode;

const VERSION: &str = "cedar-schema 0.1.0\n";

const HELP: &str = "\
usage: cedar-schema check|format [OPTION].. FILE..

Checks and lays out Cedar schemas in files. A file holds the text of a schema, and `-` is the standard input.

  check FILE..           reports the faults and the warnings of each schema, with the place of each
  format FILE..          writes each schema laid out: two spaces for each open brace, comments and empty lines kept
    --check              names the files that would change instead, and ends with 1 where there is one
    --write              replaces each file that changes, as a whole, after all of them are read and laid out
  --help, --version      this text, and the version

Options of both:

  --format=FORM          how reports are written: human (where none is asked for), short, json or github
  --all                  writes all reports, and not the first 100 alone

Reports of `check` go to the standard output, and those of `format` to the standard error. Options and files stand in
any order, and of two options that disagree the last one counts. A file whose name begins with `-` is written `./-name`.
An input has at most 16777216 bytes. A new content is first written beside its file, at its path and `.cedar-schema~`.

exit status: 0 every file is fine; else that of the first file that is not: 1 it has faults, or would change, 3 it
cannot be read, 5 it is not UTF-8, 6 it is too long. 2 words that are wrong, 4 writing failed, 7 out of memory

  $ cedar-schema check photos.cedarschema
  $ cedar-schema format --check schemas/*.cedarschema
";

fn main(rt: HostRuntime) -> ExitCode {
    let status = match call_of(&rt, HELP, VERSION) {
        Call::Run(words) => run_cli(
            rt.alloc(),
            &words,
            &mut SystemFiles::new(&rt),
            &mut StdSource::new(rt.stdin()),
            &mut StdSink::new(rt.stdout()),
            &mut StdSink::new(rt.stderr()),
        ),
        Call::Ended(status) => status,
    };
    ExitCode::from(status.code())
}
