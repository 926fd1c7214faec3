//! The comparison: reads two schemas, and says whether the new one admits all that the old one does.
#![tactic(auto)]

use cedar_runs::{Call, StdSink, StdSource, call_of};
use schema_inclusion::run_inclusion;
use std::process::ExitCode;

const VERSION: &str = "schema_inclusion 0.1.0\n";

const HELP: &str = "\
usage: schema_inclusion include|include-with [NAME..]

Reads two messages from standard input, the old schema's text and the new one's, and writes `included` where the new
schema admits each entity, each request and each ancestor of an action that the old one admits. Else it writes `not
included: ` and what the first value is about that the new schema does not admit: `entity` and the entity, or `request`
or `action` and the action. A message is its length in four bytes, the highest first, and so many bytes.

  include                compares under all extension types
  include-with NAME..    compares where just these extension types are known
  --help, --version      this text, and the version

The extension types are decimal, ipaddr, datetime and duration. The input has at most 16777216 bytes.

exit status: 0 done, 1 the input is not two texts, or one of them is no schema, 2 no such command, 3 reading failed,
4 writing failed, 6 the input is too long, 7 out of memory
";

fn main(rt: HostRuntime) -> ExitCode {
    let status = match call_of(&rt, HELP, VERSION) {
        Call::Run(words) => run_inclusion(
            rt.alloc(),
            &words,
            &mut StdSource::new(rt.stdin()),
            &mut StdSink::new(rt.stdout()),
            &mut StdSink::new(rt.stderr()),
        ),
        Call::Ended(status) => status,
    };
    ExitCode::from(status.code())
}
