//! The program: reads a schema and writes its canonical text, or what is in it.
#![tactic(auto)]

use cedar_schema_core::{Call, StdSink, StdSource, call_of, run_tool};
use std::process::ExitCode;

const VERSION: &str = "cedar_schema_tool 0.1.0\n";

const HELP: &str = "\
usage: cedar_schema_tool COMMAND [NAME..]

Reads a Cedar schema from standard input.

  recover               writes its canonical text
  recover-with NAME..   the same, where just these extension types are known
  check                 writes how many entity types and actions it has
  to-json               writes it as JSON
  from-json             reads it as JSON, and writes its canonical text
  from-deprecated       the same of the deprecated form of JSON
  generate SIZE         reads nothing, makes a schema of 1 to 4096 entity types and as many actions,
                        and writes how much it holds
  --help, --version     this text, and the version

The extension types are decimal, ipaddr, datetime and duration. The input has at most 16777216 bytes.

exit status: 0 done, 1 the schema is refused, 2 no such command, 3 reading failed, 4 writing failed,
5 the input is not UTF-8, 6 the input is too long, 7 out of memory

  $ echo 'entity User in Group; entity Group;' | cedar_schema_tool recover
  entity Group;

  entity User in [Group];
";

fn main(rt: HostRuntime) -> ExitCode {
    let status = match call_of(&rt, HELP, VERSION) {
        Call::Run(words) => run_tool(
            rt.alloc(),
            &words,
            &mut StdSource::new(rt.stdin()),
            &mut StdSink::new(rt.stdout()),
            &mut StdSink::new(rt.stderr()),
        ),
        Call::Ended(status) => status,
    };
    ExitCode::from(status.code())
}
