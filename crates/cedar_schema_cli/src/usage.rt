//! What the program says of wrong words.
ghost use Rattle.std.specs.Prelude.{◌≡◌, ◌++◌, true, codes, IfOk, OnOk};
ghost use Rattle.std.specs.Char.{is_ascii};
ghost use Rattle.std.specs.List.{list_all};
ghost use Rattle.cedar_runs.specs.Reports.{report_of};
ghost use Rattle.cedar_schema_cli.specs.Usage.{fault_line, word_shown, usage_report};

use cedar_data::Text;
use cedar_runs::{Reply, Status};
use cedar_schema_cli_words::WordFault;
use schema_report::{Escape, push_escaped};
use std::alloc::{AllocError, Global};

const USAGE: &str = "usage: cedar-schema check|format [OPTION].. FILE.. (--help tells more)\n";

// Adds words in ASCII.
fn push(out: &mut Text, words: &str) -> Result<(), AllocError>
    requires { list_all is_ascii words.now ≡ true }
    ensures { OnOk result (out.new ≡ out.old ++ words.now) }
{
    out.push_str(words)
}

// Adds a word between two wordings.
fn push_word(out: &mut Text, before: &str, word: &str) -> Result<(), AllocError>
    requires { list_all is_ascii before.now ≡ true }
    ensures { OnOk result (out.new ≡ out.old ++ (before.now ++ (word_shown word.now ++ codes "`\n"))) }
{
    push(out, before)?;
    push_escaped(out, Escape::Screen, word)?;
    push(out, "`\n")
}

// Adds what is wrong.
fn push_fault(out: &mut Text, fault: &WordFault) -> Result<(), AllocError>
    ensures { OnOk result (out.new ≡ out.old ++ fault_line fault.now) }
{
    match fault {
        WordFault::NoCommand => push(out, "error: no command is given\n"),
        WordFault::NoSuchCommand(word) => push_word(
            out,
            "error: no such command: `",
            word.as_str(),
        ),
        WordFault::NoSuchOption(word) => push_word(out, "error: no such option: `", word.as_str()),
        WordFault::NoNames => push(out, "error: no file is named\n"),
    }
}

/// The reply to words that are wrong. It errs when out of memory.
pub(crate) fn usage_reply(alloc: Global, fault: &WordFault) -> Result<Reply, AllocError>
    ensures { IfOk result (λ reply. report_of reply ≡ usage_report fault.now) }
{
    let mut err = Text::new(alloc);
    push_fault(&mut err, fault)?;
    push(&mut err, USAGE)?;
    Ok(Reply {
        status: Status::Usage,
        out: Text::new(alloc),
        err,
    })
}
