//! Paths of files as references of SARIF.
ghost use Rattle.std.specs.Prelude.{◌≡◌, ◌<◌, ℕ, not, OnOk};
ghost use Rattle.percent_encoding.specs.AsciiSet.{contains};
ghost use Rattle.json.specs.Print.{quoted};
ghost use Rattle.schema_json_quotes.specs.Adds.{Adds};
ghost use Rattle.schema_report_sarif.specs.Uris.{is_path_char, path_uri};

use percent_encoding::{AsciiSet, utf8_percent_encode};
use schema_json_quotes::quotes::push_quoted;
use std::alloc::{AllocError, Global};

// The characters of ASCII that are escaped in a path: all but letters, digits, `-`, `.`, `_`, `~` and `/`.
const PATH_ESCAPES: AsciiSet = AsciiSet {
    mask: 0xb800_0001_7800_0001_fc00_1fff_ffff_ffff,
};

// The characters of ASCII that are escaped in a path.
fn path_escapes() -> AsciiSet
    ensures { (b : ℕ) → b < 128 → contains result b ≡ not (is_path_char b) }
{
    PATH_ESCAPES
}

// Adds the path as a reference in a string.
pub(crate) fn push_uri(alloc: Global, out: &mut String, path: &str) -> Result<(), AllocError>
    ensures { OnOk result (Adds out.old out.new (quoted (path_uri path.now))) }
{
    let mut uri = String::new(alloc);
    utf8_percent_encode(path, path_escapes()).append_to(&mut uri)?;
    push_quoted(out, uri.as_str())
}
