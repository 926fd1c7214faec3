//! What an editor keeps of a text in work, and what it offers there.

ghost use Rattle.std.specs.Prelude.{IfOk, IfErr};
ghost use Rattle.schema_assist.specs.Assistance.{IsAssistance};
ghost use Rattle.schema_assist_words.specs.Refusals.{IsAssistRefusal};
ghost use Rattle.schema_tests_assist.specs.Kept.{IsKept};

use cedar_data::Map;
use cedar_identifiers::RawName;
use cedar_names::ExtensionTable;
use schema_assist::{AssistError, Assistance, assist};
use schema_convert::parse_cedar_schema_fragment;
use schema_json::Fragment;
use std::alloc::Global;

/// An editor of a schema text: what was declared when the text last had no fault, and the extension types.
#[derive(Drop)]
pub struct Editor {
    pub known: Fragment<RawName>,
    pub table: ExtensionTable,
}

impl Editor {
    /// An editor that knows no names yet.
    pub fn new(alloc: Global, table: ExtensionTable) -> Editor {
        Editor {
            known: Fragment(Map::new(alloc)),
            table,
        }
    }

    /// Keeps what the text declares. Where it has a fault, what was kept before stays.
    pub fn keep(&mut self, alloc: Global, text: &str)
        ensures { IsKept text.now self.old self.new }
    {
        if let Ok((fragment, _)) = parse_cedar_schema_fragment(alloc, text, &self.table) {
            self.known = fragment;
        }
    }

    /// What may stand at the place of the text, with the names that are kept.
    pub fn complete(&self, alloc: Global, text: &str, at: usize) -> Result<Assistance, AssistError>
        ensures assistance { IfOk result (IsAssistance text.now at self.now.known self.now.table) }
        ensures refusal { IfErr result (IsAssistRefusal text.now at) }
    {
        assist(alloc, text, at, &self.known, &self.table)
    }
}
