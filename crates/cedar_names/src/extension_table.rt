ghost use Rattle.std.specs.Prelude.{◌≡◌, false};
ghost use Rattle.std.specs.List.{list_any};
ghost use Rattle.cedar_names.specs.TableNames.{is_builtin};

use crate::table_error::TableError;
use crate::table_words::{add, into_set, lawful_name, word};
use cedar_data::{CloneIn, Set, compare_bytes};
use cedar_identifiers::UnreservedId;
use std::alloc::{AllocError, Global};
use std::cmp::Ordering;
use std::collections::BTreeSet;

/// The names of the extension types that a schema may use: distinct words, none of them reserved or the name of what
/// every schema has.
pub struct ExtensionTable {
    pub names: Set<UnreservedId>,
    pub ghost extensions: { list_any (λ n. is_builtin n.id.text) names ≡ false },
}

impl Drop for ExtensionTable {
    fn drop(self) {
        let ExtensionTable { names: _names } = self;
    }
}

/// Another name for the table.
pub type Extensions = ExtensionTable;

impl ExtensionTable {
    ghost use Rattle.std.specs.Prelude.{[], map, IfOk, IfErr};
    ghost use Rattle.std.specs.String.{string_bytes};
    ghost use Rattle.cedar_names.specs.Tables.{table_names, table_has, standard_names, IsTableOf, IsTableFault};

    /// The table of no names, which takes no memory.
    pub fn none(alloc: Global) -> ExtensionTable
        ensures { result.names ≡ [] }
    {
        ExtensionTable {
            names: Set::new(alloc),
        }
    }

    /// The table of all extensions that Cedar has.
    pub fn all_available(alloc: Global) -> Result<ExtensionTable, AllocError>
        ensures { IfOk result (λ table. table_names table ≡ standard_names) }
    {
        let mut names = Vec::new(alloc);
        names.push(word(alloc, "datetime")?)?;
        names.push(word(alloc, "decimal")?)?;
        names.push(word(alloc, "duration")?)?;
        names.push(word(alloc, "ipaddr")?)?;
        Ok(ExtensionTable {
            names: Set::from_sorted_vec(names),
        })
    }

    /// The table of these names, or the fault of the first that is unlawful.
    pub fn new(alloc: Global, names: &[String]) -> Result<ExtensionTable, TableError>
        ensures ok { IfOk result (IsTableOf (map (λ name. string_bytes name) names.now)) }
        ensures err { IfErr result (IsTableFault (map (λ name. string_bytes name) names.now)) }
    {
        let mut seen = BTreeSet::new(alloc);
        for (at, name) in names.iter().enumerate() {
            let id = lawful_name(alloc, at, name.as_str())?;
            if !add(&mut seen, id)? {
                return Err(TableError::Repeated(at));
            }
        }
        Ok(ExtensionTable {
            names: into_set(alloc, seen)?,
        })
    }

    /// Whether the name is one of the table's, found by halving.
    pub fn has(&self, id: &str) -> bool
        ensures { result ≡ table_has self.now id.now }
    {
        let names = self.names.as_slice();
        let mut low = 0;
        let mut high = names.len();
        while low < high {
            let middle = low + (high - low) / 2;
            match compare_bytes(names[middle].as_str(), id) {
                Ordering::Less => low = middle + 1,
                Ordering::Greater => high = middle,
                Ordering::Equal => return true,
            }
        }
        false
    }
}

impl CloneIn for ExtensionTable {
    fn clone_in(&self, alloc: Global) -> Result<Self, AllocError> {
        Ok(ExtensionTable {
            names: self.names.clone_in(alloc)?,
        })
    }
}
