ghost use Rattle.std.specs.Prelude.{◌≡◌, true, IfOk};
ghost use Rattle.std.specs.List.{AllByRecursion};
ghost use Rattle.cedar_data.specs.NonEmpty.{items_left};
ghost use Rattle.schema_convert_plain.specs.Plain.{IsFreeId, IsPlainDeclaration};

use cedar_data::{Node, NonEmptyIter};
use cedar_identifiers::is_cedar;
use cedar_names::ExtensionTable;
use schema_convert_faults::faults::action_fault;
use schema_convert_faults::shadowing::is_taken;
use schema_json::is_keyword_name;
use schema_syntax_tree::{Declaration, SrcId};
use std::alloc::{AllocError, Global};

// Whether the name is neither reserved nor taken.
fn is_free(table: &ExtensionTable, name: &Node<SrcId<'_>>) -> bool
    ensures { result ≡ true → IsFreeId table.now name.now }
{
    let word = name.node.as_str();
    !(is_cedar(word) || is_taken(table, word))
}

// Whether each of the names is.
fn are_free<'a, 'b>(table: &ExtensionTable, names: NonEmptyIter<'b, Node<SrcId<'a>>>) -> bool
    ensures { result ≡ true → AllByRecursion (IsFreeId table.now) (items_left names.entry) }
{
    for name in names {
        if !is_free(table, name) {
            return false;
        }
    }
    true
}

/// Whether nothing is to be said of the declaration by itself: no name of it is reserved or taken, and the block of its
/// actions is lawful.
pub fn is_plain(
    alloc: Global,
    table: &ExtensionTable,
    decl: &Declaration<'_>,
) -> Result<bool, AllocError>
    ensures { IfOk result (λ plain. plain ≡ true → IsPlainDeclaration table.now decl.now) }
{
    match decl {
        Declaration::Entity(decl) => Ok(are_free(table, decl.names())),
        Declaration::Action(_) => Ok(action_fault(alloc, decl)?.is_none()),
        Declaration::Common(decl) => {
            Ok(is_free(table, &decl.name) && !is_keyword_name(decl.name.node.as_str()))
        }
    }
}
