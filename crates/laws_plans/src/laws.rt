//! Laws of plans. Each law is what its function ensures.
ghost use Rattle.std.specs.Prelude.{◌≢◌, ◌⊎◌, ℕ, List};
ghost use Rattle.cedar_names.specs.declared.extension_table.ExtensionTable.{ExtensionTable};
ghost use Rattle.cedar_names.specs.Meaning.{SchemaMeaning};
ghost use Rattle.schema_convert_errors.specs.declared.warnings.SchemaWarning.{SchemaWarning};
ghost use Rattle.schema_syntax.specs.ParseAnswers.{IsTreeOfText};
ghost use Rattle.schema_syntax_tree.specs.declared.annotated.Annotated.{Annotated};
ghost use Rattle.schema_syntax_tree.specs.declared.namespace.Namespace.{Namespace};
ghost use Rattle.cedar_schema_core_faults.specs.declared.recover_error.RecoverError.{RecoverError};
ghost use Rattle.cedar_schema_core.specs.Commands.{Asks, IsTableInOrder};
ghost use Rattle.cedar_schema_core.specs.Meanings.{TextMeaning, Warns};
ghost use Rattle.cedar_schema_core.specs.Recovery.{IsRefusal};

use cedar_schema_core::Command;
use laws_build::existing_meanings::fragments_have_a_fault_or_a_meaning;
use laws_inclusion::laws::fragments_of_texts_are_in_order;

/// Names make one table in the order of their texts, or none.
pub fn names_make_a_table_or_none()
    ensures { (names : List (List ℕ)) → ((table : ExtensionTable) × IsTableInOrder names table)
        ⊎ ((table : ExtensionTable) → IsTableInOrder names table → ⊥) }
{}

/// Words ask for a command, or for none.
pub fn words_ask_for_a_command_or_none()
    ensures { (words : List (List ℕ)) → ((c : Command) × Asks words c) ⊎ ((c : Command) → Asks words c → ⊥) }
{}

/// A text that has a tree is refused under a table, for a reason other than memory, or it means something and has its
/// warnings.
pub fn texts_with_a_tree_are_refused_or_valid()
    ensures { (text : List ℕ) (table : ExtensionTable) (tree : List (Annotated Namespace)) → IsTreeOfText text tree
        → ((e : RecoverError) × (e ≢ RecoverError.Memory) × IsRefusal text table e)
        ⊎ ((m : SchemaMeaning) × (warnings : List SchemaWarning) × TextMeaning text table m
        × Warns text table warnings) }
{
    fragments_of_texts_are_in_order();
    fragments_have_a_fault_or_a_meaning();
}
