ghost use Rattle.std.specs.Prelude.{◌≡◌, ◌↔◌, List, [], None, Some};
ghost use Rattle.cedar_identifiers.specs.declared.any_id.AnyId.{AnyId};
ghost use Rattle.cedar_names.specs.declared.extension_table.ExtensionTable.{ExtensionTable};
ghost use Rattle.schema_syntax_tree.specs.declared.annotated.Annotated.{Annotated};
ghost use Rattle.schema_syntax_tree.specs.declared.namespace.Namespace.{Namespace};
ghost use Rattle.schema_convert_errors.specs.declared.warnings.SchemaWarning.{SchemaWarning};
ghost use Rattle.schema_convert_faults.specs.Faults.{first_some, translation_faults};
ghost use Rattle.schema_convert_openings.specs.Joined.{first_values, joined, value_at_key, HaveOwnNames};
ghost use Rattle.schema_convert_openings.specs.Repeats.{first_repeat, NoneRepeats, IsFirstRepeat};
ghost use Rattle.schema_convert_faults.specs.Shadowings.{shadowings};
ghost use Rattle.schema_convert_faults.specs.Translatable.{IsTranslatable};
ghost use Rattle.schema_convert_fragments.specs.Fragments.{fragment_of};
ghost use Rattle.schema_convert_plain.specs.Plain.{IsPlainTree, namespaces_apart};
ghost use Rattle.schema_convert_plain.specs.Translation.{IsTranslation};
ghost use Rattle.schema_convert_faults.specs.Warned.{IsAmong, IsWarnedOf};

/// No two of the namespaces that a tree has have one name.
pub fn names_are_own()
    ensures { (tree : List (Annotated Namespace)) → HaveOwnNames (joined tree) }
{}

/// Where several openings of a namespace have one annotation key, the earliest of them gives its value, or gives it
/// none.
pub fn first_openings_have_values()
    ensures { (key : AnyId) (openings : List (Annotated Namespace)) → value_at_key key (first_values openings)
        ≡ first_some (λ n. value_at_key key n.annotations) openings }
{}

/// No repeat is found exactly where no item is the same as one before it, and else the first repeat is found.
pub fn repeats_are_first<T: Ord>()
    ensures none { (items : List T) → first_repeat T.cmp items ≡ None ↔ NoneRepeats T.cmp items }
    ensures some { (items : List T) (first repeat : T) → first_repeat T.cmp items ≡ Some (first, repeat)
        ↔ IsFirstRepeat T.cmp items first repeat }
{}

/// A tree has no fault exactly where it can be translated: no name is reserved, none is declared twice in its kind and
/// namespace, and each block of an action has its principals and its resources once, and a context once at most.
pub fn lawful_trees()
    ensures { (tree : List (Annotated Namespace)) → translation_faults tree ≡ [] ↔ IsTranslatable tree }
{}

/// A tree without faults is warned exactly of its declared types that have the name of a builtin type, and of its
/// common types that have the name of an entity type of their namespace.
pub fn warnings_are_of()
    ensures { (tree : List (Annotated Namespace)) (table : ExtensionTable) (w : SchemaWarning) → translation_faults tree
        ≡ [] → IsAmong w (shadowings tree table) ↔ IsWarnedOf tree table w }
{}

/// A tree of which nothing is to be said is translated namespace by namespace, with no warning.
pub fn plain_trees()
    ensures { (table : ExtensionTable) (tree : List (Annotated Namespace)) → IsPlainTree table tree
        → IsTranslation tree table (fragment_of (namespaces_apart tree)) [] }
{}
