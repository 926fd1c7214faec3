//! Laws of what fragments say. Each law is what its function ensures.
ghost use Rattle.std.specs.Prelude.{◌≡◌, ◌↔◌, Bool, ℕ, Option, Some, List, []};
ghost use Rattle.std.specs.List.{AllByRecursion, AllZip, Contains, flat_map};
ghost use Rattle.cedar_data.specs.Span.{Span};
ghost use Rattle.cedar_names.specs.CanonicalText.{namespaces, schema_text};
ghost use Rattle.cedar_names.specs.Meaning.{SchemaMeaning};
ghost use Rattle.cedar_identifiers.specs.declared.raw_name.RawName.{RawName};
ghost use Rattle.schema_syntax_tree.specs.declared.annotated.Annotated.{Annotated};
ghost use Rattle.schema_syntax_tree.specs.declared.namespace.Namespace.{Namespace};
ghost use Rattle.schema_syntax_tree.specs.declared.types.Type.{«Type»};
ghost use Rattle.schema_json.specs.declared.types.Type.{«Type» as Shape};
ghost use Rattle.schema_json.specs.declared.fragment.Fragment.{Fragment};
ghost use Rattle.schema_json.specs.AsWritten.{as_written};
ghost use Rattle.schema_convert_types.specs.Types.{type_at};
ghost use Rattle.schema_convert_faults.specs.Faults.{translation_faults};
ghost use Rattle.schema_convert_plain.specs.Translation.{translated};
ghost use Rattle.laws_written.specs.Written.{WrittenType, WrittenItem};
ghost use Rattle.laws_written.specs.Meant.{items_of_meaning, name_or_none, groups_of_meaning};
ghost use Rattle.laws_written.specs.PrintedDecls.{Group, IsProperGroup, IsSome, group_items};
ghost use Rattle.laws_written.specs.ReadsBack.{ReadsBack};
ghost use Rattle.laws_written.specs.Shows.{ShowsType, SaysItem};
ghost use Rattle.laws_translate.specs.Bare.{bare};
ghost use Rattle.laws_translate.specs.BareFragments.{bare_fragment};
ghost use Rattle.laws_translate.specs.MeantNames.{HasOpenNames, IsOfWords};
ghost use Rattle.laws_translate.specs.MeantNamespaces.{meant_in_namespace, IsOfMeaning};
ghost use Rattle.laws_translate.specs.Named.{IsNamedType, IsWellNamed};
ghost use Rattle.laws_translate.specs.Sayable.{IsSayable};
ghost use Rattle.laws_translate.specs.TranslatedAs.{IsTranslatedAs};
ghost use Rattle.laws_translate.specs.TypesSay.{TypeSays};
ghost use Rattle.laws_translate.specs.FragmentsSay.{NamespaceName, WrittenNamespace, written_in, FragmentSays};

use laws_written::laws::texts_of_meanings_read_back;
use schema_convert::laws::lawful_trees;

/// What a tree's type says, the type that it becomes in the fragment says, where each name in it has a component.
pub fn types_say_what_trees_say()
    ensures { (n : «Type») (t : WrittenType) → ShowsType n t → IsNamedType t → (loc : Option Span)
        → TypeSays (type_at n loc) t }
{}

/// Types that say the same are the same, places aside.
pub fn types_that_say_the_same()
    ensures { (s r : Shape RawName) (t : WrittenType) → TypeSays s t → TypeSays r t → bare s ≡ bare r }
{}

/// What a tree without faults says, its fragment says, where each name has a component and each declaration of actions
/// a name.
pub fn fragments_say_what_trees_say()
    ensures { (tree : List (Annotated Namespace)) (w : List WrittenItem) → AllZip SaysItem tree w
        → AllByRecursion IsWellNamed w → translation_faults tree ≡ [] → FragmentSays (translated tree) w }
{
    lawful_trees();
}

/// Whether a tree has faults depends on what it says alone, where each name has a component and each declaration of
/// actions a name.
pub fn faults_depend_on_what_is_said()
    ensures { (tree : List (Annotated Namespace)) (w : List WrittenItem) → AllZip SaysItem tree w
        → AllByRecursion IsWellNamed w → translation_faults tree ≡ [] ↔ IsSayable w }
{
    lawful_trees();
}

/// Fragments that say the same are the same, places aside.
pub fn fragments_that_say_the_same()
    ensures { (f g : Fragment RawName as_written) (w : List WrittenItem) → FragmentSays f w → FragmentSays g w
        → bare_fragment f ≡ bare_fragment g }
{}

/// What a tree says decides whether it has faults, and else its fragment, places aside, where each name has a component
/// and each declaration of actions a name.
pub fn trees_that_say_the_same()
    ensures faults { (tree other : List (Annotated Namespace)) (w : List WrittenItem) → AllZip SaysItem tree w
        → AllZip SaysItem other w → AllByRecursion IsWellNamed w → translation_faults tree ≡ []
        → translation_faults other ≡ [] }
    ensures fragments { (tree other : List (Annotated Namespace)) (w : List WrittenItem) → AllZip SaysItem tree w
        → AllZip SaysItem other w → AllByRecursion IsWellNamed w → translation_faults tree ≡ []
        → bare_fragment (translated tree) ≡ bare_fragment (translated other) }
{
    faults_depend_on_what_is_said();
    fragments_say_what_trees_say();
    fragments_that_say_the_same();
}

/// What is laid out has names.
pub fn proper_groups_are_named()
    ensures { (groups : List Group) → AllByRecursion IsProperGroup groups
        → AllByRecursion IsWellNamed (flat_map group_items groups) }
{}

/// What is written of a meaning whose names may be declared can be translated.
pub fn meanings_can_be_translated()
    ensures { (m : SchemaMeaning) → HasOpenNames m → IsSayable (flat_map group_items (groups_of_meaning m)) }
{}

/// A text that reads back as what can be translated has a fragment that says it, where each name has a component and
/// each declaration of actions a name.
pub fn texts_that_read_back_are_translated()
    ensures { (text : List ℕ) (w : List WrittenItem) → ReadsBack text w → AllByRecursion IsWellNamed w
        → IsSayable w → IsTranslatedAs text w }
{
    faults_depend_on_what_is_said();
    fragments_say_what_trees_say();
}

/// What is written of a meaning whose names are made of words, and whose enums have a choice, may be printed.
pub fn meanings_may_be_printed()
    ensures { (m : SchemaMeaning) → IsOfWords m → AllByRecursion IsProperGroup (groups_of_meaning m) }
{}

/// The text of a meaning, in either layout, has a fragment that says what is written of the meaning, where its names
/// are made of words and may be declared, and each enum has a choice.
pub fn texts_of_meanings_are_translated()
    ensures { (closing : Bool) (m : SchemaMeaning) → IsOfWords m → HasOpenNames m
        → IsTranslatedAs (schema_text closing m) (flat_map group_items (groups_of_meaning m)) }
{
    texts_of_meanings_read_back();
    meanings_may_be_printed();
    proper_groups_are_named();
    meanings_can_be_translated();
    texts_that_read_back_are_translated();
}

/// What is written of a meaning in a namespace is what the meaning has there, and what it has there is written.
pub fn namespaces_of_meanings_are_written()
    ensures of { (m : SchemaMeaning) (q : NamespaceName) (w : WrittenNamespace)
        → written_in (flat_map group_items (groups_of_meaning m)) q ≡ Some w → IsOfMeaning m q w }
    ensures all { (m : SchemaMeaning) (name : List (List ℕ)) → Contains (namespaces m) name
        → IsSome (items_of_meaning m name)
        → written_in (flat_map group_items (groups_of_meaning m)) (name_or_none name)
        ≡ Some (meant_in_namespace m name) }
{}
