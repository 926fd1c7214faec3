//! Laws of fragments that declare the same, and of what is written in another order. Each law is what its function
//! ensures.
ghost use Rattle.std.specs.Prelude.{ℕ, List};
ghost use Rattle.cedar_identifiers.specs.declared.raw_name.RawName.{RawName};
ghost use Rattle.cedar_names.specs.Meaning.{SchemaMeaning};
ghost use Rattle.cedar_names.specs.declared.extension_table.ExtensionTable.{ExtensionTable};
ghost use Rattle.schema_json.specs.declared.fragment.Fragment.{Fragment};
ghost use Rattle.schema_json.specs.AsWritten.{as_written};
ghost use Rattle.schema_convert_errors.specs.declared.warnings.SchemaWarning.{SchemaWarning};
ghost use Rattle.schema_convert.specs.Translated.{IsTranslationOfText};
ghost use Rattle.laws_written.specs.Written.{WrittenItem};
ghost use Rattle.laws_translate.specs.FragmentsSay.{FragmentSays};
ghost use Rattle.laws_translate.specs.Sayable.{IsSayable};
ghost use Rattle.schema_build_checks.specs.Rows.{Never};
ghost use Rattle.schema_build_parts.specs.BuildFaults.{BuildFault};
ghost use Rattle.schema_build.specs.FaultsTold.{IsInOrder};
ghost use Rattle.schema_build.specs.Meaning.{FragmentMeaning};
ghost use Rattle.laws_build.specs.Orders.Alike.{DeclareTheSame};
ghost use Rattle.laws_build.specs.Orders.Reordered.{IsReordered, IsReorderedWithin, IsDivided, AreRearranged};
ghost use Rattle.laws_build.specs.Orders.Texts.{IsWrittenAs, HaveTheSameTokens, IsTranslatedAlike};

use laws_syntax::trees::one_tree;
use laws_translate::laws::{
    faults_depend_on_what_is_said, fragments_say_what_trees_say, fragments_that_say_the_same,
};
use laws_written::laws::{spelled_schemas_are_read, trees_are_spelled};
use schema_syntax_parser::syntax_is_sentence;
use schema_syntax_tokens::laws::one_scan;

/// Of fragments that are the same, places and annotations of namespaces aside, the second has no build fault where the
/// first has none, and it means what the first means, where its own entries are in the order of their names.
pub fn what_declares_the_same_means_the_same()
    ensures means { (f g : Fragment RawName as_written) (table : ExtensionTable) (m : SchemaMeaning)
        → DeclareTheSame f g → IsInOrder g → FragmentMeaning f table m → FragmentMeaning g table m }
    ensures faultless { (f g : Fragment RawName as_written) (table : ExtensionTable) → DeclareTheSame f g
        → Never (BuildFault f table) → Never (BuildFault g table) }
{}

/// What is written again with whole items in another order, with the declarations of an opening in another order, or
/// with the declarations of an opening divided over two, declares the same in each namespace. Declaring the same goes
/// both ways, and what is written declares the same as itself.
pub fn reordered_texts_are_rearranged()
    ensures items { (w v : List WrittenItem) → IsReordered w v → AreRearranged w v }
    ensures declarations { (w v : List WrittenItem) → IsReorderedWithin w v → AreRearranged w v }
    ensures divided { (w v : List WrittenItem) → IsDivided w v → AreRearranged w v }
    ensures back { (w v : List WrittenItem) → AreRearranged w v → AreRearranged v w }
    ensures same { (w : List WrittenItem) → AreRearranged w w }
{}

/// Of what declares the same in each namespace, the second can be translated where the first can, and then their
/// fragments declare the same. The entries of a fragment that says what is written are in order.
pub fn rearranged_texts_declare_the_same()
    ensures sayable { (w v : List WrittenItem) → AreRearranged w v → IsSayable w → IsSayable v }
    ensures declare { (f g : Fragment RawName as_written) (w v : List WrittenItem) → FragmentSays f w
        → FragmentSays g v → AreRearranged w v → IsSayable w → DeclareTheSame f g }
    ensures ordered { (f : Fragment RawName as_written) (w : List WrittenItem) → FragmentSays f w → IsInOrder f }
{
    fragments_that_say_the_same();
}

/// Where the tokens of two texts spell what is rearranged, and the first text is translated, the second is translated
/// to a fragment that declares the same.
pub fn rearranged_texts_are_translated()
    ensures { (text other : List ℕ) (table : ExtensionTable) (w v : List WrittenItem)
        (f : Fragment RawName as_written) (warnings : List SchemaWarning) → IsWrittenAs text w → IsWrittenAs other v
        → AreRearranged w v → IsTranslationOfText text table f warnings → IsTranslatedAlike other table f }
{
    syntax_is_sentence();
    spelled_schemas_are_read();
    one_tree();
    fragments_say_what_trees_say();
    faults_depend_on_what_is_said();
    rearranged_texts_declare_the_same();
}

/// Where two texts have the same tokens, and the first is translated, the second is translated to a fragment that
/// declares the same.
pub fn same_tokens_are_translated()
    ensures { (text other : List ℕ) (table : ExtensionTable) (f : Fragment RawName as_written)
        (warnings : List SchemaWarning) → HaveTheSameTokens text other → IsTranslationOfText text table f warnings
        → IsTranslatedAlike other table f }
{
    one_scan();
    trees_are_spelled();
    rearranged_texts_are_translated();
    reordered_texts_are_rearranged();
}

/// The tokens of a text that is translated spell something.
pub fn translated_texts_are_written()
    ensures { (text : List ℕ) (table : ExtensionTable) (f : Fragment RawName as_written)
        (warnings : List SchemaWarning) → IsTranslationOfText text table f warnings
        → (w : List WrittenItem) × IsWrittenAs text w }
{
    trees_are_spelled();
}
