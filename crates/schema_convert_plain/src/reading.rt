ghost use Rattle.std.specs.Prelude.{◌≡◌, true, [], List, length, IfOk, IfErr, IfSome};
ghost use Rattle.std.specs.List.{All};
ghost use Rattle.schema_syntax_grammar.specs.Grammar.{Sentence};
ghost use Rattle.schema_syntax_tokens.specs.Scans.{Scans, IsPlaced};
ghost use Rattle.schema_syntax_tokens.specs.TokenLists.{kinds_of};
ghost use Rattle.schema_syntax_tree.specs.declared.annotated.Annotated.{Annotated};
ghost use Rattle.schema_syntax_tree.specs.declared.namespace.Namespace.{Namespace};
ghost use Rattle.schema_syntax_parser.specs.Syntax.{IsItem};
ghost use Rattle.schema_syntax_reader.specs.Placed.{IsScanned};
ghost use Rattle.schema_syntax_reader.specs.Sites.{item_sites};
ghost use Rattle.schema_syntax_reader.specs.Stops.{IsStopped};
ghost use Rattle.schema_convert_plain.specs.Gathered.{AddsItem};
ghost use Rattle.schema_syntax_reader.specs.LawfulTrees.{IsLawfulTree, IsStopOf};
ghost use Rattle.schema_convert_plain.specs.Translation.{IsTranslation};

use crate::gathering::{Gathered, gathered_fragment, push_namespace, push_outside};
use cedar_identifiers::RawName;
use cedar_names::ExtensionTable;
use schema_json::Fragment;
use schema_syntax_parser::{ItemSyntax, next_item};
use schema_syntax_reader::{Stopped, declared};
use schema_syntax_tokens::ShortToken;
use std::alloc::Global;

// Adds what the item defines, where nothing is to be said of it.
#[tactic(auto, using(crate::proofs::ItemByItem::outside_added))]
fn push_item(
    alloc: Global,
    text: &str,
    table: &ExtensionTable,
    gathered: &mut Gathered,
    raw: ItemSyntax,
) -> Result<bool, Stopped>
    requires { IsScanned IsItem text.now raw }
    ensures added { IfOk result (λ plain. plain ≡ true → AddsItem text.now table.now raw gathered.old gathered.new) }
    ensures fault { IfErr result (IsStopped text.now (item_sites raw)) }
{
    match raw {
        ItemSyntax::Namespace(list, name, raws, _) => {
            push_namespace(alloc, text, table, gathered, list, name, raws)
        }
        ItemSyntax::Decl(raw) => {
            let decl = declared(alloc, text, raw)?;
            let plain = push_outside(alloc, table, gathered, &decl)?;
            Ok(plain)
        }
    }
}

/// The fragment that a text of these tokens stands for, where it has neither faults nor warnings and opens no namespace
/// twice: each item is translated once it is read. Or of its user faults the one that ends first.
pub fn fragment_at_once(
    alloc: Global,
    text: &str,
    tokens: &[ShortToken],
    table: &ExtensionTable,
) -> Result<Option<Fragment<RawName>>, Stopped>
    requires scans { Scans text.now tokens.now (length text.now) }
    requires placed { All (IsPlaced text.now) tokens.now }
    requires sentence { Sentence (kinds_of tokens.now) }
    ensures found { IfOk result (λ found. IfSome found (λ fragment. (tree : List (Annotated Namespace))
        × IsLawfulTree text.now tokens.now tree × IsTranslation tree table.now fragment [])) }
    ensures fault { IfErr result (IsStopOf text.now tokens.now) }
{
    let mut gathered = Gathered::new(alloc);
    let mut rest = tokens;
    while let Some((raw, after)) = next_item(alloc, rest)? {
        if !push_item(alloc, text, table, &mut gathered, raw)? {
            return Ok(None);
        }
        rest = after;
    }
    let fragment = gathered_fragment(alloc, gathered)?;
    Ok(fragment)
}
