ghost use Rattle.std.specs.Prelude.{◌≡◌, Some};
ghost use Rattle.std.specs.List.{All};
ghost use Rattle.schema_syntax_parser.specs.Syntax.{IsApp, Applies};
ghost use Rattle.schema_syntax_reader.specs.Sites.{app_sites, apps_sites, applies_sites, empty};
ghost use Rattle.schema_syntax_reader.specs.Placed.{IsScanned};
ghost use Rattle.schema_syntax_reader.specs.Readings.{Reads};
ghost use Rattle.schema_syntax_reader.specs.Stops.{IsStoppedAt};
ghost use Rattle.schema_syntax_reader.specs.Trees.{role_of, IsAppOf, AppliesOf};

use crate::parts::{Part, optional, some};
use crate::paths::{Paths, path};
use crate::stopped::Stopped;
use crate::types::attrs;
use cedar_data::{Boxed, List, Loc, Node, NonEmpty};
use schema_syntax_errors::UserError;
use schema_syntax_grammar::TokenKind;
use schema_syntax_parser::AppSyntax;
use schema_syntax_tree::{AppDecl, Either, PR, PRAppDecl};
use std::alloc::Global;

// Whom the word stands for.
fn role_of(kind: TokenKind) -> PR
    ensures { result ≡ role_of kind }
{
    if kind == TokenKind::KwResource {
        PR::Resource
    } else {
        PR::Principal
    }
}

/// The fault of a list without items where one has to stand, with its brackets.
pub fn empty_list(alloc: Global, brackets: Loc) -> Stopped
    ensures { (source : _) → IsStoppedAt source (empty brackets) result }
{
    let fault = UserError::EmptyList(Node {
        node: (),
        loc: Some(brackets),
    });
    match Boxed::new(alloc, fault) {
        Ok(fault) => Stopped::User(fault),
        Err(error) => Stopped::from(error),
    }
}

// A member of an `appliesTo` block.
fn app<'a>(alloc: Global, text: &'a str, raw: AppSyntax) -> Result<Node<AppDecl<'a>>, Stopped>
    requires { IsScanned IsApp text.now raw }
    ensures { Reads text.now (app_sites raw) (IsAppOf text.now raw) result }
{
    match raw {
        AppSyntax::Types(word, paths, loc) => {
            let entity_tys = optional::<Paths>(alloc, text, paths)?;
            let kind = Node {
                node: role_of(word.kind()),
                loc: Some(word.loc()),
            };
            Ok(Node {
                node: AppDecl::PR(PRAppDecl { kind, entity_tys }),
                loc: Some(loc),
            })
        }
        AppSyntax::ContextPath(raw, loc) => {
            let path = path(alloc, text, raw)?;
            Ok(Node {
                node: AppDecl::Context(Either::Left(path)),
                loc: Some(loc),
            })
        }
        AppSyntax::ContextRecord(raws, record_loc, loc) => {
            let attrs = attrs(alloc, text, raws)?;
            let attrs = Node {
                node: List::from_vec(attrs),
                loc: Some(record_loc),
            };
            Ok(Node {
                node: AppDecl::Context(Either::Right(attrs)),
                loc: Some(loc),
            })
        }
    }
}

// The members of an `appliesTo` block.
struct Apps;

impl<'a> Part<'a> for Apps {
    type Raw = AppSyntax;

    type Item = Node<AppDecl<'a>>;

    ghost fits = { IsScanned IsApp };

    ghost sites = { app_sites };

    ghost stands_for = { IsAppOf };

    fn read(alloc: Global, text: &'a str, raw: AppSyntax) -> Result<Node<AppDecl<'a>>, Stopped> {
        app(alloc, text, raw)
    }
}

// The members of an `appliesTo` block with these braces: there has to be one.
fn members<'a>(
    alloc: Global,
    text: &'a str,
    raws: List<AppSyntax>,
    braces: Loc,
) -> Result<Option<Node<NonEmpty<Node<AppDecl<'a>>>>>, Stopped>
    requires { All (IsScanned IsApp text.now) raws }
    ensures { Reads text.now (apps_sites raws braces) (AppliesOf text.now (Some (raws, braces))) result }
{
    let Some(raws) = NonEmpty::from_vec(raws.into_vec()) else {
        return Err(empty_list(alloc, braces));
    };
    let node = some::<Apps>(alloc, text, raws)?;
    Ok(Some(Node {
        node,
        loc: Some(braces),
    }))
}

// The `appliesTo` block, where it stands.
pub fn applies<'a>(
    alloc: Global,
    text: &'a str,
    raw: Option<(List<AppSyntax>, Loc)>,
) -> Result<Option<Node<NonEmpty<Node<AppDecl<'a>>>>>, Stopped>
    requires { IsScanned Applies text.now raw }
    ensures { Reads text.now (applies_sites raw) (AppliesOf text.now raw) result }
{
    match raw {
        None => Ok(None),
        Some((raws, braces)) => members(alloc, text, raws, braces),
    }
}
