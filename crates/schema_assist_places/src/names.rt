// The name of the namespace around a place.

ghost use Rattle.std.specs.Prelude.{◌≡◌, ◌≤◌, length};
ghost use Rattle.schema_assist_places.specs.Names.{before_brace, path_of};

use schema_syntax_grammar::{HasKind, TokenKind};

/// How many tokens stand before the first `{`.
pub fn before_brace<T: HasKind>(tokens: &[T]) -> usize
    ensures count { result ≡ before_brace T.kind_of tokens.now }
    ensures within { result ≤ length tokens.now }
{
    let mut n = tokens.len();
    let mut i = tokens.len();
    while i > 0 {
        i -= 1;
        n = if tokens[i].kind() == TokenKind::LBrace {
            i
        } else {
            n
        };
    }
    n
}

/// The path of the namespace whose word `namespace` is at this place; nothing for none.
pub fn path_around<T: HasKind>(tokens: &[T], space: Option<usize>) -> &[T]
    ensures { result.now ≡ path_of T.kind_of tokens.now space }
{
    match space {
        Some(i) if i < tokens.len() => {
            let (_, behind) = tokens.split_at(i + 1);
            let (path, _) = behind.split_at(before_brace(behind));
            path
        }
        _ => {
            let (none, _) = tokens.split_at(0);
            none
        }
    }
}
