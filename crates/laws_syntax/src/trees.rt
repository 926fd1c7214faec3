//! Each law is what its function ensures; the functions do nothing but cite laws below them.
ghost use Rattle.std.specs.Prelude.{◌≡◌, ℕ, List, length, IsUtf8};
ghost use Rattle.schema_syntax_tokens.specs.declared.token.Token.{Token};
ghost use Rattle.schema_syntax_tokens.specs.Scans.{Scans};
ghost use Rattle.schema_syntax_parser.specs.declared.syntax.ItemSyntax.{ItemSyntax};
ghost use Rattle.schema_syntax_parser.specs.Syntax.{IsSyntax};
ghost use Rattle.schema_syntax_tree.specs.declared.annotated.Annotated.{Annotated};
ghost use Rattle.schema_syntax_tree.specs.declared.namespace.Namespace.{Namespace};
ghost use Rattle.schema_syntax_errors.specs.declared.parse_error.ParseError.{ParseError};
ghost use Rattle.schema_syntax_errors.specs.declared.user_error.UserError.{UserError};
ghost use Rattle.schema_syntax_reader.specs.UserFaults.{HasUserFault};
ghost use Rattle.schema_syntax.specs.ParseAnswers.{IsTreeOfText, IsErrorOf};

use schema_syntax::{faulty_or_sentence, one_syntax_fault};
use schema_syntax_parser::one_syntax;
use schema_syntax_tokens::laws::{one_scan, one_value};

/// A text has at most one tree.
pub fn one_tree()
    ensures { (text : List ℕ) (tree other : List (Annotated Namespace)) → IsTreeOfText text tree
        → IsTreeOfText text other → tree ≡ other }
{
    one_scan();
    one_syntax();
    one_value();
}

/// No two user faults of a text in UTF-8 end together.
pub fn no_two_user_faults_end_together()
    ensures { (text : List ℕ) (tokens : List Token) (items : List ItemSyntax) (f g : UserError) (end : ℕ) → IsUtf8 text
        → Scans text tokens (length text) → IsSyntax tokens items → HasUserFault text items f end
        → HasUserFault text items g end → f ≡ g }
{
    one_value();
}

/// A text in UTF-8 has at most one error: one syntax fault, or one user fault that ends first.
pub fn one_error()
    ensures { (text : List ℕ) → IsUtf8 text → (error other : ParseError) → IsErrorOf text error → IsErrorOf text other
        → error ≡ other }
{
    one_value();
    one_scan();
    one_syntax();
    one_syntax_fault();
    faulty_or_sentence();
}
