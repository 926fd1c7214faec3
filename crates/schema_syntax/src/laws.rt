ghost use Rattle.std.specs.Prelude.{◌≡◌, ℕ, List};
ghost use Rattle.schema_syntax.specs.SyntaxFaults.{IsSyntaxFault, IsSentence};
ghost use Rattle.schema_syntax.specs.declared.syntax_fault.SyntaxFault.{SyntaxFault};
ghost use Rattle.schema_syntax_tree.specs.declared.annotated.Annotated.{Annotated};
ghost use Rattle.schema_syntax_tree.specs.declared.namespace.Namespace.{Namespace};
ghost use Rattle.schema_syntax_errors.specs.declared.parse_error.ParseError.{ParseError};
ghost use Rattle.schema_syntax.specs.ParseAnswers.{IsTreeOfText, IsErrorOf};

use schema_syntax_grammar::laws::{one_fault, viable_fronts};
use schema_syntax_parser::one_syntax;
use schema_syntax_tokens::laws::one_scan;

/// A text has at most one syntax fault: one place, one token and one list.
pub fn one_syntax_fault()
    ensures { (text : List ℕ) (fault other : SyntaxFault) → IsSyntaxFault text fault → IsSyntaxFault text other
        → fault ≡ other }
{
    one_scan();
    one_fault();
    viable_fronts();
}

/// A text whose tokens are those of a schema has no syntax fault.
pub fn faulty_or_sentence()
    ensures { (text : List ℕ) (fault : SyntaxFault) → IsSyntaxFault text fault → IsSentence text → ⊥ }
{
    one_scan();
}

/// A text that has a tree has no error.
pub fn tree_or_error()
    ensures { (text : List ℕ) (schema : List (Annotated Namespace)) (error : ParseError) → IsTreeOfText text schema
        → IsErrorOf text error → ⊥ }
{
    faulty_or_sentence();
    one_scan();
    one_syntax();
}
