// What follows from the definitions, for callers.

ghost use Rattle.std.specs.Prelude.{◌≡◌, ◌≢◌, ℕ, List, [], ◌++◌, ◌≤◌, length};
ghost use Rattle.schema_syntax_grammar.specs.Fault.{IsFault};
ghost use Rattle.schema_syntax_grammar.specs.Grammar.{IsExpected, Sentence, Viable};
ghost use Rattle.schema_syntax_grammar.specs.declared.token_kind.TheConstants.{ALL_KINDS};
ghost use Rattle.schema_syntax_grammar.specs.declared.token_kind.TokenKind.{TokenKind};

/// Kinds have one list of what may come next.
pub fn one_expected()
    ensures { (kinds first second : List TokenKind) → IsExpected ALL_KINDS kinds first
        → IsExpected ALL_KINDS kinds second → first ≡ second }
{}

/// Where kinds begin a sentence, the list of what may come next is not empty.
pub fn expected_is_not_empty()
    ensures { (kinds list : List TokenKind) → Viable kinds → IsExpected ALL_KINDS kinds list → list ≢ [] }
{}

/// Kinds have at most one fault.
pub fn one_fault()
    ensures { (kinds first second : List TokenKind) (p q : ℕ) → IsFault ALL_KINDS kinds p first
        → IsFault ALL_KINDS kinds q second → (p ≡ q) × (first ≡ second) }
{}

/// Where a sentence begins with kinds, one begins with each front of them.
pub fn viable_fronts()
    ensures { (front rest : List TokenKind) → Viable (front ++ rest) → Viable front }
{}

/// A sentence is the beginning of one.
pub fn sentences_are_viable()
    ensures { (kinds : List TokenKind) → Sentence kinds → Viable kinds }
{}

/// Where the fault is at the end, all the kinds begin a sentence.
pub fn viable_at_end()
    ensures { (kinds list : List TokenKind) (place : ℕ) → IsFault ALL_KINDS kinds place list → length kinds ≤ place
        → Viable kinds }
{}
