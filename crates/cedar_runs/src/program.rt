ghost use Rattle.std.specs.Prelude.{◌≡◌, ◌≤◌, ◌<◌, ℕ, List, IfOk, MatchOption, length, map};
ghost use Rattle.std.specs.String.{string_bytes};
ghost use Rattle.cedar_io.specs.Input.{max_input};
ghost use Rattle.cedar_runs.specs.Reports.{Report, report_of, too_long_report};

use crate::reply::Reply;
use std::alloc::{AllocError, Global};

/// A command of a program, which words ask for, with the reply to each input.
pub trait Program: Drop {
    /// The words ask for this command.
    ghost asks: { List (List ℕ) → Self → Type 0 };

    /// The command reads the input; one that does not has a reply of its own.
    ghost reads: { Self → Type 0 };

    /// The report planned for words and the bytes of an input, where no read fails.
    ghost planned: { List (List ℕ) → List ℕ → Report → Type 0 };

    /// The command that the words after the program's name ask for, where they ask for one.
    fn of_words(alloc: Global, words: &[String]) -> Result<Option<Self>, AllocError>
        ensures { IfOk result (λ found. MatchOption found ((c : Self) → asks (map string_bytes words.now) c → ⊥)
            (asks (map string_bytes words.now))) };

    /// The reply to words that ask for no command.
    fn usage_reply(alloc: Global) -> Result<Reply, AllocError>
        ensures { (words : List (List ℕ)) (bytes : List ℕ) → ((c : Self) → asks words c → ⊥)
            → IfOk result (λ reply. planned words bytes (report_of reply)) };

    /// The reply of a command that reads no input.
    fn own_reply(&self, alloc: Global) -> Result<Option<Reply>, AllocError>
        requires asked { (words : List (List ℕ)) × asks words self.now }
        ensures { IfOk result (λ own. MatchOption own (reads self.now) (λ reply. (reads self.now → ⊥)
            × ((words : List (List ℕ)) (bytes : List ℕ) → asks words self.now
            → planned words bytes (report_of reply)))) };

    /// The reply to a whole input.
    fn input_reply(&self, alloc: Global, bytes: &[u8]) -> Result<Reply, AllocError>
        requires { length bytes.now ≤ max_input }
        ensures { (words : List (List ℕ)) → asks words self.now → reads self.now
            → IfOk result (λ reply. planned words bytes.now (report_of reply)) };

    /// Law: words ask for one command at most.
    fn one_command()
        ensures { (words : List (List ℕ)) (c d : Self) → asks words c → asks words d → c ≡ d };

    /// Law: where words ask for a command that reads the input, a longer one than an input may be is refused.
    fn long_inputs()
        ensures { (words : List (List ℕ)) (bytes : List ℕ) (c : Self) → asks words c → reads c
            → max_input < length bytes → planned words bytes too_long_report };

    /// Law: for the same words and the same input there is one report at most.
    fn one_plan()
        ensures { (words : List (List ℕ)) (bytes : List ℕ) (report other : Report) → planned words bytes report
            → planned words bytes other → report ≡ other };
}
