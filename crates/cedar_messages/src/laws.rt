//! Laws of messages. Each law is what its function ensures.
ghost use Rattle.std.specs.Prelude.{◌≡◌, ℕ, List};
ghost use Rattle.cedar_messages.specs.Messages.{AreMessages};

/// Bytes are one list of messages at most.
pub fn one_list_of_messages()
    ensures { (bytes : List ℕ) (messages others : List (List ℕ)) → AreMessages bytes messages
        → AreMessages bytes others → messages ≡ others }
{}
