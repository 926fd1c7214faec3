ghost use Rattle.std.specs.Prelude.{◌≡◌, ◌↔◌, ℕ, List, IsTrue, MatchOption};
ghost use Rattle.cedar_messages.specs.Messages.{BeginsWith, AreMessages};

/// The first message of the bytes, and what stands behind it, where they begin with a whole message.
pub fn first_message<'a>(bytes: &'a [u8]) -> Option<(&'a [u8], &'a [u8])>
    ensures { MatchOption result ((message rest : List ℕ) → BeginsWith bytes.now message rest → ⊥)
        (λ r. BeginsWith bytes.now r.0.now r.1.now) }
{
    let &[a, b, c, d, ref behind @ ..] = bytes else {
        return None;
    };
    behind.split_at_checked(u32::from_be_bytes([a, b, c, d]) as usize)
}

/// Whether the bytes are whole messages to their end.
pub fn are_messages(bytes: &[u8]) -> bool
    ensures { IsTrue result ↔ ((messages : List (List ℕ)) × AreMessages bytes.now messages) }
{
    let mut left = bytes;
    while !left.is_empty() {
        let Some((_, rest)) = first_message(left) else {
            return false;
        };
        left = rest;
    }
    true
}
