//! What a fragment says, places aside: that it says what its tree says, and that fragments that say the same are the
//! same; and that the text of a meaning has a fragment that says what is written of the meaning.
#![tactic(auto)]

pub mod laws;
