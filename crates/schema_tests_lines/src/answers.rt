use cedar_data::{CloneIn, Text};
use std::alloc::{AllocError, Global};

/// A text of these characters, which is empty where out of memory.
pub fn text(alloc: Global, s: &str) -> Text {
    match Text::from_str(alloc, s) {
        Ok(text) => text,
        Err(_) => Text::new(alloc),
    }
}

/// Is the answer this text?
pub fn says(answer: Result<Text, AllocError>, wanted: &str) -> bool {
    match answer {
        Ok(text) => text.as_str() == wanted,
        Err(_) => false,
    }
}

/// Is a copy like its source?
pub fn copies<T: CloneIn + PartialEq>(alloc: Global, value: &T) -> bool {
    match value.clone_in(alloc) {
        Ok(copy) => copy == *value,
        Err(_) => false,
    }
}
