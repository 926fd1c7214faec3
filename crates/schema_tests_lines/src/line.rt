use std::alloc::{AllocError, Global};

/// The line's answer and its text.
pub fn answer_and_text(line: &str) -> (&str, &str) {
    line.split_once('|').unwrap_or(("", ""))
}

/// The line with the line ends that its signs stand for: ␤ for a line feed and ␍ for a carriage return.
pub fn with_line_ends(alloc: Global, line: &str) -> Result<String, AllocError> {
    let mut text = String::new(alloc);
    for letter in line.chars() {
        match letter {
            '\u{2424}' => text.push('\n')?,
            '\u{240d}' => text.push('\r')?,
            _ => text.push(letter)?,
        }
    }
    Ok(text)
}
