use cedar_data::{Label, Loc, Text};
use std::alloc::AllocError;

/// What is left of an answer, of which the pieces that are found are taken from the front.
#[derive(Drop)]
pub struct Wanted<'a> {
    left: &'a str,
    met: bool,
}

impl<'a> Wanted<'a> {
    /// The whole answer.
    pub fn new(answer: &'a str) -> Wanted<'a> {
        Wanted {
            left: answer,
            met: true,
        }
    }

    /// The piece is found next.
    pub fn piece(&mut self, piece: &str) {
        match self.left.strip_prefix(piece) {
            Some(left) => self.left = left,
            None => self.met = false,
        }
    }

    /// The letter is found next.
    pub fn letter(&mut self, letter: char) {
        match self.left.strip_prefix(letter) {
            Some(left) => self.left = left,
            None => self.met = false,
        }
    }

    /// The number is found next, in decimal digits.
    pub fn number(&mut self, number: usize) {
        let left = self.left.trim_start_matches(|c: char| c.is_ascii_digit());
        let digits = self.left.strip_suffix(left).unwrap_or("");
        if digits.parse::<usize>() == Ok(number) {
            self.left = left;
        } else {
            self.met = false;
        }
    }

    /// The place is found next: `@` and its two ends, or `@-` where there is none.
    pub fn place(&mut self, place: Option<Loc>) {
        match place {
            None => self.piece("@-"),
            Some(loc) => {
                self.piece("@");
                self.number(loc.start);
                self.piece("-");
                self.number(loc.end);
            }
        }
    }

    /// The text is found next.
    pub fn text(&mut self, text: Result<Text, AllocError>) {
        match text {
            Ok(text) => self.piece(text.as_str()),
            Err(_) => self.met = false,
        }
    }

    /// A place that is pointed to is found next, in brackets, with what is said there.
    pub fn label(&mut self, label: &Label) {
        self.piece(" [");
        self.number(label.span.start);
        self.piece("..");
        self.number(label.span.end);
        if let Some(text) = &label.text {
            self.piece(" ");
            self.piece(text.as_str());
        }
        self.piece("]");
    }

    /// The places that are pointed to are found next.
    pub fn labels(&mut self, labels: Result<Vec<Label>, AllocError>) {
        match labels {
            Ok(labels) => {
                for label in &labels {
                    self.label(label);
                }
            }
            Err(_) => self.met = false,
        }
    }

    /// The advice is found next, where there is any.
    pub fn advice(&mut self, help: Result<Option<Text>, AllocError>) {
        match help {
            Ok(Some(help)) => {
                self.piece(" help: ");
                self.piece(help.as_str());
            }
            Ok(None) => {}
            Err(_) => self.met = false,
        }
    }

    /// Whether what was found is the whole answer.
    pub fn is_met(&self) -> bool {
        self.met && self.left.is_empty()
    }
}
