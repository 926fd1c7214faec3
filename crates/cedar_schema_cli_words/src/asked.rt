//! What the words of the command line can ask for.

/// How reports are written.
#[derive(Clone, Copy, PartialEq, Eq)]
pub enum Form {
    /// For people: each with its source lines.
    Human,
    /// One line each.
    Short,
    /// A line with a JSON object each.
    Json,
    /// A workflow command of GitHub each.
    GitHub,
}

/// What becomes of the texts that `format` lays out.
#[derive(Clone, Copy, PartialEq, Eq)]
pub enum Mode {
    /// They are written to the output.
    Print,
    /// The output names the files that would change.
    Name,
    /// They replace what the files hold.
    Write,
}

/// The commands.
#[derive(Clone, Copy, PartialEq, Eq)]
pub enum Command {
    /// Reports the faults and the warnings of schemas.
    Check,
    /// Lays out schema texts.
    Format,
}

/// The options of the commands. A command has some of them alone.
#[derive(Clone, Copy)]
pub struct Options {
    /// How reports are written.
    pub form: Form,
    /// Whether all reports are written, and not the first 100 alone.
    pub all: bool,
    /// What becomes of texts laid out.
    pub mode: Mode,
}

/// A command with its options and the names of its inputs, of which there is at least one. The name `-` is that of the
/// standard input, and each other name is the path of a file.
#[derive(Drop)]
pub struct Asked {
    pub command: Command,
    pub options: Options,
    pub names: Vec<String>,
}
