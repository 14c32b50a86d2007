// What a call is asked to do.

/// What `--dump` shows of FILE.
#[derive(Clone, Copy, Debug, PartialEq, Eq)]
pub enum Stage {
    /// Its tokens.
    Tokens,
    /// Its syntax tree.
    Tree,
}

/// What is made of FILE.
#[derive(Clone, Copy, Debug, PartialEq, Eq)]
pub enum Task {
    /// The text of its assembly.
    Compile,
    /// The text of a stage.
    Dump(Stage),
}

/// A task, and the name of FILE.
#[derive(Clone, Copy, Debug)]
pub struct Job<'a> {
    pub task: Task,
    pub file: &'a str,
}
