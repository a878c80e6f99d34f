//! What the program can be asked to do.

/// What the program is to do.
#[derive(Debug, Drop)]
pub enum Command {
    /// To read the text of the file of this name.
    File { name: Vec<u8> },
    /// To read one write to the file of this name.
    Setting { name: Vec<u8> },
    /// To show a snapshot.
    Show,
    /// To write a snapshot as lines of JSON.
    Json,
    /// To check the delegation in a snapshot.
    Check,
    /// To read a plan.
    Plan,
    /// To list the kinds of files.
    Kinds,
}
