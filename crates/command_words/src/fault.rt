//! What is wrong with words that are no command.

/// Why words are no command.
#[derive(Clone, Copy, Debug, PartialEq, Eq)]
pub enum WordsFault {
    /// This word is bad. The first word, the command itself, has the number 1.
    Word { number: u32 },
    /// The value of an option, a plain word or all words are missing.
    Missing,
}
