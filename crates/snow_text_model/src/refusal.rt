/// Why a line of a text says nothing.
/// Rule: this project's own.
#[derive(Clone, Copy, Debug, PartialEq, Eq)]
pub enum Reason {
    /// A word is wanting.
    Missing,
    /// A word stands where the line should end.
    Extra,
    /// No line begins with this word.
    Name,
    /// Another field is wanted here.
    Field,
    /// A decimal number is wanted, and one that fits its bytes.
    Number,
    /// Pairs of small hexadecimal digits are wanted, or a byte again and again.
    Digits,
    /// The bytes are too few or too many.
    Size,
    /// A node and its weight are wanted.
    Node,
    /// A transfer is wanted.
    Transfer,
    /// A list has more than 65,535 items.
    Many,
    /// The frame has more than 2,097,152 bytes.
    Long,
    /// No block has this name.
    Unknown,
    /// A name is a small letter, and then small letters, digits and `-`.
    Naming,
    /// Another block has this name.
    Twice,
    /// A block in the words of its chain is wanted.
    Chain,
    /// Nothing stands behind the rest.
    Behind,
}

/// The first place at which a text isn't taken.
/// Rule: this project's own.
#[derive(Clone, Copy, Debug, PartialEq, Eq)]
pub struct Refusal {
    /// The line, counted from 1.
    pub line: u64,
    /// The byte of the line, counted from 1, at which the word begins that isn't taken.
    pub column: u64,
    /// Why it isn't.
    pub reason: Reason,
}
