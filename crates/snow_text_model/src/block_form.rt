//! How a text shows blocks.
//!
//! No frame says of which chain its blocks are, so whoever shows a stream says it. A block that the
//! words of that chain don't spell is shown as its bytes. A text that is read may have blocks in the
//! words of each chain.

/// How the bytes of blocks are shown: as they are, or in the words of a chain where these spell the
/// very bytes.
/// Rule: this project's own.
#[derive(Clone, Copy, Debug, PartialEq, Eq)]
pub enum BlockForm {
    /// As they are.
    Bytes,
    /// In the words of the plain chain.
    Plain,
    /// In the words of the tally chain.
    Tally,
    /// In the words of the ledger chain.
    Ledger,
}
