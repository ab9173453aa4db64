//! The limits of the protocol and of the program, each stated once, and how they belong together.

ghost use Rattle.std.specs.Prelude.{◌≡◌, ◌+◌, ◌-◌, ◌*◌, ◌^◌, ◌≤◌, All};
ghost use Rattle.snow_base.specs.Laws.Longest.{events, lines};

/// The most bytes of a stream that a run takes: 2^40. Behind them the run ends.
/// Rule: this project's own.
pub const INPUT_BYTES: u64 = 1_099_511_627_776;

/// The most bytes of a frame's payload. A longer one is bad input.
/// Rule: this project's own.
pub const FRAME_BYTES: u32 = 2_097_152;

/// The most bytes of a block in an event. An event with a longer one is passed over.
/// Rule: this project's own.
pub const BLOCK_BYTES: u32 = 65_536;

/// The most bytes of a recorded line, without the newline at its end. It is more than the longest
/// line that a run writes.
/// Rule: this project's own.
pub const LINE_BYTES: u32 = 1_100_000;

/// The most bytes that one read takes from a source, and that one write of gathered lines gives to
/// a sink.
/// Rule: this project's own.
pub const PIECE_BYTES: usize = 65_536;

/// The most identifiers of a Poll event: the votes of a poll at the greatest k.
/// Rule: this project's own.
pub const MOST_VOTES: u16 = 1_024;

/// The most numbers of a state, nodes, words, or identifiers that are accepted, in one event.
/// Rule: this project's own.
pub const MOST_LISTED: u16 = 4_096;

/// The most blocks of an Ancestors event.
/// Rule: this project's own.
pub const MOST_ANCESTORS: u16 = 2_048;

/// The greatest k: how many draws a query makes.
/// Rule: this project's own.
pub const MOST_K: u32 = 1_024;

/// The greatest beta: how many polls in a row decide.
/// Rule: this project's own.
pub const MOST_BETA: u32 = 65_535;

/// The most weight that all nodes have together: 2^63-1. So a choice among that many units takes
/// 63 bits of a word.
/// Rule: AvalancheGo, utils/sampler.
pub const MOST_WEIGHT: u64 = 9_223_372_036_854_775_807;

/// The last request number of a run: 2^32-1. A run that needs one more ends.
/// Rule: this project's own.
pub const LAST_REQUEST: u32 = 4_294_967_295;

/// The most pending blocks of a board. A block beyond them is dropped.
/// Rule: this project's own.
pub const MOST_PENDING: usize = 4_096;

/// The most blocks that wait in a queue. A block beyond them is dropped.
/// Rule: this project's own.
pub const MOST_WAITING: usize = 4_096;

/// The most open gets of a queue. Where as many are open, no block is asked for.
/// Rule: this project's own.
pub const MOST_GETS: usize = 4_096;

/// The entries of the gone list: the latest so many blocks that were decided or given up. The
/// oldest one is forgotten.
/// Rule: this project's own.
pub const MOST_GONE: usize = 8_192;

/// The most polls that run at once. A query beyond them isn't sent.
/// Rule: this project's own.
pub const MOST_POLLS: usize = 1_024;

/// The most held replies: one for each draw of each poll that runs. No code tests it, as no reply
/// is held that no poll awaits.
/// Rule: this project's own.
pub const MOST_HELD: usize = 1_048_576;

/// The most random words that wait for a query. An event that brings more is passed over.
/// Rule: this project's own.
pub const MOST_WORDS: usize = 65_536;

/// The accepted blocks that peers are served: the latest so many. The oldest one is forgotten.
/// Rule: this project's own.
pub const MOST_SERVED: usize = 4_096;

/// The most blocks of an answer with a block and its ancestors.
/// Rule: this project's own.
pub const ANSWER_BLOCKS: usize = 64;

/// The most bytes of all blocks of an answer with a block and its ancestors.
/// Rule: this project's own.
pub const ANSWER_BYTES: usize = 524_288;

/// The most blocks that are kept while a node bootstraps. At one more bootstrapping stops.
/// Rule: this project's own.
pub const MOST_KEPT: usize = 32_768;

/// The most blocks of a drill.
/// Rule: this project's own.
pub const MOST_DRILLED: u64 = 10_000;

/// Events and lines have room for what they are to hold, by lengths that are added up from their
/// parts. `frame`: a frame holds the longest event of each kind, where an Ancestors event is what a
/// node answers. `poll`: a Poll event holds the votes at the greatest k, and a Words event the
/// words of such a query. `answer`: an answer has room for each block, and an Ancestors event for
/// an answer. `line`: a Line event holds the longest line of each kind.
/// Rule: this project's own.
pub fn events_hold_law()
    ensures frame { All (λ n. n ≤ FRAME_BYTES) events }
    ensures poll { (MOST_VOTES ≡ MOST_K) × (MOST_K ≤ MOST_LISTED) }
    ensures answer { (BLOCK_BYTES ≤ ANSWER_BYTES) × (ANSWER_BLOCKS ≤ MOST_ANCESTORS) }
    ensures line { All (λ n. n ≤ LINE_BYTES) lines }
{}

/// A node's lists have room for what one event can bring to them. `gone`: all blocks that one event can decide or give up, which are
/// pending or wait, are still in the gone list behind it. `served`: peers are served all blocks
/// that one poll accepts. `gets`: each waiting block may ask for its parent. `held`: each draw of
/// each poll. `words`: the words of 64 queries at the greatest k, if none is lost.
/// Rule: this project's own.
pub fn lists_hold_law()
    ensures gone { MOST_GONE ≡ MOST_PENDING + MOST_WAITING }
    ensures served { MOST_PENDING ≤ MOST_SERVED }
    ensures gets { MOST_WAITING ≤ MOST_GETS }
    ensures held { MOST_HELD ≡ MOST_POLLS * MOST_K }
    ensures words { MOST_WORDS ≡ 64 * MOST_K }
{}

/// Limits that are ends of numbers: of the bytes in which a number stands, or of a power of two.
/// Rule: this project's own.
pub fn numbers_law()
    ensures input { INPUT_BYTES ≡ 2 ^ 40 }
    ensures weight { MOST_WEIGHT ≡ 2 ^ 63 - 1 }
    ensures request { LAST_REQUEST ≡ 2 ^ 32 - 1 }
    ensures beta { MOST_BETA ≡ 2 ^ 16 - 1 }
{}
