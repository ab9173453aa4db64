/// Why a `drop` line gives a block up.
/// Rule: this project's own.
#[derive(Clone, Copy, PartialEq, Eq)]
pub enum DropWhy {
    /// Its parent isn't on the board.
    Parent,
    /// There is no room for it.
    Full,
    /// Its height doesn't fit its parent's, or its chain refuses it.
    Invalid,
    /// It was decided before, or is too low.
    Old,
}

/// Why a `drop-query` line sends no query.
/// Rule: this project's own.
#[derive(Clone, Copy, PartialEq, Eq)]
pub enum QueryWhy {
    /// There is no room for another poll.
    Full,
    /// The nodes have too little weight together.
    Units,
    /// There are too few random words.
    Words,
}

/// Why a `restart` line begins bootstrapping again.
/// Rule: this project's own.
#[derive(Clone, Copy, PartialEq, Eq)]
pub enum RestartWhy {
    /// Too little came back of the accepted frontier.
    Frontier,
    /// Too little came back of what is accepted.
    Accepted,
}

/// Why a `skip` line passes a frame over.
/// Rule: this project's own.
#[derive(Clone, Copy, PartialEq, Eq)]
pub enum SkipKind {
    /// Its first byte is no tag.
    Tag,
    /// It ends inside a field.
    Short,
    /// Bytes are left behind its fields.
    Extra,
    /// A field is outside its range.
    Count,
    /// Its event isn't one of the task's.
    Task,
    /// Its event isn't one of this stage.
    Stage,
    /// It has more votes than a poll may have.
    Votes,
    /// There is no room for what it brings.
    Full,
    /// Its block can't be read.
    Block,
    /// Its nodes can't be the validators.
    Nodes,
}

impl DropWhy {
    ghost use Rattle.std.specs.Prelude.{◌≡◌, ◌≤◌, length};
    ghost use Rattle.snow_lines.specs.Model.Text.{spaced, why_word};

    /// Returns its word with a space in front, at most 12 bytes.
    /// Rule: this project's own.
    pub fn spaced_word(&self) -> &'static [u8]
        ensures word { result.now ≡ spaced (why_word self.now) }
        ensures short { length result.now ≤ 12 }
    {
        match self {
            DropWhy::Parent => b" parent",
            DropWhy::Full => b" full",
            DropWhy::Invalid => b" invalid",
            DropWhy::Old => b" old",
        }
    }
}

impl QueryWhy {
    ghost use Rattle.std.specs.Prelude.{◌≡◌, ◌≤◌, length};
    ghost use Rattle.snow_lines.specs.Model.Text.{spaced, query_word};

    /// Returns its word with a space in front, at most 12 bytes.
    /// Rule: this project's own.
    pub fn spaced_word(&self) -> &'static [u8]
        ensures word { result.now ≡ spaced (query_word self.now) }
        ensures short { length result.now ≤ 12 }
    {
        match self {
            QueryWhy::Full => b" full",
            QueryWhy::Units => b" units",
            QueryWhy::Words => b" words",
        }
    }
}

impl RestartWhy {
    ghost use Rattle.std.specs.Prelude.{◌≡◌, ◌≤◌, length};
    ghost use Rattle.snow_lines.specs.Model.Text.{spaced, restart_word};

    /// Returns its word with a space in front, at most 12 bytes.
    /// Rule: this project's own.
    pub fn spaced_word(&self) -> &'static [u8]
        ensures word { result.now ≡ spaced (restart_word self.now) }
        ensures short { length result.now ≤ 12 }
    {
        match self {
            RestartWhy::Frontier => b" frontier",
            RestartWhy::Accepted => b" accepted",
        }
    }
}

impl SkipKind {
    ghost use Rattle.std.specs.Prelude.{◌≡◌, ◌≤◌, [], ◌∷◌, ◌++◌, length, take};
    ghost use Rattle.snow_lines.specs.Model.Text.{spaced, kind_word};

    /// Returns its word with a space in front, at most 12 bytes.
    /// Rule: this project's own.
    pub fn spaced_word(&self) -> &'static [u8]
        ensures word { result.now ≡ spaced (kind_word self.now) }
        ensures short { length result.now ≤ 12 }
    {
        match self {
            SkipKind::Tag => b" tag",
            SkipKind::Short => b" short",
            SkipKind::Extra => b" extra",
            SkipKind::Count => b" count",
            SkipKind::Task => b" task",
            SkipKind::Stage => b" stage",
            SkipKind::Votes => b" votes",
            SkipKind::Full => b" full",
            SkipKind::Block => b" block",
            SkipKind::Nodes => b" nodes",
        }
    }

    /// Returns the end of a line: its word with a space in front and a newline, at the front of a
    /// piece of a known length, and how long they are, at most 8 bytes.
    /// Rule: this project's own.
    #[inline(always)]
    pub fn line_end(&self) -> (&'static [u8; 8], usize)
        ensures end { take result.1 result.0.now ≡ spaced (kind_word self.now) ++ 10 ∷ [] }
        ensures short { result.1 ≤ 8 }
    {
        match self {
            SkipKind::Tag => (b" tag\n   ", 5),
            SkipKind::Short => (b" short\n ", 7),
            SkipKind::Extra => (b" extra\n ", 7),
            SkipKind::Count => (b" count\n ", 7),
            SkipKind::Task => (b" task\n  ", 6),
            SkipKind::Stage => (b" stage\n ", 7),
            SkipKind::Votes => (b" votes\n ", 7),
            SkipKind::Full => (b" full\n  ", 6),
            SkipKind::Block => (b" block\n ", 7),
            SkipKind::Nodes => (b" nodes\n ", 7),
        }
    }
}
