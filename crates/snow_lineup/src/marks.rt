ghost use Rattle.std.specs.Prelude.{◌≡◌};
ghost use Rattle.snow_lineup.specs.Kept.Marks.{is_mark};

/// What is remembered of something that waits.
/// Rule: this project's own.
#[derive(Clone, Copy, Debug, PartialEq, Eq)]
pub enum Mark {
    /// Nothing: it is to be looked at.
    New,
    /// It can't go on yet: a block's parent is not on the board but asked for or waiting right
    /// below it, or a reply's block waits or is asked for.
    Quiet,
    /// The block's parent is on the board.
    Ripe,
}

impl Mark {
    /// Whether it is the other one.
    pub(crate) fn is(self, other: Mark) -> bool
        ensures { result ≡ is_mark other self }
    {
        match (other, self) {
            (Mark::New, Mark::New) | (Mark::Quiet, Mark::Quiet) | (Mark::Ripe, Mark::Ripe) => true,
            _ => false,
        }
    }
}
