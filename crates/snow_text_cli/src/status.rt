ghost use Rattle.std.specs.Prelude.{◌≡◌};
ghost use Rattle.snow_text_cli.specs.Model.Answer.{exit_code};

/// How the program ended. `code` returns the exit status of each.
/// Rule: this project's own.
#[derive(Clone, Copy, Debug, PartialEq, Eq)]
pub enum Status {
    /// All was written, and the end of the input was read.
    Done,
    /// The words ask for nothing that this program does.
    Usage,
    /// The text says nothing at some place.
    BadInput,
    /// The source failed.
    SourceFault,
    /// The sink failed.
    SinkFault,
    /// Memory ran out.
    Memory,
    /// More input came than is taken.
    Limit,
}

impl Status {
    /// Returns the exit status of the program: 0 for `Done`, and 2 to 7 for the others in their
    /// order. They are those of `snowman` for the same things.
    /// Rule: this project's own.
    pub fn code(self) -> u8
        ensures { result ≡ exit_code self }
    {
        match self {
            Status::Done => 0,
            Status::Usage => 2,
            Status::BadInput => 3,
            Status::SourceFault => 4,
            Status::SinkFault => 5,
            Status::Memory => 6,
            Status::Limit => 7,
        }
    }
}
