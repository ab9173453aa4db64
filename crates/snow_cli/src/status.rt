ghost use Rattle.std.specs.Prelude.{◌≡◌};
ghost use Rattle.snow_cli.specs.Clauses.Answer.{end_status, exit_code, status_of};

use snow_engine::End;

/// How a command ended.
/// Rule: this project's own.
#[derive(Clone, Copy, Debug, PartialEq, Eq)]
pub enum Finish {
    /// As a run over a stream does; an audit that finds no difference is done.
    Ended(End),
    /// A recorded line that was audited isn't the model's.
    Differs,
}

/// How the program ended. `code` returns the exit status of each.
/// Rule: this project's own.
#[derive(Clone, Copy, Debug, PartialEq, Eq)]
pub enum Status {
    /// All lines were written, and the end of the input was read.
    Done,
    /// The words ask for nothing that this program does.
    Usage,
    /// The input is bad at some frame.
    BadInput,
    /// The source failed.
    SourceFault,
    /// The sink failed.
    SinkFault,
    /// Memory ran out.
    Memory,
    /// More input came than is taken, or a request number was needed and all are used up.
    Limit,
    /// Bootstrapping stopped.
    BootStopped,
    /// The lines of the run that was audited aren't the model's.
    Differs,
}

impl Status {
    /// Returns the exit status of the program: 0 for `Done`, and 2 to 9 for the others in their
    /// order.
    /// Rule: this project's own.
    pub fn code(self) -> u8
        ensures { result ≡ exit_code self }
    {
        match self {
            Status::Done => 0,
            Status::Usage => 2,
            Status::BadInput => 3,
            Status::SourceFault => 4,
            Status::SinkFault => 5,
            Status::Memory => 6,
            Status::Limit => 7,
            Status::BootStopped => 8,
            Status::Differs => 9,
        }
    }

    /// Returns the status for how a command ended; `Usage` where there was none.
    pub(crate) fn of(ended: Option<Finish>) -> Status
        ensures { result ≡ status_of ended }
    {
        match ended {
            None => Status::Usage,
            Some(Finish::Differs) => Status::Differs,
            Some(Finish::Ended(end)) => Status::of_end(end),
        }
    }

    /// Returns the status for how a run ended.
    fn of_end(end: End) -> Status
        ensures { result ≡ end_status end }
    {
        match end {
            End::Done => Status::Done,
            End::BadInput { .. } => Status::BadInput,
            End::SourceFault => Status::SourceFault,
            End::SinkFault => Status::SinkFault,
            End::Memory => Status::Memory,
            End::InputLimit => Status::Limit,
            End::RequestLimit => Status::Limit,
            End::BootStopped(_) => Status::BootStopped,
        }
    }
}
