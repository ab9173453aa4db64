ghost use Rattle.std.specs.Prelude.{◌≡◌};
ghost use Rattle.snow_text_cli.specs.Model.Answer.{status_of};
ghost use Rattle.snow_text_cli.specs.Clauses.Ends.{finish_of_make, finish_of_show};

use crate::status::Status;
use snow_text::{MakeEnd, Refusal, ShowEnd};

/// How the program ended.
/// Rule: this project's own.
#[derive(Clone, Copy, Debug, PartialEq, Eq)]
pub enum Finish {
    /// All was written.
    Done,
    /// The words ask for nothing.
    Usage,
    /// The text says nothing at some place.
    Refused(Refusal),
    /// The source failed.
    SourceFault,
    /// The sink failed.
    SinkFault,
    /// Memory ran out.
    Memory,
    /// More input came than is taken.
    Limit,
}

impl Finish {
    /// Returns the status for this end.
    /// Rule: this project's own.
    pub fn status(&self) -> Status
        ensures { result ≡ status_of self.now }
    {
        match self {
            Finish::Done => Status::Done,
            Finish::Usage => Status::Usage,
            Finish::Refused(_) => Status::BadInput,
            Finish::SourceFault => Status::SourceFault,
            Finish::SinkFault => Status::SinkFault,
            Finish::Memory => Status::Memory,
            Finish::Limit => Status::Limit,
        }
    }

    /// Returns how the program ended, where it showed a stream.
    pub(crate) fn of_show(end: ShowEnd) -> Finish
        ensures { result ≡ finish_of_show end }
    {
        match end {
            ShowEnd::Done => Finish::Done,
            ShowEnd::InputLimit => Finish::Limit,
            ShowEnd::SourceFault => Finish::SourceFault,
            ShowEnd::SinkFault => Finish::SinkFault,
            ShowEnd::Memory => Finish::Memory,
        }
    }

    /// Returns how the program ended, where it made a stream.
    pub(crate) fn of_make(end: MakeEnd) -> Finish
        ensures { result ≡ finish_of_make end }
    {
        match end {
            MakeEnd::Done => Finish::Done,
            MakeEnd::Refused(refusal) => Finish::Refused(refusal),
            MakeEnd::InputLimit => Finish::Limit,
            MakeEnd::SourceFault => Finish::SourceFault,
            MakeEnd::SinkFault => Finish::SinkFault,
            MakeEnd::Memory => Finish::Memory,
        }
    }
}
