/// The kinds of lines.
/// Rule: this project's own.
#[derive(Clone, Copy)]
pub enum Kind {
    Query,
    Get,
    Frontier,
    Accepted,
    Ancestors,
    Accept,
    Reject,
    Prefer,
    Drop,
    DropQuery,
    Skip,
    Restart,
    Bootstrapped,
    ToChits,
    ToFrontier,
    ToAccepted,
    ToAncestors,
    ToBlock,
}

impl Kind {
    ghost use Rattle.std.specs.Prelude.{◌≡◌, ◌≤◌, length};
    ghost use Rattle.snow_lines.specs.Model.Names.{line_name};

    /// Returns the word with which the lines of this kind begin, at most 12 bytes.
    /// Rule: this project's own.
    pub fn word(&self) -> &'static [u8]
        ensures word { result.now ≡ line_name self.now }
        ensures short { length result.now ≤ 12 }
    {
        match self {
            Kind::Query => b"query",
            Kind::Get => b"get",
            Kind::Frontier => b"frontier",
            Kind::Accepted => b"accepted",
            Kind::Ancestors => b"ancestors",
            Kind::Accept => b"accept",
            Kind::Reject => b"reject",
            Kind::Prefer => b"prefer",
            Kind::Drop => b"drop",
            Kind::DropQuery => b"drop-query",
            Kind::Skip => b"skip",
            Kind::Restart => b"restart",
            Kind::Bootstrapped => b"bootstrapped",
            Kind::ToChits => b"to-chits",
            Kind::ToFrontier => b"to-frontier",
            Kind::ToAccepted => b"to-accepted",
            Kind::ToAncestors => b"to-ancestors",
            Kind::ToBlock => b"to-block",
        }
    }
}
