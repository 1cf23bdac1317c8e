//! Why a case has no outcome, and the files of a case.

ghost use Rattle.std.specs.Prelude.{◌≡◌};
ghost use Rattle.acc_cases.specs.Cases.{ending_of};

/// A file of a case, by what it holds.
#[derive(Clone, Copy, Debug, PartialEq, Eq)]
pub enum Kind {
    /// A script; or a script, a line `%%` and a schedule.
    Script,
    /// A schedule.
    Schedule,
    /// The line of the options.
    Line,
    /// What is wanted.
    Report,
}

impl Kind {
    /// What stands behind the case's name in the file's.
    pub fn ending(self) -> &'static str
        ensures { result.now ≡ ending_of self }
    {
        match self {
            Kind::Script => ".acc",
            Kind::Schedule => ".schedule",
            Kind::Line => ".options",
            Kind::Report => ".report",
        }
    }
}

/// Why nothing comes of a case, or what came isn't compared.
#[derive(Debug, Drop)]
pub enum CaseFault {
    /// A file that isn't there, or can't be read to its end.
    Unread(Kind),
    /// The report can't be written.
    Unwritten,
    /// A schedule stands behind the script, and another one in a file of its own.
    TwoSchedules,
    /// The first word of the options that can't stand there.
    Options(Vec<u8>),
    Memory,
}
