//! What a directive begins with, and the clauses that may follow.

ghost use Rattle.std.specs.Prelude.{◌≡◌, ◌<◌, true, length};
ghost use Rattle.acc_script.specs.Clauses.{allows, needs_item, may_have_async, may_wait, is_flag};

use acc_place::{Clause, Kind};
use acc_token::is;

/// What a directive begins with.
#[derive(Clone, Copy, PartialEq, Eq)]
pub enum Head {
    EnterData,
    ExitData,
    Update,
    Wait,
    Data,
    Loop,
}

impl Head {
    // Whether the directive may have this data clause.
    pub(crate) fn allows(self, clause: Clause) -> bool
        ensures { result ≡ allows self clause }
    {
        match self {
            Head::EnterData => Kind::EnterData.allows_clause(clause),
            Head::ExitData => Kind::ExitData { finalize: false }.allows_clause(clause),
            Head::Update => Kind::Update { if_present: false }.allows_clause(clause),
            Head::Wait => false,
            Head::Data => Kind::Data.allows_clause(clause),
            Head::Loop => clause != Clause::NoCreate && Kind::Data.allows_clause(clause),
        }
    }

    pub(crate) fn needs_item(self) -> bool
        ensures { result ≡ needs_item self }
    {
        !matches!(self, Head::Wait | Head::Loop)
    }

    pub(crate) fn may_be_async(self) -> bool
        ensures { result ≡ may_have_async self }
    {
        !matches!(self, Head::Data)
    }

    pub(crate) fn may_wait(self) -> bool
        ensures { result ≡ may_wait self }
    {
        !matches!(self, Head::Data | Head::Wait)
    }

    // Whether this is the word without an argument that the directive may have.
    pub(crate) fn is_flag(self, word: &[u8]) -> bool
        ensures flag { result ≡ is_flag self word.now }
        ensures some { result ≡ true → 0 < length word.now }
    {
        match self {
            Head::ExitData => is(word, b"finalize"),
            Head::Update => is(word, b"if_present"),
            Head::EnterData | Head::Wait | Head::Data | Head::Loop => false,
        }
    }
}
