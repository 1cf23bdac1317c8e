//! Laws over the definitions.

ghost use Rattle.accq.specs.worked.Words.{AreAsked, AreRefused};

/// What words ask for, computed.
pub fn worked_words()
    ensures asked { AreAsked }
    ensures refused { AreRefused }
{}
