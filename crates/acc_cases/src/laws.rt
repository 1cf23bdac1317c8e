//! Laws over the definitions.

ghost use Rattle.acc_cases.specs.worked.Options.{AreRefused, AreSaid};
ghost use Rattle.acc_cases.specs.worked.Texts.{TextsAreFound};

/// What lines of options say, computed.
pub fn worked_options()
    ensures said { AreSaid }
    ensures refused { AreRefused }
{}

/// The texts of cases, computed.
pub fn worked_texts()
    ensures { TextsAreFound }
{}
