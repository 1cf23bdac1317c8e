//! Laws over the definitions.

ghost use Rattle.acc_report.specs.Prints.{LinesAreFound};
ghost use Rattle.acc_report.specs.Reports.{IdsAreNotTold};

/// The lines that are read off a host's entries are those of the statements that it has ended, each by its own entries,
/// whatever stands behind them.
pub fn lines_are_found()
    ensures { LinesAreFound }
{}

/// A report doesn't tell which device and default async value the directives of a program have.
pub fn ids_are_not_told()
    ensures { IdsAreNotTold }
{}
