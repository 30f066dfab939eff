//! The meaning of a script's lines.
ghost use Rattle.cqf_admission.specs.LineLaws.{AdministratorsAreCounted, FaultsAreOfTheirLines, ScriptsAreTheirLines};

/// Proves that a script is read line by line. If it has no fault, there is one call for each line, in order, with the line's seat and what
/// the line calls for. The seat of Seals is one more than the greatest number of an administrator. Otherwise the script has the fault of
/// its first line with a fault, with the line's number from 1. Whether a Seal or another call is one too many depends on the lines before
/// it.
pub fn script_is_its_lines()
    ensures calls { ScriptsAreTheirLines }
    ensures faults { FaultsAreOfTheirLines }
    ensures administrators { AdministratorsAreCounted }
{}
