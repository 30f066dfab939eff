//! When `diff` writes nothing.
ghost use Rattle.cqf_program_diff.specs.Alike.{AlikeDifferNowhere, SameIfNothingDiffers};

/// Nothing is written if and only if two networks are alike: each element and each figure of the first is in the second by its name with the
/// same values, and the second has no others.
pub fn nothing_differs_if_alike()
    ensures alike { AlikeDifferNowhere }
    ensures same { SameIfNothingDiffers }
{}
