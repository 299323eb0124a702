//! Laws of a scan's looks.
ghost use Rattle.snap_scan.specs.Laws.{NoFall, LookMore, CleanMoment, BorrowMoment};

/// A look adds its number to the scan, and no number falls. Once the numbers decide the scan they
/// belong to one moment: after a clean end a moment between the two collects, after a borrow the
/// moment of the view, which is within the scan.
pub fn collect_laws()
    ensures no_fall { NoFall }
    ensures look { LookMore }
    ensures clean { CleanMoment }
    ensures borrow { BorrowMoment }
{}
