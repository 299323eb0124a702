//! Laws of fills: they cover all failures and crashes that the model allows.
ghost use Rattle.snap_disk.specs.Fills.{AnyCrash, AnyFailedWrite, InsideAnyWrite};

/// [`crate::Fill`] leaves out no bytes that the model of [`crate::Disk`] allows: whatever a crash,
/// a failed sync or a failed write may leave, some fill leaves. Whatever a crash inside a write may
/// leave, some fill leaves at a crash right after the write.
#[tactic(auto, using(crate::proofs::Fills::laws))]
pub fn fill_laws()
    ensures any_crash { AnyCrash }
    ensures any_failed_write { AnyFailedWrite }
    ensures inside_any_write { InsideAnyWrite }
{}
