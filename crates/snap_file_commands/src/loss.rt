//! Whether files that a folder lacks were lost.
ghost use Rattle.std.specs.Prelude.{◌≡◌, ◌<◌, All, IfSome, IsNone, length, slice_index};

/// The index of the first number above 0, if files are missing: what was stored beside them shows that they
/// were lost, so they aren't made unasked. `None` if no file is missing, or nothing was stored yet. `lacking`
/// is how many files are missing, `numbers` has the greatest number that each file of the folder holds.
pub fn sign_of_loss(lacking: usize, numbers: &[u64]) -> Option<usize>
    ensures sign { IfSome result (λ at. (at < length numbers.now) × (0 < slice_index numbers.now at) × (0 < lacking)) }
    ensures none { IsNone result → 0 < lacking → All (λ number. number ≡ 0) numbers.now }
{
    if lacking == 0 {
        return None;
    }
    for (at, number) in numbers.iter().enumerate() {
        if *number > 0 {
            return Some(at);
        }
    }
    None
}
