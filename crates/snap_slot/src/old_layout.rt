//! The constants in which the old format differs from the present one.
ghost use Rattle.std.specs.Prelude.{◌≡◌};
ghost use Rattle.snap_slot.specs.Old.{old_slot_of};

/// The length of an old file in bytes.
pub const OLD_FILE_LEN: u64 = 20_480;

/// The first bytes of an old file.
pub(crate) const OLD_MARK: [u8; 8] = *b"SNAPSEG1";

/// How many slots an old file has.
pub const OLD_SLOT_COUNT: u64 = 2;

/// The slot that holds a number.
pub fn old_slot_of(number: u64) -> u64
    ensures { result ≡ old_slot_of number }
{
    number % OLD_SLOT_COUNT
}
