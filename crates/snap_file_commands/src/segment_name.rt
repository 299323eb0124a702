//! The names of a segment's file.
ghost use Rattle.std.specs.Prelude.{◌≡◌, ◌^◌, ◌<◌, ◌≤◌, ◌↔◌, IfOk, IsTrue, string_bytes};
ghost use Rattle.snap_file_commands.specs.SegmentName.{IsFurther, IsSegmentName, name_of};

use std::alloc::{AllocError, Global};

/// The name that the file of segment `index` gets in its folder: `segment-00.seg` and so on, with two
/// digits. Fails only if memory runs out.
pub fn file_name(alloc: Global, index: u8) -> Result<String, AllocError>
    requires { index < 100 }
    ensures { IfOk result (λ name. string_bytes name ≡ name_of index) }
{
    let (tens, ones) = (index / 10, index % 10);
    format!(in alloc; "segment-{tens}{ones}.seg")
}

/// Whether the name is that of a segment's file: it ends in `.seg`.
pub fn is_segment_name(name: &str) -> bool
    ensures { IsTrue result ↔ IsSegmentName name.now }
{
    name.as_bytes().ends_with(b".seg")
}

/// Whether the name has the form of those that [`file_name`] gives, and is none of the first `count` of them:
/// it begins with `segment-` and ends in `.seg`. Then its folder has more segments than `count`, or files
/// that are no segments. Fails only if memory runs out.
pub fn is_further(alloc: Global, name: &str, count: u8) -> Result<bool, AllocError>
    requires { count ≤ 100 }
    ensures { IfOk result (λ further. IsTrue further ↔ IsFurther count name.now) }
{
    if !is_segment_name(name) || !name.as_bytes().starts_with(b"segment-") {
        return Ok(false);
    }
    for index in 0..count {
        let own = file_name(alloc, index)?;
        if own.as_str() == name {
            return Ok(false);
        }
    }
    Ok(true)
}
