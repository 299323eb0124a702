//! An update that is longer than any system takes for one word of a command.
use snap_args::order;
use std::alloc::{AllocError, Global};
use std::test::Fail;

/// `len` bytes as hexadecimal digits.
fn digits(alloc: Global, len: usize) -> Result<String, AllocError> {
    let mut text = String::new(alloc);
    for _ in 0..len {
        text.push_str("61")?;
    }
    Ok(text)
}

/// The fault of an update with `len` bytes; empty if there is none.
fn fault_of_long(alloc: Global, len: usize) -> Result<String, Fail> {
    let text = digits(alloc, len)?;
    let words = ["snapd", "call", "A", "update", "0", "1", text.as_str()];
    match order(alloc, &words) {
        Ok(_) => Ok(String::new(alloc)),
        Err(why) => Ok(why.to_string(alloc)?),
    }
}

/// A request holds 65,990 bytes of a value, and no more.
#[test]
fn long_values_are_refused(rt: HostRuntime) -> Result<(), Fail> {
    let said = "error: the update's value has 65991 bytes, and a request holds at most 65990\n\n\
        For more information, try '--help'.";
    assert_eq!(rt; fault_of_long(rt.alloc(), 65_990)?.as_str(), "");
    assert_eq!(rt; fault_of_long(rt.alloc(), 65_991)?.as_str(), said);
    Ok(())
}
