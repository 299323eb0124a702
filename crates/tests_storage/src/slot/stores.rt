//! The calls that a store asks for, as worked out by hand.
use snap_persist::{Answer, NextCall, Persist, Progress, Write};

const CLOSE: NextCall = NextCall::Write(Write::Close);

const BODY: NextCall = NextCall::Write(Write::Body);

const OPEN: NextCall = NextCall::Write(Write::Open);

/// Whether the spare gate is open, and the calls of a store in their order.
const ORDERS: [(bool, &[NextCall]); 2] = [
    (false, &[BODY, NextCall::Sync, OPEN, NextCall::Sync]),
    (true, &[CLOSE, BODY, NextCall::Sync, OPEN, NextCall::Sync]),
];

/// Each call of a store in turn fails, or none does. No call follows one that failed.
#[test]
fn calls_of_a_store(rt: HostRuntime) {
    for (spare_open, calls) in &ORDERS {
        for failing in 0..=calls.len() {
            let mut persist = Persist::begin(*spare_open, 1);
            for call in &calls[..failing] {
                assert!(rt; persist.next() == *call);
                assert!(rt; persist.told(Answer::Ok) == Progress::Going);
            }
            if failing < calls.len() {
                assert!(rt; persist.next() == calls[failing]);
                assert!(rt; persist.told(Answer::Fault) == Progress::Fenced);
            }
            assert!(rt; persist.next() == NextCall::Done && persist.slot() == 1);
        }
    }
}
