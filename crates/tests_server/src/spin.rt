//! How many waits without spinning follow after a thread has spun in vain.
use snap_session::{Spin, WAITS_IN_A_REST};

#[test]
fn spins_again_after_a_rest(rt: HostRuntime) {
    let mut spin = Spin::new();
    for _ in 0..2 {
        for _ in 0..WAITS_IN_A_REST {
            assert!(rt; !spin.is_due());
        }
        assert!(rt; spin.is_due());
        assert!(rt; spin.is_due());
        spin.rest();
    }
}
