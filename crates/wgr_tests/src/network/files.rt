//! The commands that ask for files. The texts are made elsewhere; these tests show whether they may be.
use super::check;
use crate::fixtures::{empty, join};

#[test]
fn live_peers_have_files(rt: HostRuntime) {
    let mut parts = empty(&rt, "10.8.0.0/24");
    join(&rt, &mut parts, "10.8.0.2", 100, 0);
    check(
        &rt,
        parts,
        &[
            (99, "file 1 wg", "1 wg"),
            (99, "file 1 quick", "1 quick"),
            (100, "file 1 wg", "no_such_peer"),
            (100, "file 1 quick", "no_such_peer"),
            (99, "file 2 wg", "no_such_peer"),
            (99, "file 2 quick", "no_such_peer"),
            (100, "server wg", "server wg"),
            (100, "server quick", "server quick"),
        ],
    );
}
