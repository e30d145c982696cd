use crate::brief::{apply, cancel, decide, finish, learn, make, offer, prepare, update, write_key};
use crate::show::show;

/// Two updates of one key: every call that comes too early, too late or at the wrong node is refused.
pub(crate) fn states(rt: &HostRuntime) -> anyhow::Result<()> {
    let calls = [
        make(2, 3, &[1, 2, 3]),
        apply(0),
        update(),
        prepare(1, 0),
        decide(1),
        learn(1, 0),
        finish(1),
        write_key(1, 0, 5),
        offer(1),
        offer(1),
        write_key(1, 0, 6),
        prepare(1, 1),
        decide(1),
        prepare(1, 0),
        prepare(1, 0),
        update(),
        write_key(2, 0, 7),
        offer(2),
        prepare(2, 0),
        apply(0),
        decide(1),
        decide(1),
        prepare(2, 0),
        learn(1, 1),
        learn(1, 0),
        learn(1, 0),
        apply(0),
        apply(0),
        learn(1, 0),
        prepare(2, 0),
        cancel(2),
        decide(2),
        apply(0),
        learn(2, 0),
        apply(0),
        cancel(2),
    ];
    show(rt, "calls in the wrong state", &calls)
}
