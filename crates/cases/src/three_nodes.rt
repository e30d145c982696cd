use crate::brief::{
    apply, decide, finish, learn, make, offer, prepare, read, reader, update, write_key,
};
use crate::show::show;

/// A `Search` that began before update 3 sees update 4, whose stamp is higher, and not update 3.
pub(crate) fn three_nodes(rt: &HostRuntime) -> anyhow::Result<()> {
    let calls = [
        make(3, 4, &[1, 2, 4, 4]),
        reader(),
        read(1, 0, 0),
        update(),
        write_key(2, 0, 20),
        offer(2),
        prepare(2, 0),
        decide(2),
        learn(2, 0),
        apply(0),
        update(),
        read(3, 0, 0),
        write_key(3, 2, 32),
        update(),
        write_key(4, 1, 41),
        write_key(4, 3, 43),
        offer(3),
        offer(4),
        prepare(3, 2),
        prepare(4, 2),
        prepare(3, 0),
        decide(3),
        prepare(4, 1),
        decide(4),
        learn(3, 2),
        learn(3, 0),
        learn(4, 2),
        learn(4, 1),
        apply(2),
        apply(2),
        apply(1),
        read(1, 1, 1),
        read(1, 2, 2),
        read(1, 3, 2),
        finish(1),
    ];
    show(rt, "three nodes", &calls)
}
