use crate::brief::{
    apply, cancel, decide, finish, learn, make, offer, prepare, read, reader, update, write_key,
};
use crate::show::show;

/// An update whose reads are overtaken by another one.
pub(crate) fn overtaken(rt: &HostRuntime) -> anyhow::Result<()> {
    let calls = [
        make(1, 2, &[1, 1]),
        update(),
        read(1, 0, 0),
        update(),
        write_key(2, 0, 20),
        write_key(2, 1, 21),
        offer(2),
        prepare(2, 0),
        decide(2),
        learn(2, 0),
        apply(0),
        read(1, 1, 0),
        read(1, 0, 0),
        write_key(1, 1, 11),
        read(1, 1, 0),
        offer(1),
        prepare(1, 0),
        decide(1),
        learn(1, 0),
        read(1, 1, 0),
        reader(),
        read(3, 1, 0),
        finish(3),
    ];
    show(rt, "overtaken", &calls)
}

/// A `Search` that saw an update at one node waits for it at another.
pub(crate) fn not_yet(rt: &HostRuntime) -> anyhow::Result<()> {
    let calls = [
        make(2, 3, &[1, 2, 3]),
        update(),
        write_key(1, 0, 70),
        write_key(1, 1, 71),
        offer(1),
        prepare(1, 0),
        prepare(1, 1),
        decide(1),
        learn(1, 0),
        apply(0),
        reader(),
        read(2, 0, 0),
        read(2, 1, 1),
        learn(1, 1),
        apply(1),
        read(2, 1, 1),
        finish(2),
    ];
    show(rt, "not yet", &calls)
}

/// An update that reads nine keys, and writes nine.
pub(crate) fn nine_keys(rt: &HostRuntime) -> anyhow::Result<()> {
    let calls = [
        make(1, 9, &[1; 9]),
        update(),
        read(1, 0, 0),
        read(1, 1, 0),
        read(1, 2, 0),
        read(1, 3, 0),
        read(1, 4, 0),
        read(1, 5, 0),
        read(1, 6, 0),
        read(1, 7, 0),
        read(1, 8, 0),
        read(1, 0, 0),
        write_key(1, 0, 10),
        write_key(1, 1, 11),
        write_key(1, 2, 12),
        write_key(1, 3, 13),
        write_key(1, 4, 14),
        write_key(1, 5, 15),
        write_key(1, 6, 16),
        write_key(1, 7, 17),
        write_key(1, 8, 18),
        write_key(1, 0, 19),
        read(1, 0, 0),
        cancel(1),
    ];
    show(rt, "nine keys", &calls)
}
