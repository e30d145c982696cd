use crate::show::show;

/// Short tapes, and what is to be seen on each. Most are damaged, and end with the record of `offer 7`, to show where reading goes on.
const EXAMPLES: [(&str, &[u8]); 19] = [
    ("empty tape", &[]),
    ("cut in the length", &[3]),
    ("cut in the kind", &[3, 0, 4]),
    ("cut in the body", &[3, 0, 4, 0]),
    ("cut in the second record", &[3, 0, 4, 0, 7, 3]),
    ("length 0", &[0, 0, 3, 0, 4, 0, 7]),
    ("length 1", &[1, 0, 9, 3, 0, 4, 0, 7]),
    ("length 1 at the end", &[1, 0]),
    ("length 65535", &[255, 255, 4, 0, 7]),
    ("kind 11", &[2, 0, 11, 0, 3, 0, 4, 0, 7]),
    ("kind 65535", &[2, 0, 255, 255, 3, 0, 4, 0, 7]),
    (
        "kind 260, whose low byte is that of offer",
        &[3, 0, 4, 1, 7, 3, 0, 4, 0, 7],
    ),
    ("begin byte 2", &[3, 0, 1, 0, 2, 3, 0, 4, 0, 7]),
    (
        "an offer with a byte too many",
        &[4, 0, 4, 0, 7, 7, 3, 0, 4, 0, 7],
    ),
    ("make without a key count", &[3, 0, 0, 0, 1, 3, 0, 4, 0, 7]),
    (
        "make with too few placement bytes",
        &[5, 0, 0, 0, 1, 2, 1, 3, 0, 4, 0, 7],
    ),
    (
        "make with too many placement bytes",
        &[6, 0, 0, 0, 1, 1, 1, 1, 3, 0, 4, 0, 7],
    ),
    (
        "a value of eight bytes",
        &[12, 0, 3, 0, 1, 2, 1, 2, 3, 4, 5, 6, 7, 8],
    ),
    ("a cancel", &[3, 0, 7, 0, 9]),
];

/// Prints what the reader makes of the short tapes, and of two tapes as long as a tape may be and a byte longer.
pub(crate) fn show_damaged(rt: &HostRuntime) -> anyhow::Result<()> {
    for (title, tape) in EXAMPLES {
        show(rt, title, tape)?;
    }
    // One record of 32,766 bytes, wrong for a make, fills a tape of 32,768.
    let mut tape = vec![in rt.alloc(); 0u8; 32_769]?;
    let bytes = tape.as_mut_slice();
    bytes[0] = 0xfe;
    bytes[1] = 0x7f;
    show(rt, "32768 bytes", &bytes[..32_768])?;
    show(rt, "32769 bytes", bytes)
}
