use crate::brief::{apply, decide, learn, make, offer, prepare, reader, update, write_key};
use crate::show::show_end;
use calls::call::Call;
use std::alloc::AllocError;

/// A begin for each number, and one more. Only the last line is shown.
pub(crate) fn all_numbers_begun(rt: &HostRuntime) -> anyhow::Result<()> {
    let mut calls = Vec::new(rt.alloc());
    calls.push(make(1, 1, &[1]))?;
    for _ in 0..256 {
        calls.push(reader())?;
    }
    show_end(rt, "a 256th begin", calls.as_slice(), 256)
}

/// An update of key 0 by the transaction t, from its begin to its apply.
fn narrow_update(calls: &mut Vec<Call<'_>>, t: u8) -> Result<(), AllocError> {
    calls.extend_from_slice(&[
        update(),
        write_key(t, 0, 70),
        offer(t),
        prepare(t, 0),
        decide(t),
        learn(t, 0),
        apply(0),
    ])
}

/// Five updates write one key in turn. The shelf takes four, the roll all of them. The fifth one's lines are shown.
pub(crate) fn shelf_full(rt: &HostRuntime) -> anyhow::Result<()> {
    let mut calls = Vec::new(rt.alloc());
    calls.push(make(1, 1, &[1]))?;
    for t in 1..6 {
        narrow_update(&mut calls, t)?;
    }
    show_end(rt, "a fifth version", calls.as_slice(), 29)
}

/// Writes by the transaction t to eight keys in a row.
fn write_eight(calls: &mut Vec<Call<'_>>, t: u8, first_key: u8) -> Result<(), AllocError> {
    for key in first_key..first_key.saturating_add(8) {
        calls.push(write_key(t, key, 70))?;
    }
    Ok(())
}

/// The update t, which writes eight keys in a row, and is prepared at all eight nodes.
fn wide_update(calls: &mut Vec<Call<'_>>, t: u8, first_key: u8) -> Result<(), AllocError> {
    calls.push(update())?;
    write_eight(calls, t, first_key)?;
    calls.push(offer(t))?;
    for node in 0..8 {
        calls.push(prepare(t, node))?;
    }
    Ok(())
}

/// Eight updates take every place of the roll, and a ninth finds none; the shelf has one for it. What follows the eight is shown.
pub(crate) fn roll_full(rt: &HostRuntime) -> anyhow::Result<()> {
    let mut calls = Vec::new(rt.alloc());
    calls.push(make(8, 64, &[255; 64]))?;
    for i in 0..8 {
        wide_update(&mut calls, i + 1, 8 * i)?;
    }
    calls.extend_from_slice(&[
        decide(1),
        learn(1, 0),
        apply(0),
        update(),
        write_key(9, 0, 79),
        offer(9),
        prepare(9, 0),
        prepare(9, 1),
        decide(9),
    ])?;
    show_end(rt, "no place on the roll", calls.as_slice(), 145)
}
