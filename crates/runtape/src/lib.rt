//! What a program does that runs a tape: the listing of the tape that some input gives, over any store.
#![tactic(auto)]

ghost use Rattle.std.specs.Prelude.{ℕ, IfOk, IfSome, List, string_bytes};
ghost use Rattle.catalogue.specs.Tables.{world};
ghost use Rattle.runtape.specs.Listed.{Listed};

use anyhow::anyhow;
use listing::listing_of;
use runner::{Report, run_tape};
use std::alloc::Global;
use std::io::Read;
use store::VersionStore;
use tape::kinds::MAX_TAPE;

/// A byte more than a tape may have: of a tape that is too long no more has to be read.
// By `as`: no call of `from` or `try_from` can stand in a constant.
const ENOUGH: u64 = MAX_TAPE as u64 + 1;

/// Reads a tape to its end, runs it on a new unit, and gives the listing. Of a tape that is too long a byte more is read than a tape may have.
///
/// The listing is always that of some tape. Where the bytes of the input are known, it is that of these.
pub fn listing_from<S: VersionStore, R: Read + Drop>(
    heap: Global,
    input: R,
) -> anyhow::Result<String>
    ensures some_tape { IfOk result (λ text. (tape : List ℕ) × Listed (world S.meaning) (λ c. S.free c.store) tape (string_bytes text)) }
    ensures its_tape { IfOk result (λ text. IfSome (R.remaining input) (λ tape. Listed (world S.meaning) (λ c. S.free c.store) tape (string_bytes text))) }
{
    let mut tape = Vec::new(heap);
    input.take(ENOUGH).read_to_end(&mut tape)?;
    let report: Report<S> = run_tape(heap, tape.as_slice()).map_err(|_| anyhow!(
        "not enough memory to run the tape"
    ))?;
    let listing = listing_of(heap, report.lines.as_slice())?;
    Ok(listing)
}
