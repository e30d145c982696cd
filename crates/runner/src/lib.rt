//! A tape run on a new unit, over any store.
#![tactic(auto)]

ghost use Rattle.std.specs.Prelude.{◌≡◌, true, map, IfOk, OnErr, MatchResult};
ghost use Rattle.std.specs.Option.{option_map};
ghost use Rattle.calls.specs.Requests.{request};
ghost use Rattle.tape.specs.Reading.{requested};
ghost use Rattle.tape.specs.Records.{entry_of};
ghost use Rattle.store.specs.Model.{FreeRule};
ghost use Rattle.catalogue.specs.Tables.{world};
ghost use Rattle.runner.specs.Running.{can_be_made, first_step, makes_catalogue, on_content, CountsBy, RecordsRun, TapeRun, TapeTold};

use calls::answer::Answer;
use calls::call::Call;
use calls::refusal::Refusal;
use catalogue::catalogue::Catalogue;
use catalogue::make::MakeError;
use listing::line::Line;
use std::alloc::{AllocError, Global};
use store::VersionStore;
use tape::read::read;
use tape::record::Record;

/// What came of a tape: a line for each record, and the unit's catalogue after them, if one was made.
#[derive(Drop)]
pub struct Report<S: VersionStore> {
    pub lines: Vec<Line>,
    pub catalogue: Option<Catalogue<S>>,
}

/// Answers a call to a unit whose catalogue is not made, and makes it where the call is a make that can be made. Memory can be
/// wanting for no other call.
fn first_call<S: VersionStore>(
    heap: Global,
    call: &Call<'_>,
) -> Result<(Answer, Option<Catalogue<S>>), AllocError>
    ensures { MatchResult result (λ o. (o.0, option_map (world S.meaning) o.1) ≡ first_step (request call.now)) (λ _. can_be_made (request call.now) ≡ true) }
{
    let Call::Make {
        nodes,
        keys,
        placement,
    } = *call
    else {
        let refusal = Refusal::MakeOutOfOrder;
        return Ok((Answer::Refused { refusal }, None));
    };
    // Of the three outcomes two are answers, and only the third is an error.
    match Catalogue::make(heap, nodes, keys, placement) {
        Ok(catalogue) => Ok((Answer::Done, Some(catalogue))),
        Err(MakeError::Refused { refusal }) => Ok((Answer::Refused { refusal }, None)),
        Err(MakeError::OutOfMemory) => Err(AllocError),
    }
}

/// Answers a record. Memory can be wanting only for one that makes the unit's catalogue.
fn on_record<S: VersionStore>(
    heap: Global,
    unit: &mut Option<Catalogue<S>>,
    content: &Result<Call<'_>, Refusal>,
) -> Result<Answer, AllocError>
    ensures step { IfOk result (λ a. (free : FreeRule) → CountsBy (λ c. S.free c.store) free unit.old → (a, option_map (world S.meaning) unit.new) ≡ on_content free (option_map (world S.meaning) unit.old) (requested content.now)) }
    ensures rule { IfOk result (λ a. (free : FreeRule) → CountsBy (λ c. S.free c.store) free unit.new → CountsBy (λ c. S.free c.store) free unit.old) }
    ensures memory { OnErr result (makes_catalogue (option_map (world S.meaning) unit.old) (requested content.now) ≡ true) }
{
    // A refused record is answered; it is no error of the run.
    let call = match content {
        Ok(call) => call,
        Err(refusal) => return Ok(Answer::Refused { refusal: *refusal }),
    };
    if let Some(catalogue) = unit {
        return Ok(catalogue.perform(call));
    }
    let (answer, made) = first_call(heap, call)?;
    *unit = made;
    Ok(answer)
}

/// Runs some records on a new unit.
fn run_records<S: VersionStore>(
    heap: Global,
    records: &[Record<'_>],
) -> Result<Report<S>, AllocError>
    ensures { IfOk result (λ o. (free : FreeRule) → CountsBy (λ c. S.free c.store) free o.catalogue → RecordsRun free (map entry_of records.now) o.lines.items (option_map (world S.meaning) o.catalogue)) }
{
    let mut lines = Vec::new(heap);
    let mut unit = None;
    for record in records {
        let answer = on_record(heap, &mut unit, &record.content)?;
        lines.push(Line {
            place: record.place,
            answer,
        })?;
    }
    Ok(Report {
        lines,
        catalogue: unit,
    })
}

/// Runs a tape on a new unit. Every sequence of bytes gives a report.
///
/// The contract says that the lines are those of the rules over the bytes of the tape, and carries every promise about the calls that the tape
/// makes after its accepted make: with the answers of the rules, and with those that the lines give.
pub fn run_tape<S: VersionStore>(heap: Global, tape: &[u8]) -> Result<Report<S>, AllocError>
    ensures ran { IfOk result (λ o. (free : FreeRule) → CountsBy (λ c. S.free c.store) free o.catalogue → TapeRun free tape.now o.lines.items (option_map (world S.meaning) o.catalogue)) }
    ensures told { IfOk result (λ o. (free : FreeRule) → CountsBy (λ c. S.free c.store) free o.catalogue → TapeTold free tape.now o.lines.items) }
{
    let records = read(heap, tape)?;
    run_records(heap, records.as_slice())
}
