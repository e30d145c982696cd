//! Any call, and any list of calls.

ghost use Rattle.std.specs.Prelude.{◌≡◌, ℕ, true, List, [], map, Err, IfOk, MatchResult};
ghost use Rattle.calls.specs.Requests.{begin, request};
ghost use Rattle.rules.specs.Steps.{can_make, made_world, step};
ghost use Rattle.rules.specs.Transcript.{with_answers};
ghost use Rattle.rules.specs.Promises.{Promises};
ghost use Rattle.catalogue.specs.Tables.{world};
ghost use Rattle.catalogue.specs.Making.{WhyNotMade};
ghost use Rattle.catalogue.specs.Replies.{begun, done};
ghost use Rattle.catalogue.specs.declared.make.MakeError.TheVariants.{OutOfMemory};
ghost use Rattle.catalogue.specs.Runs.{Performed, Ran};

use crate::catalogue::Catalogue;
use crate::make::MakeError;
use crate::replies::{
    of_apply, of_begin, of_decide, of_done, of_offer, of_prepare, of_read, refused,
};
use calls::answer::Answer;
use calls::call::Call;
use calls::refusal::Refusal;
use calls::sizes::TransactionNumber;
use rules::records::Kind;
use std::alloc::Global;
use store::VersionStore;

/// The answers to a list of calls, and the catalogue after them.
#[derive(Drop)]
pub struct CompletedRun<S: VersionStore> {
    pub answers: Vec<Answer>,
    pub catalogue: Catalogue<S>,
}

impl<S: VersionStore> Catalogue<S> {
    /// Carries out any call.
    pub fn perform(&mut self, call: &Call) -> Answer
        ensures step { (result, world S.meaning self.new) ≡ step (S.free self.old.store) (world S.meaning self.old) (request call.now) }
        ensures rule { S.free self.new.store ≡ S.free self.old.store }
    {
        match *call {
            Call::Make { .. } => refused(Refusal::MakeOutOfOrder),
            Call::Begin { mode } => of_begin(self.begin_by_mode(mode)),
            Call::Read {
                transaction,
                key,
                node,
            } => of_read(self.read(transaction, key, node)),
            Call::Write {
                transaction,
                key,
                value,
            } => of_done(self.write(transaction, key, value)),
            Call::Offer { transaction } => of_offer(self.offer(transaction)),
            Call::Prepare { transaction, node } => of_prepare(self.prepare(transaction, node)),
            Call::Decide { transaction } => of_decide(self.decide(transaction)),
            Call::Cancel { transaction } => of_done(self.cancel(transaction)),
            Call::Learn { transaction, node } => of_done(self.learn(transaction, node)),
            Call::Apply { node } => of_apply(self.apply(node)),
            Call::Finish { transaction } => of_done(self.finish(transaction)),
        }
    }

    /// Opens a transaction of the kind that a mode stands for, and gives its number.
    fn begin_by_mode(&mut self, mode: u8) -> Result<TransactionNumber, Refusal>
        ensures step { (begun result, world S.meaning self.new) ≡ step (S.free self.old.store) (world S.meaning self.old) (begin mode) }
        ensures rule { S.free self.new.store ≡ S.free self.old.store }
    {
        self.begin(Kind::try_from(mode)?)
    }

    /// Carries out a list of calls.
    fn perform_all(&mut self, heap: Global, calls: &[Call]) -> Result<Vec<Answer>, MakeError>
        ensures after { MatchResult result (λ answers. Performed (S.free self.old.store) (world S.meaning self.old) (map request calls.now) answers.items (world S.meaning self.new)) (λ e. e ≡ OutOfMemory) }
        ensures ran { MatchResult result (λ answers. (nodes keys : ℕ) (placement : List ℕ) → can_make nodes keys placement ≡ true → world S.meaning self.old ≡ made_world nodes placement → Ran (S.free self.new.store) nodes keys placement (map request calls.now) answers.items (world S.meaning self.new)) (λ e. e ≡ OutOfMemory) }
        ensures told { MatchResult result (λ answers. (nodes keys : ℕ) (placement : List ℕ) → can_make nodes keys placement ≡ true → world S.meaning self.old ≡ made_world nodes placement → Promises (S.free self.new.store) (with_answers (map request calls.now) answers.items []) (world S.meaning self.new)) (λ e. e ≡ OutOfMemory) }
        ensures rule { S.free self.new.store ≡ S.free self.old.store }
    {
        let mut answers = Vec::new(heap);
        for call in calls {
            let answer = self.perform(call);
            answers.push(answer)?;
        }
        Ok(answers)
    }
}

/// Makes a catalogue over a new store, carries out a list of calls on it, and answers them all.
///
/// The contract says that the answers and the last world are those of the rules, and carries every promise about
/// the whole run: about the calls with the answers of the rules, and about the calls with the answers that were given.
pub fn run<S: VersionStore>(
    heap: Global,
    nodes: u8,
    keys: u8,
    placement: &[u8],
    calls: &[Call],
) -> Result<CompletedRun<S>, MakeError>
    ensures ran { MatchResult result (λ o. Ran (S.free o.catalogue.store) nodes keys placement.now (map request calls.now) o.answers.items (world S.meaning o.catalogue)) (λ e. WhyNotMade nodes keys placement.now e) }
    ensures told { IfOk result (λ o. Promises (S.free o.catalogue.store) (with_answers (map request calls.now) o.answers.items []) (world S.meaning o.catalogue)) }
{
    let mut catalogue = Catalogue::make(heap, nodes, keys, placement)?;
    let answers = catalogue.perform_all(heap, calls)?;
    Ok(CompletedRun { answers, catalogue })
}
