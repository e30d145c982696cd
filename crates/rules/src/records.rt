//! What a catalogue keeps of each node and of each transaction.

ghost use Rattle.std.specs.Prelude.{◌≡◌};
ghost use Rattle.rules.specs.Modes.{kind_of};

use calls::refusal::Refusal;
use calls::sizes::{Stamp, StoredValue, TransactionNumber};
use clock::{Clock, NodeMarks};

/// A Search reads; an update reads and writes.
#[derive(Clone, Copy, Debug, PartialEq, Eq)]
pub enum Kind {
    Search,
    Update,
}

/// The kind that the mode of a begin stands for.
impl TryFrom<u8> for Kind {
    type Error = Refusal;

    ghost try_from_gives = { λ mode r. r ≡ kind_of mode };

    fn try_from(mode: u8) -> Result<Self, Refusal> {
        match mode {
            0 => Ok(Kind::Search),
            1 => Ok(Kind::Update),
            _ => Err(Refusal::BadRecord),
        }
    }
}

/// How far a transaction has come. A Search goes from open to finished, an update from open over offered to committed or aborted.
#[derive(Clone, Copy, Debug, PartialEq, Eq)]
pub enum State {
    Open,
    Offered,
    Committed,
    Aborted,
    Finished,
}

/// What a transaction can be asked.
#[derive(Clone, Copy, Debug, PartialEq, Eq)]
pub enum Event {
    Read,
    Write,
    Offer,
    Prepare,
    Decide,
    Cancel,
    Learn,
    Finish,
}

/// A node.
#[derive(Clone, Copy)]
pub struct Node {
    /// The highest number that it has given to an update or learned of one.
    pub counter: Stamp,
    /// The stamp of the update that it applied last.
    pub frontier: Stamp,
    /// The join of the commit clocks of the committed updates that it has released.
    pub seen: Clock,
}

/// A transaction.
///
/// Rows beside one another, and no row of records: a clock is one value, which is joined and compared whole. A row has a place for every node or key, since no call
/// takes memory; and the rules read each row by itself. Stamp and commit clock are zero until the commit, and are read of any transaction, so they stand in no case of its state.
#[derive(Clone, Copy)]
pub struct Transaction {
    pub kind: Kind,
    pub state: State,
    /// What it has read lies within this clock.
    pub clock: Clock,
    /// The nodes that it has read at.
    pub read: NodeMarks,
    /// For each key that an update has read, the writer of the version that it got.
    pub noted: [Option<TransactionNumber>; 64],
    /// For each key that an update writes, the value that it wrote last.
    pub written: [Option<StoredValue>; 64],
    /// The nodes that an offered update polls: bit h stands for node h.
    pub polled: u8,
    /// The nodes that have voted on it.
    pub voted: NodeMarks,
    /// A node has voted no.
    pub refused: bool,
    /// The nodes where it is engaged: from a node's yes until the node releases it.
    pub engaged: NodeMarks,
    /// Its number at each node that voted yes and where it writes.
    pub numbers: Clock,
    /// The join of the clocks that the yes votes carried.
    pub votes: Clock,
    /// The nodes that have learned its decision.
    pub learned: NodeMarks,
    /// The nodes that have applied it.
    pub applied: NodeMarks,
    /// Its stamp, once it is committed.
    pub stamp: Stamp,
    /// Its commit clock, once it is committed.
    pub commit: Clock,
}
