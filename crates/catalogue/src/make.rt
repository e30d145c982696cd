//! Making a catalogue.

ghost use Rattle.std.specs.Prelude.{◌≡◌, true, MatchResult};
ghost use Rattle.rules.specs.Steps.{can_make, made_world};
ghost use Rattle.catalogue.specs.Tables.{world};
ghost use Rattle.catalogue.specs.Making.{WhyNotMade};
ghost use Rattle.catalogue.specs.declared.make.MakeError.TheVariants.{OutOfMemory};

use crate::catalogue::Catalogue;
use crate::table::Table;
use calls::refusal::Refusal;
use keys::placing::can_make;
use std::alloc::{AllocError, AllocFailed, Global};
use store::VersionStore;
use thiserror::Error;

/// Why a catalogue was not made.
#[derive(Clone, Copy, Debug, PartialEq, Eq, Error)]
pub enum MakeError {
    /// The counts or the placement are not those of a catalogue.
    #[error("{refusal}")]
    Refused { refusal: Refusal },
    /// There is not enough memory.
    #[error("not enough memory for a catalogue")]
    OutOfMemory,
}

impl From<AllocError> for MakeError {
    ghost from_gives = { λ _ r. r ≡ OutOfMemory };

    fn from(_error: AllocError) -> MakeError {
        MakeError::OutOfMemory
    }
}

// A push that fails gives its value back, another call does not: the library has two types for want of memory.
impl<T: Drop> From<AllocFailed<T>> for MakeError {
    ghost from_gives = { λ _ r. r ≡ OutOfMemory };

    fn from(_refused: AllocFailed<T>) -> MakeError {
        MakeError::OutOfMemory
    }
}

impl<S: VersionStore> Catalogue<S> {
    /// A new catalogue over a new store. It takes all the memory that it will ever need.
    pub fn make(
        heap: Global,
        nodes: u8,
        keys: u8,
        placement: &[u8],
    ) -> Result<Catalogue<S>, MakeError>
        ensures { MatchResult result (λ c. (can_make nodes keys placement.now ≡ true) × (world S.meaning c ≡ made_world nodes placement.now)) (λ e. WhyNotMade nodes keys placement.now e) }
    {
        if !can_make(nodes, keys, placement) {
            return Err(MakeError::Refused {
                refusal: Refusal::MakeOutOfBounds,
            });
        }
        let table = Table::make(heap, nodes, placement)?;
        let store = S::new(heap)?;
        Ok(Catalogue { table, store })
    }
}
