//! What holds of every tape.

ghost use Rattle.tape.specs.Trips.{NoneMissed, ReadsBack, LaysOutAgain};

/// The reader misses no record, reading undoes writing, and writing undoes reading: the contract is these theorems.
pub fn round_trip()
    ensures none_missed { NoneMissed }
    ensures reads_back { ReadsBack }
    ensures lays_out_again { LaysOutAgain }
{}
