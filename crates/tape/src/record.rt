//! What a reader gives back.

use calls::call::Call;
use calls::refusal::Refusal;

/// A record of a tape: the place of its first byte, and the call that it says or why it says none.
#[derive(Clone, Copy)]
pub struct Record<'a> {
    pub place: usize,
    pub content: Result<Call<'a>, Refusal>,
}
