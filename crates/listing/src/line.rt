use calls::answer::Answer;

/// A line of a listing: the place of a record's first byte on its tape, and what was answered to the record.
#[derive(Clone, Copy)]
pub struct Line {
    pub place: usize,
    pub answer: Answer,
}
