// Where a chain begins: its newest entry, if it has one, and how many places are set aside for it.
#[derive(Clone, Copy)]
pub struct ChainHead {
    pub newest: Option<usize>,
    pub aside: usize,
}

// The chain of a new roll, with the first version alone.
pub const EMPTY_CHAIN: ChainHead = ChainHead {
    newest: None,
    aside: 0,
};
