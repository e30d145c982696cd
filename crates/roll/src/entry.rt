// Links are places in the roll, and no boxes: the roll is one list by design, of which no entry is ever taken out.
// One entry of the roll: a version, the chain that it belongs to, and where the next older entry of that chain stands.
use store::Version;

#[derive(Clone, Copy)]
pub struct Entry {
    pub node: u8,
    pub key: u8,
    pub version: Version,
    pub older: Option<usize>,
}
