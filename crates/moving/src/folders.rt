//! The two folders. Each is a key, held by a node of its own, and its value is 1 while the document is in the folder.

use calls::sizes::{KeyNumber, NodeNumber};
use std::fmt::{self, Display, Formatter};

/// A folder, and the node that holds it.
#[derive(Clone, Copy)]
pub(crate) struct Folder {
    pub(crate) name: char,
    pub(crate) key: KeyNumber,
    pub(crate) node: NodeNumber,
}

impl Display for Folder {
    fn fmt<W: fmt::Write>(&self, f: &mut Formatter<W>) -> fmt::Result {
        write!(f, "folder {}", self.name)
    }
}

pub(crate) const FOLDER_A: Folder = Folder {
    name: 'A',
    key: 0,
    node: 0,
};

pub(crate) const FOLDER_B: Folder = Folder {
    name: 'B',
    key: 1,
    node: 1,
};

/// The byte of each folder that says which node holds it.
pub(crate) const PLACEMENT: [u8; 2] = [1 << FOLDER_A.node, 1 << FOLDER_B.node];
