use calls::call::Call;
use std::fmt;

/// A call as it is printed: its name, then its fields in the order of its record.
#[derive(Clone, Copy)]
pub struct Shown<'a>(pub Call<'a>);

/// Some bytes as they are printed, a space before each.
#[derive(Clone, Copy)]
pub struct Spaced<'a>(pub &'a [u8]);

impl fmt::Display for Spaced<'_> {
    fn fmt<W: fmt::Write>(&self, f: &mut fmt::Formatter<W>) -> fmt::Result {
        for byte in self.0 {
            write!(f, " {byte}")?;
        }
        Ok(())
    }
}

impl fmt::Display for Shown<'_> {
    fn fmt<W: fmt::Write>(&self, f: &mut fmt::Formatter<W>) -> fmt::Result {
        match self.0 {
            Call::Make {
                nodes,
                keys,
                placement,
            } => write!(f, "make {nodes} {keys}:{}", Spaced(placement)),
            Call::Begin { mode } => write!(f, "begin {mode}"),
            Call::Read {
                transaction,
                key,
                node,
            } => write!(f, "read {transaction} {key} {node}"),
            Call::Write {
                transaction,
                key,
                value,
            } => write!(f, "write {transaction} {key} {value}"),
            Call::Offer { transaction } => write!(f, "offer {transaction}"),
            Call::Prepare { transaction, node } => write!(f, "prepare {transaction} {node}"),
            Call::Decide { transaction } => write!(f, "decide {transaction}"),
            Call::Cancel { transaction } => write!(f, "cancel {transaction}"),
            Call::Learn { transaction, node } => write!(f, "learn {transaction} {node}"),
            Call::Apply { node } => write!(f, "apply {node}"),
            Call::Finish { transaction } => write!(f, "finish {transaction}"),
        }
    }
}
