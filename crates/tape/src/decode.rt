//! The body of a record, by its kind.

ghost use Rattle.std.specs.Prelude.{◌≡◌, length};
ghost use Rattle.tape.specs.Layout.{number_in};
ghost use Rattle.tape.specs.Reading.{requested, decode as decoded};

use crate::kinds::RecordKind;
use calls::call::Call;
use calls::refusal::Refusal;
use calls::sizes::StoredValue;

/// The call that a body says under a kind, or the refusal of a record that says none.
pub(crate) fn decode(kind: u16, body: &[u8]) -> Result<Call<'_>, Refusal>
    ensures { requested result ≡ decoded kind body.now }
{
    match (RecordKind::try_from(kind)?, body) {
        (RecordKind::Make, &[nodes, keys, ref placement @ ..])
            if placement.len() == usize::from(keys) => Ok(Call::Make {
            nodes,
            keys,
            placement,
        }),
        (RecordKind::Begin, &[mode @ 0..=1]) => Ok(Call::Begin { mode }),
        (RecordKind::Read, &[transaction, key, node]) => Ok(Call::Read {
            transaction,
            key,
            node,
        }),
        (RecordKind::Write, &[transaction, key, ref value @ ..]) if value.len() == 8 => Ok(
            Call::Write {
                transaction,
                key,
                value: value_in(value),
            },
        ),
        (RecordKind::Offer, &[transaction]) => Ok(Call::Offer { transaction }),
        (RecordKind::Prepare, &[transaction, node]) => Ok(Call::Prepare { transaction, node }),
        (RecordKind::Decide, &[transaction]) => Ok(Call::Decide { transaction }),
        (RecordKind::Cancel, &[transaction]) => Ok(Call::Cancel { transaction }),
        (RecordKind::Learn, &[transaction, node]) => Ok(Call::Learn { transaction, node }),
        (RecordKind::Apply, &[node]) => Ok(Call::Apply { node }),
        (RecordKind::Finish, &[transaction]) => Ok(Call::Finish { transaction }),
        _ => Err(Refusal::BadRecord),
    }
}

/// The value that eight bytes hold, the lowest byte first.
fn value_in(bytes: &[u8]) -> StoredValue
    requires { length bytes.now ≡ 8 }
    ensures { result ≡ number_in 8 bytes.now 0 }
{
    u64::from_le_bytes(<[u8; 8]>::try_from(bytes).unwrap())
}
