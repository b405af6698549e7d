//! Whether a table is read: what its protocol asks of a reader, and its schema.

ghost use Rattle.std.specs.Prelude.{◌≡◌, List, IfErr, IfOk, Some, map, option_map, string_bytes};
ghost use Rattle.outcomes.specs.Outcome.{Gives, IsSaid};
ghost use Rattle.schema_tree.specs.Schema.{tree_of};
ghost use Rattle.delta_actions.specs.Action.{Action, meta_data_view, protocol_view};
ghost use Rattle.delta_replay.specs.Snapshots.{IsSnapshotOf, TellsSchema};
ghost use Rattle.delta_replay.specs.Support.{first_unknown, is_known_to_readers, readable, readable_by, readable_protocol, says, schema_of_log, schema_told, unless_unknown};

use crate::features::{is_known_to_readers, unknown_feature};
use crate::kept::Snapshot;
use crate::support::{SupportError, SupportFault};
use delta_actions::{MetaData, Protocol};
use schema_tree::{ReadError, Schema};
use std::alloc::Global;

impl Snapshot {
    /// The schema of the table, if it is read, by [`supports_read`] with the newest protocol and metadata.
    pub fn supports_read(&self, alloc: Global) -> Result<Schema<Global>, SupportError>
        ensures read { (log : List (List Action)) → IsSnapshotOf log self.now → Gives says tree_of result (readable log) }
        ensures told { IfOk result (λ schema. TellsSchema self.now (tree_of schema)) }
    {
        supports_read(alloc, self.protocol(), self.meta_data.as_ref())
    }

    /// The table's schema by its newest metadata, whatever the protocol asks of a reader: C2 without a metadata, C6
    /// where its text is no schema, and `Memory` where memory runs out. The time is linear in the schema's text.
    pub fn schema(&self, alloc: Global) -> Result<Schema<Global>, SupportError>
        ensures { (log : List (List Action)) → IsSnapshotOf log self.now → Gives says tree_of result (schema_of_log log) }
    {
        let Some(meta_data) = self.meta_data() else {
            return Err(SupportFault::NoMetadata.into());
        };
        schema_in(alloc, meta_data)
    }
}

/// The schema of a table with this protocol and this metadata, if it is read. This product's rule, over the fields of
/// Delta PROTOCOL.md, "Protocol Evolution" and "Change Metadata": reader version 1, or 3 with no feature but
/// `v2Checkpoint`; no partition columns; and a schema that can be read.
///
/// C1 without a protocol, C2 without a metadata, C5 for another reader version, C3 for the first other reader feature,
/// C4 for a table with partition columns, and C6 for the schema's text, in this order; `Memory` where memory runs out.
/// The time is linear in the protocol and the schema's text.
pub(crate) fn supports_read(
    alloc: Global,
    protocol: Option<&Protocol>,
    meta_data: Option<&MetaData>,
) -> Result<Schema<Global>, SupportError>
    ensures { Gives says tree_of result
        (readable_by (option_map (λ p. protocol_view p.now) protocol.entry) (option_map (λ m. meta_data_view m.now) meta_data.entry)) }
{
    schema_in(alloc, readable_meta_data(alloc, protocol, meta_data)?)
}

/// The metadata of a table of which only the schema's text is still to be read, for a caller who may have the schema of
/// this text from before: that is [`Snapshot::supports_read`] without C6. So C1, C2, C5, C3 and C4, in this order;
/// `Memory` where memory runs out. Time is linear in the protocol.
pub fn readable_meta_data<'a>(
    alloc: Global,
    protocol: Option<&Protocol>,
    meta_data: Option<&'a MetaData>,
) -> Result<&'a MetaData, SupportError>
    ensures refused { IfErr result (λ fault. IsSaid (says fault)
        (readable_by (option_map (λ p. protocol_view p.now) protocol.entry) (option_map (λ m. meta_data_view m.now) meta_data.entry))) }
    ensures passed { IfOk result (λ found.
        readable_by (option_map (λ p. protocol_view p.now) protocol.entry) (option_map (λ m. meta_data_view m.now) meta_data.entry) ≡ schema_told (meta_data_view found.now)) }
    ensures same { IfOk result (λ found. option_map (λ m. m.now) meta_data.entry ≡ Some found.now) }
{
    let Some(protocol) = protocol else {
        return Err(SupportFault::NoProtocol.into());
    };
    let Some(meta_data) = meta_data else {
        return Err(SupportFault::NoMetadata.into());
    };
    check_protocol(alloc, protocol)?;
    if !meta_data.partition_columns.is_empty() {
        return Err(SupportFault::Partitioned.into());
    }
    Ok(meta_data)
}

/// Whether a reader of this crate's features reads tables of a protocol.
fn check_protocol(alloc: Global, protocol: &Protocol) -> Result<(), SupportError>
    ensures { Gives says (λ u. u) result (readable_protocol (protocol_view protocol.now)) }
{
    match protocol.min_reader_version {
        1 => Ok(()),
        3 => check_features(alloc, &protocol.reader_features),
        n => Err(SupportFault::ReaderVersion { n }.into()),
    }
}

/// Whether all features are known to readers.
fn check_features(alloc: Global, features: &[String]) -> Result<(), SupportError>
    ensures { Gives says (λ u. u) result (unless_unknown (first_unknown is_known_to_readers (map (λ s. string_bytes s) features.now))) }
{
    for feature in features {
        if !is_known_to_readers(feature) {
            return Err(unknown_feature(alloc, feature));
        }
    }
    Ok(())
}

/// The schema that a metadata's text tells: C6 where it is none, `Memory` where memory runs out. Time is linear in the
/// text.
pub fn schema_in(alloc: Global, meta_data: &MetaData) -> Result<Schema<Global>, SupportError>
    ensures { Gives says tree_of result (schema_told (meta_data_view meta_data.now)) }
{
    match Schema::from_text(alloc, &meta_data.schema_string) {
        Ok(schema) => Ok(schema),
        Err(ReadError::Memory) => Err(SupportError::Memory),
        Err(ReadError::Fault(fault)) => Err(SupportFault::BadSchema { fault }.into()),
    }
}
