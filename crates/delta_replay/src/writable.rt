//! Whether a table is written: what its protocol asks of a writer, and its columns' invariants.

ghost use Rattle.std.specs.Prelude.{◌≡◌, List, IfOk, is_some, map, string_bytes};
ghost use Rattle.serde_json.specs.Find.{get};
ghost use Rattle.outcomes.specs.Outcome.{Gives};
ghost use Rattle.schema_tree.specs.Schema.{tree_of};
ghost use Rattle.schema_tree.specs.Tree.{fields_of};
ghost use Rattle.schema_tree.specs.View.{field_views, metadata_of};
ghost use Rattle.schema_tree.specs.View as trees;
ghost use Rattle.delta_actions.specs.Action.{Action, protocol_view};
ghost use Rattle.delta_replay.specs.Snapshots.{IsSnapshotOf, TellsSchema};
ghost use Rattle.delta_replay.specs.Support.{checkpointable, first_unknown, has_feature, has_key_inside, have_key_inside, is_known_to_writers, says, unless_unknown, writable, writable_protocol};

use crate::features::{is_known_to_writers, unknown_feature};
use crate::kept::Snapshot;
use crate::support::{SupportError, SupportFault};
use delta_actions::Protocol;
use schema_tree::{Field, Metadata, Node, Schema};
use serde_json::Value;
use std::alloc::{AllocError, Global};

impl Snapshot {
    /// The schema of the table, if it is written. This product's rule, over the fields of Delta PROTOCOL.md, "Table
    /// Features" and "Column Invariants": it is read, its writer version is 7 with `domainMetadata` among the features
    /// and none but `appendOnly`, `invariants`, `domainMetadata` and `v2Checkpoint`, and no field has
    /// `delta.invariants` at the top of its metadata.
    ///
    /// First the faults of [`Snapshot::supports_read`]; then C3 `domainMetadata` for another version or without that
    /// feature, C3 for the first other feature, and C3 `invariants` for a field that has them; `Memory` where memory
    /// runs out. The time is linear in the protocol and the schema's text.
    pub fn supports_write(&self, alloc: Global) -> Result<Schema<Global>, SupportError>
        ensures written { (log : List (List Action)) → IsSnapshotOf log self.now → Gives says tree_of result (writable log) }
        ensures told { IfOk result (λ schema. TellsSchema self.now (tree_of schema)) }
    {
        let schema = self.supports_read(alloc)?;
        let Some(protocol) = self.protocol() else {
            return Err(SupportFault::NoProtocol.into());
        };
        check_writer(alloc, protocol)?;
        if fields_have_key(alloc, schema.fields(), "delta.invariants")? {
            return Err(unknown_feature(alloc, "invariants"));
        }
        Ok(schema)
    }
}

impl Snapshot {
    /// Whether a checkpoint of the table is put. This product's rule, over the fields of Delta PROTOCOL.md, "V2
    /// Checkpoint Table Feature": the table is written, and the features of both its readers and its writers have
    /// `v2Checkpoint`.
    ///
    /// First the faults of [`Snapshot::supports_write`]; then C3 `v2Checkpoint`; `Memory` where memory runs out. The
    /// time is linear in the protocol and the schema's text.
    pub fn supports_checkpoint(&self, alloc: Global) -> Result<(), SupportError>
        ensures { (log : List (List Action)) → IsSnapshotOf log self.now → Gives says (λ u. u) result (checkpointable log) }
    {
        let _schema = self.supports_write(alloc)?;
        let Some(protocol) = self.protocol() else {
            return Err(SupportFault::NoProtocol.into());
        };
        if !has_feature(&protocol.reader_features, "v2Checkpoint")
            || !has_feature(&protocol.writer_features, "v2Checkpoint")
        {
            return Err(unknown_feature(alloc, "v2Checkpoint"));
        }
        Ok(())
    }
}

/// Whether a writer of this crate's features writes tables of a protocol.
fn check_writer(alloc: Global, protocol: &Protocol) -> Result<(), SupportError>
    ensures { Gives says (λ u. u) result (writable_protocol (protocol_view protocol.now)) }
{
    if protocol.min_writer_version != 7
        || !has_feature(&protocol.writer_features, "domainMetadata")
    {
        return Err(unknown_feature(alloc, "domainMetadata"));
    }
    check_writer_features(alloc, &protocol.writer_features)
}

/// Whether a feature is among these.
fn has_feature(features: &[String], name: &str) -> bool
    ensures { result ≡ has_feature name.now (map (λ s. string_bytes s) features.now) }
{
    for feature in features {
        if feature.as_str() == name {
            return true;
        }
    }
    false
}

/// Whether all features are known to writers.
fn check_writer_features(alloc: Global, features: &[String]) -> Result<(), SupportError>
    ensures { Gives says (λ u. u) result (unless_unknown (first_unknown is_known_to_writers (map (λ s. string_bytes s) features.now))) }
{
    for feature in features {
        if !is_known_to_writers(feature) {
            return Err(unknown_feature(alloc, feature));
        }
    }
    Ok(())
}

/// Whether a field inside a type has a key at the top of its metadata.
#[cycle(keys)]
fn node_has_key(alloc: Global, node: &Node<Global>, key: &str) -> Result<bool, AllocError>
    ensures { IfOk result (λ has. has ≡ has_key_inside key.now (trees.view node.now)) }
{
    match node {
        Node::Leaf(_) => Ok(false),
        Node::Struct(fields) => fields_have_key(alloc, fields, key),
        Node::Array { element, .. } => node_has_key(alloc, element, key),
        Node::Map {
            key: keys,
            value,
            ..
        } => { Ok(node_has_key(alloc, keys, key)? || node_has_key(alloc, value, key)?) }
    }
}

/// Whether one of these fields, or one inside them, has a key at the top of its metadata.
#[cycle(keys)]
fn fields_have_key(alloc: Global, fields: &[Field<Global>], key: &str) -> Result<bool, AllocError>
    ensures { IfOk result (λ has. has ≡ have_key_inside key.now (fields_of (field_views fields.now))) }
{
    for field in fields {
        if has_key(alloc, &field.metadata, key)? || node_has_key(alloc, &field.data_type, key)? {
            return Ok(true);
        }
    }
    Ok(false)
}

/// Whether a field's metadata has a key.
fn has_key(alloc: Global, metadata: &Metadata<Global>, key: &str) -> Result<bool, AllocError>
    ensures { IfOk result (λ has. has ≡ is_some (get key.now (metadata_of metadata.now))) }
{
    match Value::from_str(alloc, metadata.as_str()) {
        Ok(value) => Ok(value.get(key).is_some()),
        Err(_) => Err(AllocError),
    }
}
