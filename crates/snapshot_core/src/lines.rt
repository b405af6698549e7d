//! The lines of a snapshot.

ghost use Rattle.std.specs.Prelude.{◌≡◌, ◌++◌, List, IfOk, OnOk, map, string_bytes};
ghost use Rattle.std.specs.List.{flat_map};
ghost use Rattle.delta_actions.specs.Action.{Action, add_view, protocol_view, txn_view};
ghost use Rattle.delta_replay.specs.Snapshots.{IsSnapshotOf};
ghost use Rattle.snapshot_core.specs.Telling.{TellsLists, closed_line, file_line, id_text, number_line, path_line, settings_text};

use delta_actions::{Add, Protocol, Txn};
use delta_replay::Snapshot;
use serde_json::Value;
use std::alloc::{AllocError, Global};

/// An application's id as JSON.
fn id_text(alloc: Global, application: &str) -> Result<String, AllocError>
    ensures { IfOk result (λ text. string_bytes text ≡ id_text application.now) }
{
    Value::String(String::from_str(alloc, application)?).to_string(alloc)
}

/// The lines of the version, the protocol and the schema.
pub(crate) fn settings_text(
    alloc: Global,
    version: u64,
    protocol: &Protocol,
    schema: &str,
) -> Result<Vec<u8>, AllocError>
    ensures { IfOk result (λ text. text.items ≡ settings_text version (protocol_view protocol.now) schema.now) }
{
    let reader = protocol.min_reader_version;
    let writer = protocol.min_writer_version;
    let text = format!(in alloc;
        "version {version}\nprotocol {reader} {writer}\nschema {schema}\n"
    )?;
    Ok(text.into_bytes())
}

/// The line of an application's number.
fn number_line(alloc: Global, number: &Txn) -> Result<String, AllocError>
    ensures { IfOk result (λ text. string_bytes text ≡ number_line (txn_view number.now)) }
{
    let id = id_text(alloc, &number.app_id)?;
    let version = number.version;
    format!(in alloc; "app {id} {version}\n")
}

/// The line of an application whose stream is closed.
fn closed_line(alloc: Global, application: &str) -> Result<String, AllocError>
    ensures { IfOk result (λ text. string_bytes text ≡ closed_line application.now) }
{
    let id = id_text(alloc, application)?;
    format!(in alloc; "closed {id}\n")
}

/// The line of a file's path and its size.
fn path_line(alloc: Global, path: &str, size: u64) -> Result<String, AllocError>
    ensures { IfOk result (λ text. string_bytes text ≡ path_line path.now size) }
{
    format!(in alloc; "file {path} {size}\n")
}

/// The line of a file.
fn file_line(alloc: Global, file: &Add) -> Result<String, AllocError>
    ensures { IfOk result (λ text. string_bytes text ≡ file_line (add_view file.now)) }
{
    path_line(alloc, file.path.text(), file.size)
}

/// Adds the lines of applications' numbers.
fn add_numbers(text: &mut Vec<u8>, alloc: Global, numbers: Vec<&Txn>) -> Result<(), AllocError>
    ensures { OnOk result (text.new.items
        ≡ text.old.items ++ flat_map number_line (map (λ t. txn_view t.now) numbers.entry.items)) }
{
    for number in numbers {
        text.extend_from_slice(number_line(alloc, number)?.as_bytes())?;
    }
    Ok(())
}

/// Adds the lines of the applications whose streams are closed.
fn add_closed(text: &mut Vec<u8>, alloc: Global, applications: Vec<&str>) -> Result<(), AllocError>
    ensures { OnOk result (text.new.items
        ≡ text.old.items ++ flat_map closed_line (map (λ t. t.now) applications.entry.items)) }
{
    for application in applications {
        text.extend_from_slice(closed_line(alloc, application)?.as_bytes())?;
    }
    Ok(())
}

/// Adds the lines of files.
fn add_files(text: &mut Vec<u8>, alloc: Global, files: Vec<&Add>) -> Result<(), AllocError>
    ensures { OnOk result (text.new.items
        ≡ text.old.items ++ flat_map file_line (map (λ a. add_view a.now) files.entry.items)) }
{
    for file in files {
        text.extend_from_slice(file_line(alloc, file)?.as_bytes())?;
    }
    Ok(())
}

/// Adds the lines of a snapshot's applications with their numbers, of those whose streams are closed, and of its files.
pub(crate) fn add_lists(
    text: &mut Vec<u8>,
    alloc: Global,
    snapshot: &Snapshot,
) -> Result<(), AllocError>
    ensures { OnOk result ((log : List (List Action)) → IsSnapshotOf log snapshot.now → TellsLists log text.old.items text.new.items) }
{
    add_numbers(text, alloc, snapshot.apps(alloc)?)?;
    add_closed(text, alloc, snapshot.closed(alloc)?)?;
    add_files(text, alloc, snapshot.files(alloc)?)
}
