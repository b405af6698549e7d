//! What is told of the store that a script leaves: the slow program of the definitions looks at it.

use case_words::Transcript;
use row_core::{RowPrinter, Value};
use store_core::{MemoryStore, Store};
use table_model::{Batch, Entry, is_lawful};
use table_store::{Held, held_by};

/// Adds which table a store holds, whether it is lawful, and, where they are told, its entries, one a line.
pub fn tell_table(store: &mut MemoryStore, tells_entries: bool, told: &mut Transcript) {
    match held_by(told.alloc, store) {
        Ok(Some(held)) => tell_held(&held, tells_entries, told),
        Ok(None) => told.say("no table"),
        Err(_fault) => told.lacks_memory(),
    }
}

fn tell_held(held: &Held, tells_entries: bool, told: &mut Transcript) {
    let Some(schema) = &held.schema else {
        told.text("table of any schema, ");
        return tell_count(&held.entries, told);
    };
    told.text("table ");
    match schema.to_text(told.alloc) {
        Ok(text) => told.text(&text),
        Err(_error) => told.lacks_memory(),
    }
    told.text(", ");
    tell_count(&held.entries, told);
    if tells_entries {
        let Ok(printer) = RowPrinter::of_schema(told.alloc, schema) else {
            return told.lacks_memory();
        };
        for entry in &held.entries {
            tell_entry(&printer, entry, told);
        }
    }
}

/// Adds how many entries there are, and whether they are lawful.
pub fn tell_count(entries: &[Entry], told: &mut Transcript) {
    told.with("", &entries.len());
    told.say(if is_lawful(entries) {
        " entries, lawful"
    } else {
        " entries, unlawful"
    });
}

/// Adds an entry: of a group that isn't one batch the count, and its batches, one a line.
fn tell_entry(printer: &RowPrinter, entry: &Entry, told: &mut Transcript) {
    match entry {
        Entry::Creation => told.say("creation"),
        Entry::Close(application) => told.tell("close of", application),
        Entry::Group(batches) => {
            if batches.len() != 1 {
                told.with("group of ", &batches.len());
                told.say(" batches");
            }
            for batch in batches {
                tell_batch(printer, batch, told);
            }
        }
    }
}

/// Adds a batch: its number, its application, and its rows as JSON.
fn tell_batch(printer: &RowPrinter, batch: &Batch, told: &mut Transcript) {
    told.with("batch ", &batch.number);
    told.text(" of ");
    told.text(&batch.application);
    told.text(":");
    for row in &batch.rows {
        told.text(" ");
        add_row(printer, row, told);
    }
    told.text("\n");
}

/// Adds a row as JSON.
fn add_row(printer: &RowPrinter, row: &Value, told: &mut Transcript) {
    match printer.write(told.alloc, row, Vec::new(told.alloc)) {
        Ok(text) => told.add(&text),
        Err(_error) => told.lacks_memory(),
    }
}

/// Adds the names of a store's objects, each with its count of bytes.
pub fn tell_objects(store: &mut MemoryStore, told: &mut Transcript) {
    match store.list() {
        Ok(names) => {
            for name in names.as_slice() {
                tell_object(store, name, told);
            }
        }
        Err(_fault) => told.lacks_memory(),
    }
}

/// Adds a name, and the count of its object's bytes.
fn tell_object(store: &mut MemoryStore, name: &str, told: &mut Transcript) {
    match store.get(name) {
        Ok(Some(bytes)) => told.tell(name, &bytes.len()),
        Ok(None) => told.tell(name, &0u64),
        Err(_fault) => told.lacks_memory(),
    }
}
