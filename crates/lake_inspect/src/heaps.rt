//! Schemas copied into a heap of a fixed size, and back, and Thrift structs and the footers of files read into one.

use crate::rows::tell_file;
use crate::schema::{schema_and_bytes, schema_of};
use crate::tree::tell_struct;
use byte_words::{HeapKind, LineFault, Transcript, Words};
use linked_list_allocator::LocalHeap;
use schema_tree::Schema;
use std::alloc::Global;

/// The schema that is copied into a heap in which another one had no room.
const ONE_COLUMN: &[u8] = br#"{"type":"struct","fields":[{"name":"x","type":"long"}]}"#;

/// The struct that is read into a heap in which another one was read: its one field is the number 1.
const ONE_NUMBER: &[u8] = &[0x15, 0x02, 0x00];

/// Which tree is dropped first.
#[derive(Clone, Copy)]
enum Order {
    /// The one that was read.
    MemoryFirst,
    /// The one in the heap.
    HeapFirst,
}

/// Tells what comes of a heap of so many bytes: for `BYTES SCHEMA` of a schema that is copied into it, for `BYTES
/// SCHEMA FILE` of a table's file whose footer is read into it, and for `BYTES STRUCT` of a struct that is read into
/// it, and then of one of one number. At the end stands how much of the heap is in use.
pub fn tell_heap(
    kind: HeapKind,
    words: &mut Words<'_>,
    told: &mut Transcript,
) -> Result<(), LineFault> {
    let size = words.word();
    let size = words.number::<usize>(size);
    words.end()?;
    let heap = LocalHeap::new(told.alloc(), size)?;
    tell_in(&heap, kind, words, told)?;
    told.line("");
    told.show("", &heap.used());
    told.put(" in use");
    Ok(())
}

fn tell_in(
    heap: &LocalHeap,
    kind: HeapKind,
    words: &mut Words<'_>,
    told: &mut Transcript,
) -> Result<(), LineFault> {
    match kind {
        HeapKind::Schema => tell_copies(heap, &words.rest_bytes()?, told),
        HeapKind::File => tell_file_in(heap, words, told),
        HeapKind::Struct => {
            tell_struct(heap, &words.rest_bytes()?, told)?;
            tell_struct(heap, ONE_NUMBER, told)
        }
    }
}

/// Tells the rows of a file of a table, whose footer is read into the heap, or why it is refused.
fn tell_file_in(
    heap: &LocalHeap,
    words: &mut Words<'_>,
    told: &mut Transcript,
) -> Result<(), LineFault> {
    let (schema, bytes) = schema_and_bytes(words, told)?;
    match tell_file(heap, &schema, &bytes, told) {
        Ok(()) | Err(LineFault::Refused) => Ok(()),
        Err(fault) => Err(fault),
    }
}

/// Tells of a schema, its copy in the heap and the copy of that in memory whether all three are the same, and still
/// once one of them is dropped, for each order; or, where the heap has no room, the schema as it stands then, and
/// whether one of a single column has room.
fn tell_copies(heap: &LocalHeap, bytes: &[u8], told: &mut Transcript) -> Result<(), LineFault> {
    let schema = schema_of(bytes, told)?;
    if schema.copy_into(heap).is_err() {
        told.line("out of memory");
        told.line(&schema.to_text(told.alloc())?);
        return tell_compared(heap, ONE_COLUMN, Order::MemoryFirst, told);
    }
    tell_compared(heap, bytes, Order::MemoryFirst, told)?;
    tell_compared(heap, bytes, Order::HeapFirst, told)
}

/// Tells whether the schema that is read, its copy in the heap and the copy of that in memory are the same, and still
/// once one of the first two is dropped; or that the heap has no room.
fn tell_compared(
    heap: &LocalHeap,
    bytes: &[u8],
    order: Order,
    told: &mut Transcript,
) -> Result<(), LineFault> {
    let first = schema_of(bytes, told)?;
    let Ok(inside) = first.copy_into(heap) else {
        told.line("out of memory");
        return Ok(());
    };
    let back = inside.copy_into(told.alloc())?;
    let at_first = first.same(&inside) && inside.same(&back) && back.same(&first);
    let then = stays_same(order, first, inside, back);
    told.line(if at_first && then { "same" } else { "differ" });
    Ok(())
}

/// Whether the other two are the same once one is dropped.
fn stays_same(
    order: Order,
    first: Schema<Global>,
    inside: Schema<&LocalHeap>,
    back: Schema<Global>,
) -> bool {
    match order {
        Order::MemoryFirst => {
            drop(first);
            inside.same(&back)
        }
        Order::HeapFirst => {
            drop(inside);
            first.same(&back)
        }
    }
}
