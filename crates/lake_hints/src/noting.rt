//! What is told of a job that is done: that a table which was created takes no rows, and that a batch without rows uses
//! up its number.
ghost use Rattle.std.specs.Prelude.{◌≡◌, IfSome, false, is_some, true};
ghost use Rattle.lake_hints.specs.ErrorOutputs.{TellsText, TellsSome};
ghost use Rattle.lake_hints.specs.Notes.{IsNoteOf, empty_note, is_noted, number_used_up};
ghost use Rattle.row_core.specs.Unsupported.{has_values};
ghost use Rattle.schema_tree.specs.Reading.{schema_of};
ghost use Rattle.lake_words.specs.Asked.{work_view};
ghost use Rattle.lake_hints.specs.Rowless.{IsRowlessNote, creates_rowless, has_rowless};

use crate::error_output::ErrorOutput;
use lake_words::Job;
use row_core::unsupported;
use schema_tree::{Field, Node, Primitive, Schema};
use std::alloc::{AllocError, Allocator, Global};
use std::fmt;
use std::fmt::{Display, Formatter};
use std::io::Write;

/// How many columns without rows are named.
const MOST_NAMED: u64 = 10;

/// Tells of a job that is done, and had so many rows, what its caller may not have meant: of a table that takes no rows
/// which of its columns are of a type that has none, and of an append without rows, whose words don't say so, that its
/// number is used up. Takes time linear in the schema's text.
pub fn note_done<E: Write>(alloc: Global, job: Job<'_>, rows: u64, err: &mut ErrorOutput<E>)
    ensures silent { is_noted (work_view job.entry) rows ≡ false → err.new ≡ err.old }
    ensures told { TellsSome E.contents (IsNoteOf (work_view job.entry) rows) err.old err.new }
{
    note_rowless(alloc, job, err);
    note_empty(number_used_up(job, rows), err)
}

/// Tells that a batch without rows uses up this number, where one does.
fn note_empty<E: Write>(used_up: Option<u64>, err: &mut ErrorOutput<E>)
    ensures silent { is_some used_up ≡ false → err.new ≡ err.old }
    ensures told { TellsText E.contents err.old err.new (empty_note used_up) }
{
    if let Some(number) = used_up {
        err.say(format_args!(
            "note: the input had no rows: the number {number} is used up by a batch without rows (--rows N refuses such an input)"
        ));
    }
}

/// The number that a batch without rows uses up, whose words don't say how many rows it has.
fn number_used_up(job: Job<'_>, rows: u64) -> Option<u64>
    ensures { result ≡ number_used_up (work_view job.entry) rows }
{
    match job {
        Job::Append {
            number,
            rows: None,
            ..
        } if rows == 0 => Some(number),
        _ => None,
    }
}

/// Tells of a table that was created and takes no rows which of its columns are of a type that has none. Takes time
/// linear in the schema's text.
fn note_rowless<E: Write>(alloc: Global, job: Job<'_>, err: &mut ErrorOutput<E>)
    ensures silent { creates_rowless (work_view job.entry) ≡ false → err.new ≡ err.old }
    ensures told { TellsSome E.contents (IsRowlessNote (creates_rowless (work_view job.entry))) err.old err.new }
{
    let Job::Create { schema, .. } = job else {
        return;
    };
    if let Some(columns) = rowless(alloc, schema) {
        err.say(format_args!("note: the table takes no rows, since {columns} none here"));
    }
}

/// The columns that have no rows, where there are some. They are looked for once more than the first of them, so that
/// what a table takes is said by the same function as where its rows are read.
fn rowless(alloc: Global, schema: &str) -> Option<String>
    ensures { IfSome result (λ _. has_rowless (schema_of schema.now) ≡ true) }
{
    match Schema::from_text(alloc, schema) {
        Ok(schema) => match unsupported(alloc, &schema) {
            Ok(Some(_first)) => rowless_of(alloc, &schema).ok(),
            _ => None,
        },
        Err(_fault) => None,
    }
}

/// The columns of a schema that have no rows, as they are told. Of many the first are named alone, so the time is linear
/// in the schema.
fn rowless_of(alloc: Global, schema: &Schema<Global>) -> Result<String, AllocError> {
    let mut columns = NamedColumns {
        names: String::new(alloc),
        count: 0,
    };
    add_fields(schema.fields(), &mut Vec::new(alloc), &mut columns)?;
    format!(in alloc; "{columns}")
}

/// The columns of a table that have no rows.
#[derive(Drop)]
struct NamedColumns {
    /// The paths of the first ones, depth first.
    names: String,
    /// How many there are.
    count: u64,
}

impl NamedColumns {
    /// Adds the column to which these fields lead.
    fn add(&mut self, path: &[&str]) -> Result<(), AllocError> {
        self.count = self.count.saturating_add(1);
        if self.count > MOST_NAMED {
            return Ok(());
        }
        let mut gap = if self.count > 1 { ", " } else { "" };
        for name in path {
            self.names.push_str(gap)?;
            self.names.push_str(name)?;
            gap = ".";
        }
        Ok(())
    }
}

impl Display for NamedColumns {
    fn fmt<W: fmt::Write>(&self, f: &mut Formatter<W>) -> fmt::Result {
        let NamedColumns { names, count } = self;
        match *count {
            1 => write!(f, "the type of the column {names} has"),
            2..=MOST_NAMED => write!(f, "the types of the columns {names} have"),
            _ => {
                let more = count.saturating_sub(MOST_NAMED);
                write!(f, "the types of the columns {names} and {more} more have")
            }
        }
    }
}

/// Adds the columns below these fields, which lie in the ones above.
#[cycle(rowless)]
fn add_fields<'a, A: Allocator>(
    fields: &'a [Field<A>],
    above: &mut Vec<&'a str>,
    columns: &mut NamedColumns,
) -> Result<(), AllocError> {
    for field in fields {
        add_field(field, above, columns)?;
    }
    Ok(())
}

/// Adds the columns of a field.
#[cycle(rowless)]
fn add_field<'a, A: Allocator>(
    field: &'a Field<A>,
    above: &mut Vec<&'a str>,
    columns: &mut NamedColumns,
) -> Result<(), AllocError> {
    above.push(field.name.as_str())?;
    add_type(&field.data_type, above, columns)?;
    above.pop();
    Ok(())
}

/// Adds the columns of a type, to which the fields above lead.
#[cycle(rowless)]
fn add_type<'a, A: Allocator>(
    node: &'a Node<A>,
    above: &mut Vec<&'a str>,
    columns: &mut NamedColumns,
) -> Result<(), AllocError> {
    match node {
        Node::Leaf(primitive) if has_values(*primitive) => Ok(()),
        Node::Struct(fields) => add_fields(fields, above, columns),
        _ => columns.add(above),
    }
}

/// Whether there are values of a primitive type.
fn has_values(primitive: Primitive) -> bool
    ensures { result ≡ has_values primitive }
{
    !matches!(
        primitive,
        Primitive::Timestamp | Primitive::Float | Primitive::Double | Primitive::Decimal { .. }
    )
}
