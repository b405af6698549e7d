//! What more of a refusal is told than its line does.
ghost use Rattle.std.specs.Prelude.{◌≡◌, option_map};
ghost use Rattle.lake_words.specs.Asked.{work_view};
ghost use Rattle.lake_hints.specs.ErrorOutputs.{TellsSome};
ghost use Rattle.lake_hints.specs.Hints.{IsRefusalHint, IsRowMeaning, IsSchemaHint, append_limit, count_limit, is_no_json, limit_in, row_code, row_code_in, schema_in};

use crate::error_output::ErrorOutput;
use crate::meanings::explain;
use crate::remedies::hint;
use batch_core::{GREATEST_NUMBER, MOST_ROWS, SinkFault};
use commit_core::CreateFault;
use json_lines::flaw_of;
use lake_script::LineReply;
use lake_words::Job;
use row_core::RowFault;
use schema_tree::SchemaFault;
use std::alloc::Global;
use std::io::Write;

/// What is said of a log that has no version left.
const LAST_VERSION: &str =
    "the log has its last version, 999,999,999,999, and takes no further commit";

/// Says more of a job's refusal than its line does: what the fault of a row means, which limit the job passes, where it
/// had so many rows, and where a schema's text stops being JSON.
pub fn hint_refusal<E: Write>(
    alloc: Global,
    reply: &LineReply,
    job: Job<'_>,
    rows: u64,
    err: &mut ErrorOutput<E>,
)
    ensures { TellsSome E.contents (IsRefusalHint reply.now (work_view job.entry) rows) err.old err.new }
{
    explain_row(reply, err);
    hint(limit_passed(reply, job, rows), err);
    hint_schema(alloc, is_no_json(reply), schema_of(job), err)
}

/// Tells what the fault means of the row for which a reply refuses a batch.
fn explain_row<E: Write>(reply: &LineReply, err: &mut ErrorOutput<E>)
    ensures { TellsSome E.contents (IsRowMeaning (row_code_in reply.now)) err.old err.new }
{
    if let Some(code) = row_code_in(reply) {
        explain(code, err);
    }
}

/// The code of the fault of the row for which a reply refuses a batch.
fn row_code_in(reply: &LineReply) -> Option<&'static str>
    ensures { option_map (λ code. code.now) result ≡ row_code_in reply.now }
{
    match reply {
        LineReply::SinkRefused(SinkFault::BadRow { fault, .. }) => Some(row_code(fault)),
        _ => None,
    }
}

fn row_code(fault: &RowFault) -> &'static str
    ensures { result.now ≡ row_code fault.now }
{
    match fault {
        RowFault::Missing { .. } => "V1",
        RowFault::WrongKind { .. } => "V2",
        RowFault::OutOfRange { .. } => "V3",
        RowFault::Unsupported { .. } => "V4",
        RowFault::Unknown { .. } => "V5",
    }
}

/// Says where a schema's text stops being JSON, if it is none.
fn hint_schema<E: Write>(
    alloc: Global,
    is_no_json: bool,
    schema: Option<&str>,
    err: &mut ErrorOutput<E>,
)
    ensures { TellsSome E.contents (IsSchemaHint is_no_json (option_map (λ schema. schema.now) schema.entry)) err.old err.new }
{
    if !is_no_json {
        return;
    }
    if let Some(schema) = schema {
        let flaw = flaw_of(alloc, schema.as_bytes());
        err.say(format_args!("hint: the schema's text {flaw}"));
    }
}

/// Whether a reply says that a schema's text is no JSON.
fn is_no_json(reply: &LineReply) -> bool
    ensures { result ≡ is_no_json reply.now }
{
    matches!(
        reply,
        LineReply::NotCreated(CreateFault::BadSchema(SchemaFault::BadJson))
    )
}

/// The schema's text of a table that is to be created.
fn schema_of(job: Job<'_>) -> Option<&str>
    ensures { option_map (λ schema. schema.now) result ≡ schema_in (work_view job.entry) }
{
    match job {
        Job::Create { schema, .. } => Some(schema),
        _ => None,
    }
}

/// The limit that a job passes.
fn limit_passed(reply: &LineReply, job: Job<'_>, rows: u64) -> Option<&'static str>
    ensures { option_map (λ limit. limit.now) result ≡ limit_in reply.now (work_view job.entry) rows }
{
    match reply {
        LineReply::SinkRefused(SinkFault::FileTooLarge) => {
            Some("the file of these rows would pass 64 MiB; fewer rows make a smaller one")
        }
        LineReply::SinkRefused(SinkFault::TooLarge) => Some(count_passed(job, rows)),
        _ => None,
    }
}

/// The limit of numbers, of rows or of versions that a job passes.
fn count_passed(job: Job<'_>, rows: u64) -> &'static str
    ensures { result.now ≡ count_limit (work_view job.entry) rows }
{
    match job {
        Job::Append { number, .. } => append_passed(number, rows),
        _ => LAST_VERSION,
    }
}

/// The limit that an append passes, which are tested in this order.
fn append_passed(number: u64, rows: u64) -> &'static str
    ensures { result.now ≡ append_limit number rows }
{
    if number > GREATEST_NUMBER {
        return "the number is above 999,999,999,999";
    }
    if rows > MOST_ROWS as u64 {
        return "there are over 65,536 rows; hand them in as several batches";
    }
    LAST_VERSION
}
