//! The reply to a job on the table in a folder.
ghost use Rattle.std.specs.Prelude.{◌≡◌, ◌≢◌, ◌++◌, ◌↔◌, ◌<◌, ◌≤◌, ◌^◌, ℕ, Bool, List, Option, true, false, Some, None, IfOk, IfErr, IfSome, IsErrAnd, IsSomeAnd, IsOk, IsTrue, Ok, length};
ghost use Rattle.store_core.specs.Calls.{HasRisen};
ghost use Rattle.store_core.specs.Objects.{object_at};
ghost use Rattle.table_folder.specs.Traces.{FolderCall, Traced};
ghost use Rattle.table_log.specs.Restoring.{RestoresWell};
ghost use Rattle.lake_words.specs.Asked.{work_view};
ghost use Rattle.script_lines.specs.Lines.{IsTimely, Statement};
ghost use Rattle.lake_script.specs.Streams.{read_failed, unread};
ghost use Rattle.lake_command.specs.Again.{ComesOfRuns, IsRunOf, RanAsAsked, tries_in};
ghost use Rattle.lake_command.specs.Answering.{GoesByInput, IsAnswerOver, KeepsFolder};
ghost use Rattle.lake_command.specs.Counts.{IsRowCount, rows_at_hand};
ghost use Rattle.lake_command.specs.Failures.{CountsFolderFault, IsByFolder, IsCaused, IsLoading, IsNotRead, IsOfInput, IsCommitTaken};
ghost use Rattle.lake_script.specs.declared.inputs.TheConstants.{MOST_BYTES};
ghost use Rattle.lake_command.specs.Folders.{IsAskedBy, IsNotYet, IsPutter, IsInputOf, line_view, offset_named, reads_input};

use crate::Failure;
use crate::job_line::JobLine;
use crate::saving::execute_in;
use json_lines::objects_in;
use json_text::JsonRows;
use lake_script::{Fault, Input, LineReply};
use lake_words::{Job, TableCommand};
use std::alloc::Global;
use std::io::Read;
use store_core::is_commit;
use table_folder::{Folder, LoadFault, Reason, SaveFault};

/// The last moment there is, in milliseconds.
const LAST_MOMENT: u64 = 999_999_999_999_999;

/// Does a job on the table in a folder, and finds its reply. An append reads its rows from the input, one JSON object a
/// line. Where saving is refused since another process put an append's or a close's commit meanwhile, the job is run
/// again over the folder as it stands by then, as long as it has tries left: behind the last one, and where a further
/// run can't read the table or finds no memory for it, the failure is `Saving`. Each run takes time for the folder's
/// names and the files that it opens. Loads aren't there yet. Where a reply comes of an append, `rows` is set to the
/// count of its rows, for a message.
pub fn answer<F: Folder, R: Read>(
    alloc: Global,
    folder: &mut F,
    command: TableCommand<'_>,
    input: &mut Input<R>,
    rows: &mut u64,
) -> Result<LineReply, Failure>
    // Over a steady folder whose checkpoints are sound, or with all commits read: what is told and left.
    ensures over { F.is_steady folder.old → RestoresWell command.entry.use_checkpoints (F.objects folder.old) → IsAnswerOver result (work_view command.entry.job) (unread R.remaining input.old) (F.objects folder.old) (F.objects folder.new) (F.fault_count folder.old) (F.fault_count folder.new) }
    // However it ends, a steady folder stays steady, what stood stands, and a sound table stays sound.
    ensures keeps { F.is_steady folder.old → KeepsFolder (F.is_steady folder.new) (F.objects folder.old) (F.objects folder.new) }
    // What comes of it has its cause in the words, the input or the folder's calls, the input before the folder.
    ensures caused { IsCaused result (work_view command.entry.job) (unread R.remaining input.old) (read_failed input.new) (F.fault_count folder.old) (F.fault_count folder.new) }
    ensures by_input { GoesByInput result (work_view command.entry.job) (unread R.remaining input.old) (read_failed input.new) folder.old folder.new input.old input.new rows.new }
    // Over any folder, whoever else writes into it, runs of what the words ask for tell it, by all calls that are made.
    ensures runs { RanAsAsked (λ calls. Traced F.makes folder.old calls folder.new) (work_view command.entry.job) (unread R.remaining input.old) (read_failed input.new) command.entry.use_checkpoints (F.fault_count folder.old) (F.fault_count folder.new) result }
{
    let text = text_for(alloc, &command.job, input)?;
    let Some(line) = line_for(alloc, command.job, &text)? else {
        return Ok(LineReply::Refused(Fault::NotYet));
    };
    *rows = count_rows(&line);
    let tries = tries_of(&command.job);
    let before = folder.faults();
    let outcome = execute_in(alloc, folder, line, tries, command.use_checkpoints);
    if is_lost_race(&outcome, before, folder.faults()) {
        return run_again(alloc, folder, command, &text, tries, outcome);
    }
    outcome
}

/// Runs a job again whose commit's name was taken, over the folder as it stands by then: so many runs in all, each with
/// the tries that are left, and the last one is told. Where a call of the folder fails while the table is loaded, the
/// refusal of the run before is told, whose data file may stand; where no memory is left for the rows or the table, it
/// is told that what was put isn't saved for want of memory. Each run costs as much as the first.
fn run_again<F: Folder>(
    alloc: Global,
    folder: &mut F,
    command: TableCommand<'_>,
    text: &[u8],
    tries: u64,
    refused: Result<LineReply, Failure>,
) -> Result<LineReply, Failure>
    requires taken { IsCommitTaken refused }
    requires puts { (statement : Statement) × IsAskedBy (work_view command.job) (Some text.now) statement × IsPutter statement }
    requires tries { tries ≡ tries_in (work_view command.job) }
    requires some { 1 ≤ tries }
    // Behind the run that was refused, by these calls, just those of further runs are made: as long as tries are left, no
    // call fails and memory suffices.
    ensures runs { (statement : Statement) (calls : List FolderCall) → IsAskedBy (work_view command.entry.job) (Some text.now) statement
        → IsRunOf command.entry.use_checkpoints tries statement refused calls → (more : List FolderCall) × Traced F.makes folder.old more folder.new
        × ComesOfRuns (work_view command.entry.job) text.now command.entry.use_checkpoints (F.fault_count folder.old) (F.fault_count folder.new) tries result (calls ++ more) }
    // What a run has put may stand, so it isn't told that the folder can't be read.
    ensures loaded { IsErrAnd result (λ failure. IsLoading failure) → ⊥ }
    ensures caused { IfErr result (λ failure. IsByFolder failure) }
    ensures faults { CountsFolderFault result (F.fault_count folder.old) (F.fault_count folder.new) }
    ensures kept { F.is_steady folder.old → (name bytes : List ℕ) → object_at (F.objects folder.old) name ≡ Some bytes
        → object_at (F.objects folder.new) name ≡ Some bytes }
    ensures steady { F.is_steady folder.old → F.is_steady folder.new }
{
    let mut refused = refused;
    let mut left = tries;
    while left > 1 {
        left -= 1;
        let Ok(Some(line)) = line_for(alloc, command.job, text) else {
            return Err(Failure::Saving(SaveFault::Memory));
        };
        let before = folder.faults();
        let outcome = execute_in(alloc, folder, line, left, command.use_checkpoints);
        if has_no_room(&outcome) {
            return Err(Failure::Saving(SaveFault::Memory));
        }
        if is_unloaded(&outcome) {
            return refused;
        }
        if !is_lost_race(&outcome, before, folder.faults()) {
            return outcome;
        }
        refused = outcome;
    }
    refused
}

/// Whether a job is to be run again: saving was refused since a commit's name is taken, and no call of the folder
/// failed between two counts of its faults.
fn is_lost_race(outcome: &Result<LineReply, Failure>, before: u64, after: u64) -> bool
    ensures taken { result ≡ true → IsCommitTaken outcome.now }
    ensures same { result ≡ true → after ≡ before }
    ensures none { result ≡ true → HasRisen before after → ⊥ }
    ensures failed { result ≡ false → IsCommitTaken outcome.now → after ≡ before → HasRisen before after }
{
    is_taken(outcome) && none_failed(before, after)
}

/// Whether saving was refused since a commit's name is taken.
fn is_taken(outcome: &Result<LineReply, Failure>) -> bool
    ensures { IsTrue result ↔ IsCommitTaken outcome.now }
{
    match outcome {
        Err(
            Failure::Saving(
                SaveFault::NotSaved {
                    name,
                    reason: Reason::Taken,
                },
            ),
        ) => is_commit(name.as_bytes()),
        _ => false,
    }
}

/// Whether no memory was left to load the table.
fn has_no_room(outcome: &Result<LineReply, Failure>) -> bool
    ensures { IsTrue result ↔ IsErrAnd outcome.now (λ failure. failure ≡ Failure.Loading LoadFault.Memory) }
{
    matches!(outcome, Err(Failure::Loading(LoadFault::Memory)))
}

/// Whether the table isn't loaded.
fn is_unloaded(outcome: &Result<LineReply, Failure>) -> bool
    ensures { IsTrue result ↔ IsErrAnd outcome.now (λ failure. IsLoading failure) }
{
    matches!(outcome, Err(Failure::Loading(_)))
}

/// Whether no call of a folder failed between two counts of its faults. The greatest count stays as it is, and tells
/// nothing.
fn none_failed(before: u64, after: u64) -> bool
    ensures same { result ≡ true → after ≡ before }
    ensures none { result ≡ true → HasRisen before after → ⊥ }
    ensures failed { result ≡ false → after ≡ before → HasRisen before after }
{
    after == before && before < u64::MAX
}

/// How many versions a job tries at most; one that puts no commit of a stream tries none, and is taken to try one.
fn tries_of(job: &Job<'_>) -> u64
    ensures some { 1 ≤ result }
    ensures same { result ≡ tries_in (work_view job.now) }
{
    match job {
        Job::Append { tries, .. } | Job::Close { tries, .. } => (*tries).max(1),
        _ => 1,
    }
}

/// How many rows a line has, whose texts are at hand.
fn count_rows(line: &JobLine<'_>) -> u64
    ensures { result ≡ rows_at_hand line.now }
{
    match line {
        JobLine::Job(
            lake_script::Job::Append {
                rows: JsonRows::Texts(texts),
                ..
            },
        ) => texts.len() as u64,
        _ => 0,
    }
}

/// The text that a job reads to its end: that of an append's rows, once its moment is one that a commit may have.
/// Another job leaves the input alone.
fn text_for<R: Read>(alloc: Global, job: &Job<'_>, input: &mut Input<R>) -> Result<Vec<u8>, Failure>
    ensures read { IfOk result (λ text. IsInputOf (work_view job.now) (unread R.remaining input.old) text.items) }
    ensures broken { reads_input (work_view job.now) ≡ true → read_failed input.new ≡ true → IsNotRead result }
    ensures too_long { reads_input (work_view job.now) ≡ true
        → IfSome (unread R.remaining input.old) (λ text. MOST_BYTES < length text → IsNotRead result) }
    ensures input_untouched { reads_input (work_view job.now) ≡ false → input.new ≡ input.old }
    ensures not_yet { IsNotYet (work_view job.now) → IsOk result }
    ensures failed { IfErr result (λ failure. IsOfInput failure (work_view job.now) (unread R.remaining input.old)
        (read_failed input.new)) }
{
    match job {
        Job::Append { at, .. } => {
            moment(*at)?;
            Ok(input.read_to_end(alloc)?)
        }
        _ => Ok(Vec::new(alloc)),
    }
}

/// The line of a script that asks for the same, of an append with the rows of this text, or `None` for what isn't there
/// yet. Takes time linear in the text.
fn line_for<'a>(alloc: Global, job: Job<'a>, text: &'a [u8]) -> Result<Option<JobLine<'a>>, Failure>
    ensures asked { (known : Option (List ℕ)) → IsInputOf (work_view job.entry) known text.now
        → IfOk result (λ found. IfSome found (λ line. IsAskedBy (work_view job.entry) known (line_view line))) }
    ensures timely { IfOk result (λ found. IfSome found (λ line. IsTimely (line_view line))) }
    ensures rows { (known : Option (List ℕ)) → IsInputOf (work_view job.entry) known text.now
        → IfOk result (λ found. IfSome found (λ line. IsRowCount (work_view job.entry) known (rows_at_hand line))) }
    ensures not_yet { IsNotYet (work_view job.entry) → result ≡ Ok None }
    ensures later { result ≡ Ok None → IsNotYet (work_view job.entry) }
    ensures failed { (known : Option (List ℕ)) (is_broken : Bool) → IsInputOf (work_view job.entry) known text.now
        → IfErr result (λ failure. IsOfInput failure (work_view job.entry) known is_broken) }
{
    let line = match job {
        Job::Create { id, schema, at } => JobLine::Create {
            id,
            at: moment(at)?,
            schema,
        },
        Job::Append {
            application,
            number,
            at,
            rows,
            ..
        } => {
            let at = moment(at)?;
            let texts = objects_in(alloc, text)?;
            counted(rows, texts.len() as u64)?;
            JobLine::Job(lake_script::Job::Append {
                application,
                number,
                at,
                rows: JsonRows::Texts(texts),
            })
        }
        Job::Tail { max, offset } => JobLine::Job(lake_script::Job::Tail {
            max,
            offset: offset_named(offset),
        }),
        Job::Checkpoint => JobLine::Job(lake_script::Job::Checkpoint),
        Job::Snapshot => JobLine::Snapshot,
        Job::History => JobLine::History,
        Job::Close {
            application,
            at,
            ..
        } => JobLine::Job(lake_script::Job::Close {
            application,
            at: moment(at)?,
        }),
        Job::Load { .. } => return Ok(None),
    };
    Ok(Some(line))
}

/// The text of the offset that a word names: `start` that of a table's first row, and each other word the text that it is.
fn offset_named(word: &str) -> &str
    ensures { result.now ≡ offset_named word.now }
{
    if word == "start" {
        return r#"{"file":0,"row":0,"version":0}"#;
    }
    word
}

/// Refuses a count of rows that isn't the one that was said.
fn counted(said: Option<u64>, found: u64) -> Result<(), Failure>
    ensures same { IfOk result (λ _. IfSome said (λ rows. found ≡ rows)) }
    ensures failed { IfErr result (λ failure. IsSomeAnd said (λ rows. (failure ≡ Failure.Miscounted rows found) × (found ≢ rows))) }
{
    match said {
        Some(rows) if rows != found => Err(Failure::Miscounted { rows, found }),
        _ => Ok(()),
    }
}

/// A moment that a commit may have.
fn moment(at: u64) -> Result<u64, Failure>
    ensures same { IfOk result (λ moment. (moment ≡ at) × (moment < 2 ^ 63)) }
    ensures failed { IfErr result (λ failure. (failure ≡ Failure.Misused) × (999_999_999_999_999 < at)) }
{
    if at > LAST_MOMENT {
        return Err(Failure::Misused);
    }
    Ok(at)
}
