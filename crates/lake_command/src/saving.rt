//! What a line asks for, done on the table in a folder, and what it put saved there.
ghost use Rattle.std.specs.Prelude.{◌≡◌, ◌≤◌, ℕ, List, Some, IfOk, IfErr};
ghost use Rattle.store_core.specs.Objects.{object_at};
ghost use Rattle.table_folder.specs.Traces.{FolderCall, Traced};
ghost use Rattle.table_log.specs.Restoring.{RestoresWell};
ghost use Rattle.script_lines.specs.Lines.{history, look, snapshot, task, tail, IsTimely};
ghost use Rattle.lake_script.specs.ReplyView.{reply_text};
ghost use Rattle.lake_script.specs.Runs.{Executes};
ghost use Rattle.lake_command.specs.Again.{IsRunOf};
ghost use Rattle.lake_command.specs.Failures.{FailureComesOfACall, CountsFolderFault, IsByFolder, IsLoading, IsOfFolder, NamesPut};
ghost use Rattle.lake_command.specs.Folders.{IsPutter, LineMayLeave, line_view};
ghost use Rattle.lake_command.specs.Looks.{Looks, LooksForHistory, LooksForRows, LooksForSnapshot};

use crate::Failure;
use crate::job_line::JobLine;
use crate::putting::{job_of_line, no_room_for};
use folder_session::Beside;
use lake_script::{Job, Line, LineReply, Look, execute, reply_of, reply_of_read};
use log_reading::LogCache;
use std::alloc::Global;
use table_folder::{Folder, load_log, save};

/// Does what a line asks for on the table in a folder, and finds its reply. A job, a creation and a snapshot open just
/// the files that their session asks for; an append and a close try so many versions at most. For a history the files
/// of the folder's log are loaded. The new objects are saved before the reply is told: data files, then commits, then
/// checkpoints. However it ends, what stood stands.
pub(crate) fn execute_in<F: Folder>(
    alloc: Global,
    folder: &mut F,
    line: JobLine<'_>,
    tries: u64,
    use_checkpoints: bool,
) -> Result<LineReply, Failure>
    requires tries { 1 ≤ tries }
    requires timely { IsTimely (line_view line) }
    ensures told { F.is_steady folder.old → RestoresWell use_checkpoints (F.objects folder.old)
        → IfOk result (λ reply. Executes (F.objects folder.old) (line_view line.entry) (reply_text reply) (F.objects folder.new)) }
    ensures puts { F.is_steady folder.old → RestoresWell use_checkpoints (F.objects folder.old)
        → LineMayLeave (F.objects folder.old) (line_view line.entry) (F.objects folder.new) }
    ensures named { F.is_steady folder.old → RestoresWell use_checkpoints (F.objects folder.old)
        → IfErr result (λ failure. NamesPut failure (line_view line.entry) (F.objects folder.old)) }
    ensures alone { F.is_steady folder.old → RestoresWell use_checkpoints (F.objects folder.old)
        → FailureComesOfACall result (F.fault_count folder.old) (F.fault_count folder.new) }
    // Over any folder, whoever else writes into it, what comes of it is what came of a run of this very line, by just
    // these calls of the folder.
    ensures ran { IsPutter (line_view line.entry) → (calls : List FolderCall) × Traced F.makes folder.old calls folder.new
        × IsRunOf use_checkpoints tries (line_view line.entry) result calls }
    ensures read { (IsPutter (line_view line.entry) → ⊥) → IfErr result (λ failure. IsLoading failure) }
    // A line that puts nothing was told what just these calls of the folder looked for.
    ensures looked { (IsPutter (line_view line.entry) → ⊥) → (calls : List FolderCall) × Traced F.makes folder.old calls folder.new
        × Looks use_checkpoints (line_view line.entry) result calls }
    ensures failed { F.is_steady folder.old → IfErr result (λ failure. IsOfFolder failure (F.objects folder.old) (F.objects folder.new)) }
    ensures caused { IfErr result (λ failure. IsByFolder failure) }
    ensures faults { CountsFolderFault result (F.fault_count folder.old) (F.fault_count folder.new) }
    ensures kept { F.is_steady folder.old → (name bytes : List ℕ) → object_at (F.objects folder.old) name ≡ Some bytes
        → object_at (F.objects folder.new) name ≡ Some bytes }
    ensures steady { F.is_steady folder.old → F.is_steady folder.new }
{
    match line {
        JobLine::Job(Job::Tail { max, offset }) => {
            read_in(alloc, folder, max, offset, use_checkpoints)
        }
        JobLine::Snapshot => snapshot_in(alloc, folder, use_checkpoints),
        JobLine::History => history_in(alloc, folder, use_checkpoints),
        JobLine::Create { .. } | JobLine::Job(_) => {
            execute_beside(alloc, folder, line, tries, use_checkpoints)
        }
    }
}

/// Reads from an offset on, and leaves the folder as it was.
fn read_in<F: Folder>(
    alloc: Global,
    folder: &mut F,
    max: u64,
    offset: &str,
    use_checkpoints: bool,
) -> Result<LineReply, Failure>
    ensures told { F.is_steady folder.old → RestoresWell use_checkpoints (F.objects folder.old)
        → IfOk result (λ reply. Executes (F.objects folder.old) (task (tail max offset.now)) (reply_text reply) (F.objects folder.old)) }
    ensures looked { (calls : List FolderCall) × Traced F.makes folder.old calls folder.new × LooksForRows use_checkpoints max offset.now result calls }
    ensures untouched { F.is_steady folder.old → F.objects folder.new ≡ F.objects folder.old }
    ensures caused { IfErr result (λ failure. IsLoading failure) }
    ensures faults { CountsFolderFault result (F.fault_count folder.old) (F.fault_count folder.new) }
    ensures steady { F.is_steady folder.old → F.is_steady folder.new }
{
    let told = folder_session::tail(alloc, folder, max, offset, use_checkpoints)?;
    Ok(reply_of_read(told))
}

/// Tells the snapshot, and leaves the folder as it was.
fn snapshot_in<F: Folder>(
    alloc: Global,
    folder: &mut F,
    use_checkpoints: bool,
) -> Result<LineReply, Failure>
    ensures told { F.is_steady folder.old → RestoresWell use_checkpoints (F.objects folder.old)
        → IfOk result (λ reply. Executes (F.objects folder.old) (look snapshot) (reply_text reply) (F.objects folder.old)) }
    ensures looked { (calls : List FolderCall) × Traced F.makes folder.old calls folder.new × LooksForSnapshot use_checkpoints result calls }
    ensures untouched { F.is_steady folder.old → F.objects folder.new ≡ F.objects folder.old }
    ensures caused { IfErr result (λ failure. IsLoading failure) }
    ensures faults { CountsFolderFault result (F.fault_count folder.old) (F.fault_count folder.new) }
    ensures steady { F.is_steady folder.old → F.is_steady folder.new }
{
    match folder_session::snapshot(alloc, folder, use_checkpoints)? {
        Ok(text) => Ok(LineReply::Bytes(text)),
        Err(fault) => Ok(LineReply::NoSnapshot(fault)),
    }
}

/// Tells what each version holds by the files of the log, and leaves the folder as it was.
fn history_in<F: Folder>(
    alloc: Global,
    folder: &mut F,
    use_checkpoints: bool,
) -> Result<LineReply, Failure>
    ensures told { F.is_steady folder.old → RestoresWell use_checkpoints (F.objects folder.old)
        → IfOk result (λ reply. Executes (F.objects folder.old) (look history) (reply_text reply) (F.objects folder.old)) }
    ensures looked { (calls : List FolderCall) × Traced F.makes folder.old calls folder.new × LooksForHistory result calls }
    ensures untouched { F.is_steady folder.old → F.objects folder.new ≡ F.objects folder.old }
    ensures caused { IfErr result (λ failure. IsLoading failure) }
    ensures faults { CountsFolderFault result (F.fault_count folder.old) (F.fault_count folder.new) }
    ensures steady { F.is_steady folder.old → F.is_steady folder.new }
{
    let mut store = load_log(alloc, folder)?;
    // Jobs alone try versions.
    let mut tries = 1;
    Ok(execute(
        alloc,
        Line::Look(Look::History),
        &mut store,
        &mut tries,
        use_checkpoints,
        &mut LogCache::new(alloc),
    ))
}

/// Does what a line that puts something asks for, as a session of the folder, and saves what it put. The reply is told
/// behind that alone.
fn execute_beside<F: Folder>(
    alloc: Global,
    folder: &mut F,
    line: JobLine<'_>,
    tries: u64,
    use_checkpoints: bool,
) -> Result<LineReply, Failure>
    requires tries { 1 ≤ tries }
    requires puts { IsPutter (line_view line) }
    requires timely { IsTimely (line_view line) }
    ensures told { F.is_steady folder.old → RestoresWell use_checkpoints (F.objects folder.old)
        → IfOk result (λ reply. Executes (F.objects folder.old) (line_view line.entry) (reply_text reply) (F.objects folder.new)) }
    ensures puts { F.is_steady folder.old → RestoresWell use_checkpoints (F.objects folder.old)
        → LineMayLeave (F.objects folder.old) (line_view line.entry) (F.objects folder.new) }
    ensures named { F.is_steady folder.old → RestoresWell use_checkpoints (F.objects folder.old)
        → IfErr result (λ failure. NamesPut failure (line_view line.entry) (F.objects folder.old)) }
    ensures alone { F.is_steady folder.old → RestoresWell use_checkpoints (F.objects folder.old)
        → FailureComesOfACall result (F.fault_count folder.old) (F.fault_count folder.new) }
    // Over any folder, whoever else writes into it, what comes of it is what came of a run of this very line, by just
    // these calls of the folder.
    ensures ran { (calls : List FolderCall) × Traced F.makes folder.old calls folder.new
        × IsRunOf use_checkpoints tries (line_view line.entry) result calls }
    ensures failed { F.is_steady folder.old → IfErr result (λ failure. IsOfFolder failure (F.objects folder.old) (F.objects folder.new)) }
    ensures caused { IfErr result (λ failure. IsByFolder failure) }
    ensures faults { CountsFolderFault result (F.fault_count folder.old) (F.fault_count folder.new) }
    ensures kept { F.is_steady folder.old → (name bytes : List ℕ) → object_at (F.objects folder.old) name ≡ Some bytes
        → object_at (F.objects folder.new) name ≡ Some bytes }
    ensures steady { F.is_steady folder.old → F.is_steady folder.new }
{
    let no_room = no_room_for(&line);
    let found = job_of_line(alloc, line, tries, use_checkpoints);
    let Ok(Some(job)) = found else {
        // A line that puts something is a job, so memory ran out.
        return Ok(no_room);
    };
    let Beside { outcome, mut added } = folder_session::run(alloc, folder, job)?;
    let reply = reply_of(alloc, outcome);
    save(alloc, folder, &mut added, &[])?;
    Ok(reply)
}
