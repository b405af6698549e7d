//! A job over a folder, as its session: what it puts is to be saved behind it.
ghost use Rattle.std.specs.Prelude.{List, IfOk, MatchResult};
ghost use Rattle.store_core.specs.Memory.{stored_objects};
ghost use Rattle.table_folder.specs.Traces.{FolderCall, MakeNone, Traced};
ghost use Rattle.table_jobs.specs.Done.{IsJobDone};
ghost use Rattle.table_jobs.specs.Sessions.{end_view};
ghost use Rattle.table_jobs.specs.Views.{job_view};
ghost use Rattle.folder_session.specs.Beside.{AreApart, with_beside};
ghost use Rattle.folder_session.specs.Looking.{OnlyLooks};
ghost use Rattle.folder_session.specs.Runs.{RanBeside};

use crate::beside::{Beside, drive_beside};
use std::alloc::Global;
use table_folder::{Folder, LoadFault};
use table_jobs::{Job, JobEnd, JobSession};

/// Does a job over a folder. Where nothing else changes the folder, what it tells and puts is what its rules say over a
/// store that has the folder's objects. The folder is listed, and just those files are opened that the session asks for,
/// or that stand under a name that it puts: for a creation what stands under the name of version 0; else the newest
/// checkpoint, where these are used, the commits behind it, of a read its data files, and what stands under the names
/// that are put. Fails where a call of the folder fails; the folder isn't written to.
pub fn run<F: Folder>(
    alloc: Global,
    folder: &mut F,
    job: Job<'_>,
) -> Result<Beside<JobEnd>, LoadFault>
    ensures done { F.is_steady folder.old → IfOk result (λ ended. IsJobDone (job_view job.entry)
        (F.objects folder.old) (with_beside (F.objects folder.old) (stored_objects ended.added)) (end_view ended.outcome)) }
    ensures apart { F.is_steady folder.old → IfOk result (λ ended. AreApart (F.objects folder.old) (stored_objects ended.added)) }
    // Over any folder, whoever else writes into it, its session told this behind a talk in which it asked for just what
    // this job asks for and was told what the folder's calls told, and what it put is what it was told to have created.
    // Where it fails, the folder's calls made no file.
    ensures driven { MatchResult result
        (λ ended. (calls : List FolderCall) × Traced F.makes folder.old calls folder.new
        × RanBeside (job_view job.entry) (end_view ended.outcome) (stored_objects ended.added) calls)
        (λ _. (calls : List FolderCall) × Traced F.makes folder.old calls folder.new × MakeNone calls) }
    ensures over { OnlyLooks F.objects F.is_steady F.is_reliable F.fault_count folder.old folder.new result }
{
    let mut session = JobSession::new(alloc, job);
    drive_beside(alloc, folder, &mut session)
}
