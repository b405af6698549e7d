//! The session that does a job.
ghost use Rattle.std.specs.Prelude.{◌≡◌, ◌<◌, [], None, false, map};
ghost use Rattle.store_core.specs.Objects.{Objects};
ghost use Rattle.log_offsets.specs.Offsets.{offset_view};
ghost use Rattle.log_reading.specs.LogCache.{IsCacheOf};
ghost use Rattle.log_reading.specs.Logs.{version_of};
ghost use Rattle.table_log.specs.LoadSessions as loads;
ghost use Rattle.table_log.specs.LoadSessions.{LoadFits, load_job};
ghost use Rattle.table_log.specs.Loads.{IsFront};
ghost use Rattle.table_log.specs.declared.load_session.LoadStage.TheVariants as load_stages;
ghost use Rattle.sink_core.specs.SinkFits.{SinkFits};
ghost use Rattle.sink_core.specs.SinkSessions as sinks;
ghost use Rattle.sink_core.specs.declared.sink_state.SinkStage.TheVariants as sink_stages;
ghost use Rattle.source_core.specs.SourceSessions as sources;
ghost use Rattle.source_core.specs.SourceSessions.{SourceFits};
ghost use Rattle.source_core.specs.declared.source_session.SourceStage.TheVariants as source_stages;
ghost use Rattle.session_core.specs.Talks.{Bears, Talk};
ghost use Rattle.table_jobs.specs.Jobs.{CanBegin, IsValidJob, streams};
ghost use Rattle.table_jobs.specs.Sessions.{SessionFits, awaited, is_ended, job_of};
ghost use Rattle.table_jobs.specs.Views.{KeepsRest, job_view, known_load, stream_view, with_known, without_load};

use crate::job::{Creation, Job, StreamJob};
use crate::job_session::JobSession;
use commit_core::CreateSession;
use log_reading::{Log, LogCache};
use sink_core::{Prepared, SinkSession, SinkTask};
use snapshot_core::CheckpointSession;
use source_core::{Offset, SourceSession};
use std::alloc::Global;
use std::mem;
use table_log::{LoadSession, Loaded};

impl<'r> JobSession<'r> {
    /// The session that does a job. It has asked for nothing yet, and knows nothing of the log from before.
    pub fn new(alloc: Global, job: Job<'r>) -> JobSession<'r>
        ensures job { job_of result ≡ job_view job.entry }
        ensures new { awaited result ≡ None }
        ensures unended { is_ended result ≡ false }
        ensures fits { (before : Talk) → SessionFits before result [] None }
        // Every job of the code can begin.
        ensures can { CanBegin (job_view job.entry) }
    {
        JobSession::behind(alloc, job, &mut LogCache::new(alloc))
    }

    /// The session that does a job, which has asked for nothing yet. It takes what it needs of what is known of the
    /// log out of the cache: a read what was read, the file and the schema, every other job but a creation what was
    /// loaded.
    pub fn behind(alloc: Global, job: Job<'r>, cache: &mut LogCache) -> JobSession<'r>
        ensures job { job_of result ≡ with_known cache.old (job_view job.entry) }
        ensures new { awaited result ≡ None }
        ensures unended { is_ended result ≡ false }
        // What was known goes before its talk, in stores of which it is so.
        ensures fits { (before : Talk) → ((objects : Objects) → Bears objects before → IsCacheOf objects cache.old) → SessionFits before result [] None }
        ensures valid { IsValidJob (job_view job.entry) }
        // What it doesn't need stays in the cache; what is there is so where it was.
        ensures rest { KeepsRest (job_view job.entry) cache.old cache.new }
        ensures cache { (objects : Objects) → IsCacheOf objects cache.old → IsCacheOf objects cache.new }
    {
        match job {
            Job::Create(Creation { id, at, schema }) => {
                JobSession::Create(CreateSession::new(alloc, id, at, schema))
            }
            Job::Load { use_checkpoints } => {
                JobSession::Load(load_session(alloc, use_checkpoints, cache))
            }
            Job::Checkpoint { use_checkpoints } => {
                let known = take_loaded(alloc, cache);
                JobSession::Checkpoint(CheckpointSession::new(alloc, use_checkpoints, known))
            }
            Job::Stream(job) => JobSession::Stream(stream_session(alloc, job, cache)),
            Job::Read {
                place,
                max,
                use_checkpoints,
            } => JobSession::Read(read_session(alloc, place, max, use_checkpoints, cache)),
        }
    }

    /// The session of an append or a close that goes on from what is known of the log, of one version at least. It
    /// lists no names and loads nothing: what stands behind what is known it meets as winners, each of which costs a
    /// try. The file of an append may have been prepared before; a close has none.
    pub fn going_on(
        alloc: Global,
        job: StreamJob<'r>,
        known: Loaded,
        file: Option<Prepared>,
    ) -> JobSession<'r>
        requires some { 0 < known.next }
        ensures job { job_of result ≡ streams (without_load known (stream_view job.entry)) }
        ensures new { awaited result ≡ None }
        ensures unended { is_ended result ≡ false }
        // What was known goes before its talk, in stores of which it is so.
        ensures fits { (before : Talk) → ((objects : Objects) → Bears objects before → IsFront objects known) → SessionFits before result [] None }
        ensures valid { IsValidJob (job_of result) }
    {
        let mut cache = LogCache::new(alloc);
        cache.loaded = known;
        let session = stream_session(alloc, job, &mut cache).without_load();
        JobSession::Stream(match file {
            Some(file) => session.with_file(file),
            None => session,
        })
    }
}

/// Takes what was loaded out of what is known.
fn take_loaded(alloc: Global, cache: &mut LogCache) -> Loaded
    ensures loaded { result ≡ cache.old.loaded }
    ensures cache { (objects : Objects) → IsCacheOf objects cache.old → IsCacheOf objects cache.new }
    ensures rest { (cache.new.log ≡ cache.old.log) × (cache.new.file ≡ cache.old.file) × (cache.new.schema ≡ cache.old.schema) }
{
    mem::replace(&mut cache.loaded, Loaded::new(alloc))
}

/// The session of a load, which takes what was loaded out of what is known.
fn load_session(alloc: Global, use_checkpoints: bool, cache: &mut LogCache) -> LoadSession
    ensures job { loads.job_of result ≡ load_job use_checkpoints cache.old.loaded }
    ensures stage { result.stage ≡ load_stages.New }
    ensures known { result.known ≡ cache.old.loaded }
    ensures fits { (before : Talk) → ((objects : Objects) → Bears objects before → IsFront objects cache.old.loaded) → LoadFits before result [] None }
    ensures rest { (cache.new.log ≡ cache.old.log) × (cache.new.file ≡ cache.old.file) × (cache.new.schema ≡ cache.old.schema) }
    ensures cache { (objects : Objects) → IsCacheOf objects cache.old → IsCacheOf objects cache.new }
{
    let known = take_loaded(alloc, cache);
    LoadSession::new(alloc, use_checkpoints, known)
}

/// The session of a read, which takes what was read, the file and the schema out of what is known.
fn read_session(
    alloc: Global,
    place: Offset,
    max: u64,
    use_checkpoints: bool,
    cache: &mut LogCache,
) -> SourceSession
    ensures job { sources.job_of result ≡ record { place = offset_view place; max = max; use_checkpoints = use_checkpoints; known = map version_of cache.old.log.standing.items } }
    ensures stage { result.stage ≡ source_stages.New }
    ensures fits { (before : Talk) → ((objects : Objects) → Bears objects before → IsCacheOf objects cache.old) → SourceFits before result [] None }
    ensures rest { cache.new.loaded ≡ cache.old.loaded }
    ensures cache { (objects : Objects) → IsCacheOf objects cache.old → IsCacheOf objects cache.new }
{
    let known = mem::replace(&mut cache.log, Log::new(alloc));
    let file = cache.file.take();
    let schema = cache.schema.take();
    SourceSession::read(alloc, place, max, use_checkpoints, known, file, schema)
}

/// The session of an append or a close, which takes what was loaded out of what is known.
fn stream_session<'r>(alloc: Global, job: StreamJob<'r>, cache: &mut LogCache) -> SinkSession<'r>
    ensures job { sinks.job_of result ≡ record (stream_view job.entry) { load = known_load cache.old.loaded (stream_view job.entry).load } }
    ensures stage { result.stage ≡ sink_stages.Loading }
    ensures load { result.load.stage ≡ load_stages.New }
    ensures fits { (before : Talk) → ((objects : Objects) → Bears objects before → IsFront objects cache.old.loaded) → SinkFits before result [] None }
    ensures valid { IsValidJob (streams (stream_view job.entry)) }
    ensures rest { (cache.new.log ≡ cache.old.log) × (cache.new.file ≡ cache.old.file) × (cache.new.schema ≡ cache.old.schema) }
    ensures cache { (objects : Objects) → IsCacheOf objects cache.old → IsCacheOf objects cache.new }
{
    let known = take_loaded(alloc, cache);
    let StreamJob {
        application,
        task,
        at,
        tries,
        use_checkpoints,
    } = job;
    match task {
        SinkTask::Append { number, rows } => SinkSession::append(
            alloc,
            application,
            number,
            rows,
            at,
            tries,
            use_checkpoints,
            known,
        ),
        SinkTask::Close => {
            SinkSession::close(alloc, application, at, tries, use_checkpoints, known)
        }
    }
}
