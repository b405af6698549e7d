//! A seat with the receipts that it was given.

ghost use Rattle.std.specs.Prelude.{IfOk};
ghost use Rattle.log_hub.specs.Finishing.{AreInLog};
ghost use Rattle.log_hub.specs.Seats.{log_seen};
ghost use Rattle.lake_workers.specs.Following.{IsKnownAt};
ghost use Rattle.lake_workers.specs.Reading.{IsLogKnownAt};

use crate::names::is_beside;
use lake_workers::{Driven, Prepared, StreamEnd, drive_with, run_read, run_stream};
use log_hub::{Hub, Naming, Receipt, Seat, the_log_of_a_seat_only_grows};
use log_reading::LogCache;
use session_core::Request;
use sink_core::{SinkFault, SinkOutcome};
use source_core::{Offset, ReadRows, TailFault};
use std::alloc::{AllocError, Global};
use std::sync::Wait;
use store_core::{Names, Put};
use table_jobs::{Job, JobEnd, JobSession, StreamJob};
use table_log::Loaded;

/// A seat, and the receipts that it was given: the commit of each stands in the log that the seat has seen.
#[derive(Drop)]
pub struct Holder<J: Naming> {
    alloc: Global,
    pub seat: Seat<J>,
    receipts: Vec<Receipt>,
    ghost shown: { AreInLog receipts.items (log_seen seat) },
}

impl<J: Naming> Holder<J> {
    /// A seat that was given no receipt.
    pub fn new(alloc: Global, seat: Seat<J>) -> Holder<J> {
        Holder::of_parts(alloc, seat, Vec::new(alloc))
    }

    /// A seat that was given these receipts.
    pub fn of_parts(alloc: Global, seat: Seat<J>, receipts: Vec<Receipt>) -> Holder<J>
        requires { AreInLog receipts.items (log_seen seat) }
    {
        Holder {
            alloc,
            seat,
            receipts,
        }
    }

    /// The seat and its receipts.
    pub fn into_parts(self) -> (Seat<J>, Vec<Receipt>)
        ensures { AreInLog result.1.items (log_seen result.0) }
    {
        let Holder {
            alloc: _,
            seat,
            receipts,
        } = self;
        (seat, receipts)
    }

    /// How many commits the seat has seen.
    pub fn version(&self) -> u64 {
        self.seat.version()
    }

    /// All names that stand.
    pub fn list<R: Wait>(&mut self, rt: &R, hub: &Hub<J>) -> Result<Names, AllocError> {
        the_log_of_a_seat_only_grows();
        hub.list(rt, &mut self.seat)
    }

    /// What stands under a name.
    pub fn get<R: Wait>(
        &mut self,
        rt: &R,
        hub: &Hub<J>,
        name: &str,
    ) -> Result<Option<Vec<u8>>, AllocError> {
        the_log_of_a_seat_only_grows();
        hub.get(rt, &mut self.seat, name)
    }

    /// The commit right behind the log that the seat has seen.
    pub fn read<R: Wait>(&mut self, rt: &R, hub: &Hub<J>) -> Result<Option<Vec<u8>>, AllocError> {
        the_log_of_a_seat_only_grows();
        hub.read_at(rt, &mut self.seat)
    }

    /// Puts an object whose name is neither a commit's nor a checkpoint's, unless it stands. `None` for another name.
    pub fn put_file<R: Wait>(
        &mut self,
        rt: &R,
        hub: &Hub<J>,
        name: &str,
        bytes: Vec<u8>,
    ) -> Result<Option<Put>, AllocError> {
        the_log_of_a_seat_only_grows();
        if !is_beside(self.alloc, name)? {
            return Ok(None);
        }
        Ok(Some(hub.put_file(rt, &mut self.seat, name, bytes)?))
    }

    /// Drives the session of a job, and keeps the receipt that it is given. What it told, and the receipt's version.
    pub fn drive<R: Wait>(
        &mut self,
        rt: &R,
        hub: &Hub<J>,
        job: Job<'_>,
    ) -> Result<(JobEnd, Option<u64>), AllocError> {
        self.drive_amid(rt, hub, job, |_request| {})
    }

    /// The same, but that something is done in front of each of its calls, which is shown.
    pub fn drive_amid<R: Wait, F: FnMut(&Request)>(
        &mut self,
        rt: &R,
        hub: &Hub<J>,
        job: Job<'_>,
        between: F,
    ) -> Result<(JobEnd, Option<u64>), AllocError>
        requires { F.IsAlwaysCallable between }
    {
        let mut session = JobSession::new(self.alloc, job);
        let Driven { end, receipt } = drive_with(
            self.alloc,
            rt,
            hub,
            &mut self.seat,
            &mut session,
            between,
        );
        match receipt {
            Some(receipt) => {
                let version = receipt.version;
                self.receipts.push(receipt)?;
                Ok((end, Some(version)))
            }
            None => Ok((end, None)),
        }
    }

    /// Runs a stream's job by what is known of the log, and keeps the receipt that it is given. What it told, and the
    /// receipt's version.
    pub fn work<R: Wait>(
        &mut self,
        rt: &R,
        hub: &Hub<J>,
        known: &mut Loaded,
        job: StreamJob<'_>,
        file: Option<Prepared>,
    ) -> Result<(Result<SinkOutcome, SinkFault>, Option<u64>), AllocError>
        requires { IsKnownAt self.old.seat known.old }
        ensures { IsKnownAt self.new.seat known.new }
    {
        let StreamEnd { answer, receipt } = run_stream(
            self.alloc,
            rt,
            hub,
            &mut self.seat,
            known,
            job,
            file,
        );
        match receipt {
            Some(receipt) => {
                let version = receipt.version;
                self.receipts.push(receipt)?;
                Ok((answer, Some(version)))
            }
            None => Ok((answer, None)),
        }
    }

    /// Reads at most `max` rows from an offset on, by what is known of the log. What is handed out, or why nothing is.
    pub fn read_rows<R: Wait>(
        &mut self,
        rt: &R,
        hub: &Hub<J>,
        cache: &mut LogCache,
        place: Offset,
        max: u64,
    ) -> Result<ReadRows, TailFault>
        requires { IsLogKnownAt self.old.seat cache.old.log cache.old.file }
        ensures { IsLogKnownAt self.new.seat cache.new.log cache.new.file }
    {
        run_read(self.alloc, rt, hub, &mut self.seat, cache, place, max)
    }
}
