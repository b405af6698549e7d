//! The engine of `script`: it answers the lines of a text over a store, one by one.
ghost use Rattle.std.specs.Prelude.{◌≡◌, ◌≤◌, ◌^◌, length};
ghost use Rattle.lake_script.specs.Streams.{held};
ghost use Rattle.lake_script.specs.TextRuns.{EndsText, IsTextRun};
ghost use Rattle.lake_script.specs.Told.{fell_short};
ghost use Rattle.lake_script.specs.Ended.{end_of_script, short_of};

use crate::interpreter::answer_lines;
use crate::outputs::{Output, OutputError};
use crate::over_store::{OverStore, TRIES};
use log_reading::LogCache;
use std::alloc::Global;
use std::io::Write;
use store_core::Store;

/// How a run ended.
#[derive(Clone, Copy)]
pub enum End {
    /// Each line was answered.
    Done,
    /// The line of this number, counted from 1, is no line of a script. The lines before it were
    /// answered.
    BadLine(u64),
    /// The input was not read to its end. No line was run, and nothing was written.
    NotRead,
    /// A reply could not be given. What was written stands.
    NotWritten,
}

/// What a run tells when it has ended.
#[derive(Clone, Copy)]
pub struct Outcome {
    pub end: End,
    is_short: bool,
}

impl Outcome {
    /// A run that ended so, and whether a growth was refused on the way or an object would have passed 64 MiB.
    pub fn new(end: End, is_short: bool) -> Outcome
        ensures end { result.end ≡ end }
        ensures short { fell_short result ≡ is_short }
    {
        Outcome { end, is_short }
    }

    /// A run whose lines came to this, and whether one of their replies was short.
    pub fn of(ended: Result<Option<u64>, OutputError>, is_short: bool) -> Outcome
        ensures end { result.end ≡ end_of_script ended }
        ensures short { fell_short result ≡ short_of ended is_short }
    {
        match ended {
            Ok(None) => Outcome {
                end: End::Done,
                is_short,
            },
            Ok(Some(number)) => Outcome {
                end: End::BadLine(number),
                is_short,
            },
            Err(OutputError::Broken) => Outcome {
                end: End::NotWritten,
                is_short,
            },
            Err(OutputError::Memory) => Outcome {
                end: End::NotWritten,
                is_short: true,
            },
        }
    }

    /// Whether a growth was refused on the way, or a commit, a data file or a checkpoint would have
    /// passed 64 MiB. A run that ends by itself may have met one: its lines that did are told so.
    pub fn is_short(&self) -> bool
        ensures { result ≡ fell_short self.now }
    {
        self.is_short
    }
}

/// Runs a script that is given as text, of at most 1 GiB, over a store: answers each of its lines, up
/// to the first bad one, and writes what waits then. It never ends as [`End::NotRead`]. With `use_checkpoints`
/// appends, reads, checkpoints and snapshots go by the log's checkpoints, and otherwise by its commits
/// alone, from version 0.
///
/// Time is linear in the text, the objects that are put, compared and shown and the data files that
/// rows are handed out of, and for each line that reads the log in the names of the store, the actions
/// of the log and the bytes of the checkpoint and the commits that are read, but for the store's own.
/// Without `use_checkpoints`, or where no object has a checkpoint's name, appends read a commit once, and so do
/// reads, until a line puts something else than a batch or a read of the log fails. Many replies go in
/// one write.
pub fn run_text<S: Store, W: Write>(
    alloc: Global,
    text: &[u8],
    store: &mut S,
    output: &mut Output<W>,
    use_checkpoints: bool,
) -> Outcome
    requires { length text.now ≤ 2 ^ 30 }
    // Over a store that loses no call: what is told and left, where the run finishes and memory suffices, where a growth
    // was refused, and where a reply can't be given; by the plain table, where the store keeps one; and that the store
    // stays sound, however the run ends.
    ensures runs { S.is_reliable store.old → IsTextRun use_checkpoints text.now result (held W.contents output.old) (W.contents output.new.writer) (S.objects store.old) (S.objects store.new) }
    ensures reliable { S.is_reliable store.old → S.is_reliable store.new }
    // Over any store, one that loses calls too: which bad line it ends at, and how it leaves the output.
    ensures ends { EndsText W.contents text.now result output.old output.new }
{
    let mut is_short = false;
    let mut cache = LogCache::new(alloc);
    let mut over = OverStore {
        store,
        tries: TRIES,
        use_checkpoints,
        cache: &mut cache,
    };
    let ended = answer_lines(alloc, text, &mut over, output, &mut is_short);
    Outcome::of(ended, is_short)
}
