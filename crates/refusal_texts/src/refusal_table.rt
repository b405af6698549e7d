//! The refusals: what is told of a command or a line by itself.
ghost use Rattle.std.specs.Prelude.{◌≡◌, map};
ghost use Rattle.refusal_texts.specs.Codes.{refusal_codes};

use crate::{Again, Refusal};

/// The refusals by letter and number, each code once: E of a creation, S of a batch or a close, O of a read, K of a
/// checkpoint, Q and N of other lines, St of a store, F of the program itself. K1 to K4 are faults of a checkpoint.
pub fn refusals() -> &'static [Refusal]
    ensures { map (λ refusal. refusal.code.now) result.now ≡ refusal_codes }
{
    &REFUSALS
}

static REFUSALS: [Refusal; 48] = [
    Refusal {
        code: "E1",
        name: "TableExists",
        meaning: "a table stands in DIR already, and it was left alone",
        again: Again::Never,
    },
    Refusal {
        code: "E2",
        name: "BadSchema",
        meaning: "the schema's text can't be read; the first thing that is wrong with it follows",
        again: Again::Never,
    },
    Refusal {
        code: "E3",
        name: "BadId",
        meaning: "the id is no UUID; `uuidgen` makes one",
        again: Again::Never,
    },
    Refusal {
        code: "E4",
        name: "Memory",
        meaning: "memory ran out, and nothing was put",
        again: Again::Always,
    },
    Refusal {
        code: "E5",
        name: "Lost",
        meaning: "the store lost the put, so a table may stand now, or later, or never; E1 then tells that one does",
        again: Again::Always,
    },
    Refusal {
        code: "E6",
        name: "TooLarge",
        meaning: "the table's first commit would pass 64 MiB; make the schema or its texts shorter",
        again: Again::Never,
    },
    Refusal {
        code: "S1",
        name: "Stale",
        meaning: "the number is below the application's last one, which follows; go on with a number above that",
        again: Again::Never,
    },
    Refusal {
        code: "S2",
        name: "StreamClosed",
        meaning: "the number is new, and the application's stream is closed",
        again: Again::Never,
    },
    Refusal {
        code: "S3",
        name: "Differs",
        meaning: "other rows stand under this number, or the file that follows can't be read or isn't there",
        again: Again::Never,
    },
    Refusal {
        code: "S4",
        name: "Contended",
        meaning: "other writers took each version that was tried, the last of which follows; more tries may help",
        again: Again::Always,
    },
    Refusal {
        code: "S5",
        name: "Lost",
        meaning: "the store lost a call: what was asked for may stand, or may later; the next answer tells",
        again: Again::Always,
    },
    Refusal {
        code: "S6",
        name: "Memory",
        meaning: "memory ran out; a data file that stands without a commit counts for nothing",
        again: Again::Always,
    },
    Refusal {
        code: "S7",
        name: "BadRow",
        meaning: "a row isn't one of the table's: its place, counted from 0, and its fault follow; nothing was put",
        again: Again::Never,
    },
    Refusal {
        code: "S8",
        name: "TooLarge",
        meaning: "a number or version is above 999,999,999,999, there are over 65,536 rows, or the file passes 64 MiB",
        again: Again::Never,
    },
    Refusal {
        code: "S9",
        name: "BadLog",
        meaning: "the commit of the version that follows is missing or can't be read; 0 also where no table stands in DIR",
        again: Again::After("the table is created or the commit is put back"),
    },
    Refusal {
        code: "S10",
        name: "ReadOnly",
        meaning: "this program doesn't write the table, for the feature or the reason that follows",
        again: Again::Never,
    },
    Refusal {
        code: "S11",
        name: "BadApp",
        meaning: "the application's id has no bytes or more than 64",
        again: Again::Never,
    },
    Refusal {
        code: "S12",
        name: "SchemaChanged",
        meaning: "another writer's commit, of the version that follows, has changed the table's schema meanwhile",
        again: Again::After("a look at the new schema, which the rows have to fit"),
    },
    Refusal {
        code: "O1",
        name: "VersionGone",
        meaning: "the offset is in front of a version that is missing; read from the start of the version that follows",
        again: Again::Never,
    },
    Refusal {
        code: "O2",
        name: "BeyondLog",
        meaning: "the offset is past the log, whose next version follows; look where the offset comes from",
        again: Again::Never,
    },
    Refusal {
        code: "O3",
        name: "RowsRemoved",
        meaning: "the commit of the version that follows takes rows away; read on from the next version",
        again: Again::Never,
    },
    Refusal {
        code: "O4",
        name: "SchemaChanged",
        meaning: "the version that follows has another schema; read on from the start of that version",
        again: Again::Never,
    },
    Refusal {
        code: "O5",
        name: "BadFile",
        meaning: "a data file can't be read; its version, its place there, counted from 0, and its fault follow",
        again: Again::After("the file can be read"),
    },
    Refusal {
        code: "O6",
        name: "MissingFile",
        meaning: "a data file of the log, whose path follows, isn't there",
        again: Again::After("the file is put back"),
    },
    Refusal {
        code: "O7",
        name: "BadOffsetText",
        meaning: "the text is no offset; take the one behind `next`, or at first {\"file\":0,\"row\":0,\"version\":0}",
        again: Again::Never,
    },
    Refusal {
        code: "O8",
        name: "Lost",
        meaning: "the store lost a call; the offset that was handed in still stands",
        again: Again::Always,
    },
    Refusal {
        code: "O9",
        name: "Memory",
        meaning: "memory ran out; the offset that was handed in still stands",
        again: Again::Always,
    },
    Refusal {
        code: "O10",
        name: "BadPlace",
        meaning: "the version that follows has no such file, or its file no such row; look where the offset comes from",
        again: Again::Never,
    },
    Refusal {
        code: "O11",
        name: "Unsupported",
        meaning: "this program doesn't read the table, for the reason that follows",
        again: Again::Never,
    },
    Refusal {
        code: "O12",
        name: "BadLog",
        meaning: "the commit of the version that follows can't be read; 0 also where no table stands in DIR",
        again: Again::After("the table is created or the commit is put back"),
    },
    Refusal {
        code: "K1",
        name: "NoCheckpointMetadata",
        meaning: "no line of the checkpoint tells its version",
        again: Again::Never,
    },
    Refusal {
        code: "K2",
        name: "VersionMismatch",
        meaning: "the checkpoint tells another version, which follows",
        again: Again::Never,
    },
    Refusal {
        code: "K3",
        name: "HasSidecar",
        meaning: "the checkpoint refers to a sidecar, which isn't read here",
        again: Again::Never,
    },
    Refusal {
        code: "K4",
        name: "BadLine",
        meaning: "a line of the checkpoint can't be read; its fault follows",
        again: Again::Never,
    },
    Refusal {
        code: "K5",
        name: "Lost",
        meaning: "the store lost a call; a checkpoint that was asked for may stand, or may later",
        again: Again::Always,
    },
    Refusal {
        code: "K6",
        name: "Memory",
        meaning: "memory ran out, and nothing was put",
        again: Again::Always,
    },
    Refusal {
        code: "K7",
        name: "BadLog",
        meaning: "the commit of the version that follows is missing or can't be read; 0 also where no table stands in DIR",
        again: Again::After("the table is created or the commit is put back"),
    },
    Refusal {
        code: "K8",
        name: "Unsupported",
        meaning: "this program doesn't read the table, or may put no checkpoint there, for the reason that follows",
        again: Again::Never,
    },
    Refusal {
        code: "K9",
        name: "TooLarge",
        meaning: "the checkpoint would pass 64 MiB",
        again: Again::Never,
    },
    Refusal {
        code: "Q1",
        name: "NoSuchName",
        meaning: "no commit has this version, no object this name, or no put in flight this number",
        again: Again::After("what is named is there"),
    },
    Refusal {
        code: "Q2",
        name: "NoActor",
        meaning: "no actor of this name was started, or its session has ended",
        again: Again::After("the actor is started"),
    },
    Refusal {
        code: "N1",
        name: "NotYet",
        meaning: "this program doesn't have the command yet",
        again: Again::Never,
    },
    Refusal {
        code: "St1",
        name: "Lost",
        meaning: "the store lost a call; if it was a put, it may have taken effect, or may later, or never",
        again: Again::Always,
    },
    Refusal {
        code: "St2",
        name: "Memory",
        meaning: "memory ran out, and the store is as it was",
        again: Again::Always,
    },
    Refusal {
        code: "F1",
        name: "NotLoaded",
        meaning: "the folder or the file that follows isn't there or can't be read, or memory ran out; nothing was put",
        again: Again::After("the folder is made, or the file can be read"),
    },
    Refusal {
        code: "F2",
        name: "NotSaved",
        meaning: "the file that follows wasn't saved, or the disk failed behind it; DIR has what it had, or what was put",
        again: Again::Always,
    },
    Refusal {
        code: "F3",
        name: "NotRead",
        meaning: "standard input can't be read, is over 1 GiB or 1,048,576 reads, or memory ran out; nothing was run",
        again: Again::After("the input can be read and is within these bounds"),
    },
    Refusal {
        code: "F4",
        name: "NotWritten",
        meaning: "standard output can't be written, or memory ran out; what was put in DIR stands",
        again: Again::Always,
    },
];
