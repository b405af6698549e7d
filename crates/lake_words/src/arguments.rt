//! The arguments of the commands: places and options, with what the help says of them.

/// What an argument takes.
#[derive(Clone, Copy)]
pub(crate) enum Kind {
    /// A place that must be filled.
    Place,
    /// A place that may be left empty.
    OptionalPlace,
    /// A place that must be filled by a number.
    NumberPlace,
    /// `--NAME VALUE`, which must be given. The help calls the value so.
    Text(&'static str),
    /// `--NAME VALUE`, with a default. The help calls the value so.
    TextOr {
        value: &'static str,
        default: &'static str,
    },
    /// `--NAME N`, a number up to this one.
    Number(u64),
    /// `--NAME N`, a number up to this one, which must be given.
    NeededNumber(u64),
    /// `--NAME VALUE`, a number between two bounds, with a default.
    NumberOr {
        value: &'static str,
        least: u64,
        greatest: u64,
        default: &'static str,
    },
    /// `--NAME`.
    Flag,
}

/// A place or an option of the command line.
#[derive(Clone, Copy)]
pub(crate) struct Argument {
    pub name: &'static str,
    pub kind: Kind,
    /// What the help says of it.
    pub help: &'static str,
}

pub(crate) const DIR: Argument = Argument {
    name: "DIR",
    kind: Kind::Place,
    help: "The table's folder",
};

pub(crate) const APP: Argument = Argument {
    name: "APP",
    kind: Kind::Place,
    help: "The application's id, 1 to 64 bytes",
};

pub(crate) const NUMBER: Argument = Argument {
    name: "NUMBER",
    kind: Kind::NumberPlace,
    help: "The batch's number, up to 999,999,999,999",
};

pub(crate) const CODE: Argument = Argument {
    name: "CODE",
    kind: Kind::OptionalPlace,
    help: "The refusal's code, as S3 or s3, or the whole line of a reply that tells it; without it all are told",
};

pub(crate) const ID: Argument = Argument {
    name: "id",
    kind: Kind::Text("UUID"),
    help: "The table's id, a UUID",
};

pub(crate) const SCHEMA: Argument = Argument {
    name: "schema",
    kind: Kind::Text("TEXT"),
    help: "The table's schema, as JSON (Delta PROTOCOL.md, \"Schema Serialization Format\")",
};

pub(crate) const FROM: Argument = Argument {
    name: "from",
    kind: Kind::TextOr {
        value: "OFFSET",
        default: "start",
    },
    help: "The offset of the first row, as JSON; `start` is that of the table's first row",
};

pub(crate) const MAX: Argument = Argument {
    name: "max",
    kind: Kind::NumberOr {
        value: "N",
        least: 0,
        greatest: 65_536,
        default: "65536",
    },
    help: "How many rows are printed at most, up to 65,536",
};

pub(crate) const WORKERS: Argument = Argument {
    name: "workers",
    kind: Kind::NeededNumber(u64::MAX),
    help: "How many batches are put at once",
};

pub(crate) const ROWS: Argument = Argument {
    name: "rows",
    kind: Kind::Number(u64::MAX),
    help: "How many rows the input has: with another count nothing is appended",
};

pub(crate) const AT: Argument = Argument {
    name: "at",
    kind: Kind::NumberOr {
        value: "MS",
        least: 0,
        greatest: 999_999_999_999_999,
        default: "0",
    },
    help: "The moment of the commit, in milliseconds since 1970-01-01; $(date +%s%3N) is now",
};

pub(crate) const TRIES: Argument = Argument {
    name: "tries",
    kind: Kind::NumberOr {
        value: "N",
        least: 1,
        greatest: 64,
        default: "16",
    },
    help: "How often a commit is tried where other writers take its version",
};

pub(crate) const NO_CHECKPOINT: Argument = Argument {
    name: "no-checkpoint",
    kind: Kind::Flag,
    help: "Read the log from version 0, without a checkpoint",
};
