//! The program's subcommands, and what their help says.

use crate::arguments::{
    APP, AT, Argument, CODE, DIR, FROM, ID, MAX, NO_CHECKPOINT, NUMBER, ROWS, SCHEMA, TRIES,
    WORKERS,
};

/// A subcommand.
#[derive(Clone, Copy)]
pub(crate) struct Subcommand {
    pub name: &'static str,
    /// What the list of commands says of it.
    pub about: &'static str,
    pub arguments: &'static [Argument],
}

// What the help of a command on a folder says behind its lists: the command's own text, and where replies go.
macro_rules! help {
    ($text:literal) => {
        concat!(
            $text,
            "\nReplies go to standard output; F1 to F4, which speak of the folder and the streams, and a line \
             that explains each refusal go to standard error."
        )
    };
}

pub(crate) const STATUSES: &str = help!(
    "Exit status: 0 done, 1 refused (the reply says why), 2 words or an input line that can't be read."
);

const CREATE: &str = help!(
    "Creates the table: commit 0 in DIR/_delta_log, which is made where it isn't there. DIR must stand.\n\
     \n\
     Example:\n  \
       mkdir orders\n  \
       lake create orders --id $(uuidgen) --schema \
       '{\"type\":\"struct\",\"fields\":[{\"name\":\"id\",\"type\":\"long\",\"nullable\":false}]}'\n\
     \n\
     Prints: Created 0\n\
     Exit status: 0 created, 1 refused (the reply says why), 2 words that can't be read."
);

const APPEND: &str = help!(
    "Puts the rows on standard input, one JSON object a line, as the batch NUMBER of the application APP.\n\
     A batch that stands already is told as such and not written again, so a job that died may append again.\n\
     Numbers of an application rise; gaps are allowed. A batch has at most 65,536 rows.\n\
     \n\
     Without --rows the input is taken as it is: one that is cut at a line's end is a smaller batch, and an empty\n\
     one is a batch without rows, which uses its number up; the whole batch is then S3 under that number for ever.\n\
     Where a batch without rows stands then, a line `note: ..` on standard error says so.\n\
     With --rows N nothing is appended unless the input has just N rows, so a pipe whose producer died does no harm.\n\
     Without --at the batch states the moment 0, and a tool that drops old applications by `lastUpdated` may\n\
     drop this one.\n\
     \n\
     Example:\n  \
       echo '{\"id\":1}' > batch\n  \
       lake append orders shop-7 0 --rows 1 --at $(date +%s%3N) < batch\n\
     \n\
     Prints: Committed VERSION, or Already NUMBER where the same rows stand under that number\n\
     Exit status: 0 the batch stands, 1 refused (the reply says why), 2 words or a line that can't be read\n  \
       (`bad line N` names the line), or another count of rows than --rows says; nothing was appended then."
);

const CLOSE: &str = help!(
    "Closes the stream of the application APP: no new batch of it is taken any more. What stands stays, and the last\n\
     batch is still told as standing. A stream can't be opened again.\n\
     \n\
     Example:\n  \
       lake close orders shop-7 --at $(date +%s%3N)\n\
     \n\
     Prints: Closed VERSION, or AlreadyClosed where it was closed before\n\
     Exit status: 0 the stream is closed, 1 refused (the reply says why), 2 words that can't be read."
);

const TAIL: &str = help!(
    "Prints the rows from OFFSET on, one JSON object a line, and then `next` and the offset to go on from.\n\
     The first offset of a table is {\"file\":0,\"row\":0,\"version\":0}, or `start`, where a read without --from begins.\n\
     Behind the last of V versions, which `lake check` counts, it is {\"file\":0,\"row\":0,\"version\":V}.\n\
     \n\
     Examples:\n  \
       lake tail orders\n  \
       lake tail orders --from '{\"file\":0,\"row\":2,\"version\":1}' --max 1000\n\
     \n\
     Exit status: 0 done, 1 refused (the offset stays good), 2 words that can't be read."
);

const SNAPSHOT: &str = help!(
    "Prints the table's newest version, protocol and schema, then its applications with their last\n\
     numbers, the applications whose streams are closed, and the files with their sizes in bytes.\n\
     \n\
     Example:\n  \
       lake snapshot orders\n\
     \n\
     Prints, where the batch of append's example stands:\n  \
       version 1\n  \
       protocol 3 7\n  \
       schema {\"fields\":[{\"metadata\":{},\"name\":\"id\",\"nullable\":false,\
       \"type\":\"long\"}],\"type\":\"struct\"}\n  \
       app \"shop-7\" 0\n  \
       file part-73686f702d37-00000000000000000000.parquet 115\n\
     Exit status: 0 done, 1 refused (the reply says why), 2 words that can't be read."
);

const CHECKPOINT: &str = help!(
    "Puts a checkpoint of the newest version, from which later commands read the log.\n\
     \n\
     Example:\n  \
       lake checkpoint orders\n\
     \n\
     Prints: Checkpointed VERSION, also where that checkpoint stands already\n\
     Exit status: 0 the checkpoint stands, 1 refused (the reply says why), 2 words that can't be read."
);

const HISTORY: &str = help!(
    "Prints a line for each version: the version, and the batches (txn APP NUMBER) and closes (close APP)\n\
     in it.\n\
     \n\
     Example:\n  \
       lake history orders\n\
     \n\
     Prints, where the batch of append's example stands:\n  \
       0\n  \
       1 txn \"shop-7\" 0\n\
     Exit status: 0 done, 1 refused (the reply says why), 2 words that can't be read."
);

const CHECK: &str = help!(
    "Says whether the table is sound: each commit of the log can follow those before it, each batch's data file\n\
     stands and reads as rows of the table, no commit stands behind a gap, and each checkpoint is that of its\n\
     version. Commits, the data files of batches and checkpoints are read, one at a time; nothing is written.\n\
     \n\
     Example:\n  \
       lake check orders\n\
     \n\
     Prints: sound N, where the log has N versions; or `unsound V` for the least version that breaks it, and a line\n\
     that says why; or `refused K7 BadLog 0` where no table stands, as in a volume that isn't mounted. What lies\n\
     beside the table is told on standard error: leftovers of killed runs (`leftover`), data files that no commit\n\
     adds (`unnamed`), other files (`stray`).\n\
     Exit status: 0 sound, 1 unsound or refused (the reply says why), 2 words that can't be read."
);

const EXPLAIN: &str =
    "Prints what a refusal means, and whether the same call may be tried again: a line, which ends with `retry: ` and\n\
     no, yes, or after what. CODE is its code, in upper or lower case, or the line of a reply that tells it. Without it\n\
     all refusals and the faults that stand within them are told, a line each. The line of a refusal is also told on\n\
     standard error behind each refusal of a command on a folder.\n\
     \n\
     Examples:\n  \
       lake explain s3\n  \
       lake explain 'refused S3 Differs part-61-00000000000000000000.parquet'\n  \
       lake explain | grep 'retry: yes$'\n\
     \n\
     Prints: S3 Differs: ..; retry: no\n\
     Exit status: 0 told, 1 the output failed, 2 no refusal has that code, or words that can't be read.";

const SCRIPT: &str =
    "Runs the lines on standard input over a table in memory, and prints a reply for each.\n\
     Words are separated by one space; the last one goes to the line's end. Blank lines and lines that begin with # are\n\
     passed over.\n\
     \n\
     Lines:\n  \
       create ID AT SCHEMA\n  \
       append APP NUMBER AT ROWS      ROWS is a JSON array of objects\n  \
       close APP AT                   no new batch of APP is taken any more\n  \
       tail MAX OFFSET\n  \
       checkpoint, snapshot, history\n  \
       show V                         the bytes of commit V\n  \
       hex NAME                       an object in hexadecimal\n  \
       foreign V LINE                 another tool's commit V of one action\n  \
       tries N                        how many versions an append or a close tries from here on\n  \
       fault KIND                     the next commit put meets KIND: pass, lost, mute, late or twice\n\
     \n\
     Lines of actors, each of which has a session of its own:\n  \
       start ACTOR JOB                JOB is an append, close, checkpoint or tail line\n  \
       step ACTOR KIND                its next call meets KIND\n  \
       until ACTOR                    it is led on until its next call puts a commit\n  \
       finish ACTOR                   it is led on to its end\n  \
       die ACTOR                      it is dropped\n  \
       land K                         put K in flight, from 0, takes effect\n\
     \n\
     Example:\n  \
       create 00000000-0000-4000-8000-000000000001 0 {\"type\":\"struct\",\"fields\":[{\"name\":\"x\",\"type\":\"long\",\"nullable\":false,\"metadata\":{}}]}\n  \
       append a 0 5 [{\"x\":1},{\"x\":-1}]\n  \
       tail 10 {\"file\":0,\"row\":0,\"version\":0}\n\
     \n\
     Exit status: 0 each line was answered, 1 the input or the output failed, 2 `bad line N`.";

/// What the help of a subcommand says behind its lists. It stands beside the table, since a law is computed over that.
pub(crate) fn help_of(name: &str) -> &'static str {
    match name {
        "create" => CREATE,
        "append" => APPEND,
        "close" => CLOSE,
        "tail" => TAIL,
        "snapshot" => SNAPSHOT,
        "checkpoint" => CHECKPOINT,
        "history" => HISTORY,
        "check" => CHECK,
        "explain" => EXPLAIN,
        "script" => SCRIPT,
        _ => STATUSES,
    }
}

pub(crate) const SUBCOMMANDS: &[Subcommand] = &[
    Subcommand {
        name: "create",
        about: "Create a table in a folder",
        arguments: &[DIR, ID, SCHEMA, AT],
    },
    Subcommand {
        name: "append",
        about: "Append the rows on standard input as a batch",
        arguments: &[DIR, APP, NUMBER, ROWS, AT, TRIES, NO_CHECKPOINT],
    },
    Subcommand {
        name: "close",
        about: "Close an application's stream",
        arguments: &[DIR, APP, AT, TRIES, NO_CHECKPOINT],
    },
    Subcommand {
        name: "load",
        about: "Append the batches on standard input (not yet)",
        arguments: &[DIR, WORKERS, AT, TRIES, NO_CHECKPOINT],
    },
    Subcommand {
        name: "tail",
        about: "Print rows from an offset on",
        arguments: &[DIR, FROM, MAX, NO_CHECKPOINT],
    },
    Subcommand {
        name: "snapshot",
        about: "Print the table's snapshot",
        arguments: &[DIR, NO_CHECKPOINT],
    },
    Subcommand {
        name: "checkpoint",
        about: "Put a checkpoint of the newest version",
        arguments: &[DIR, NO_CHECKPOINT],
    },
    Subcommand {
        name: "history",
        about: "Print what each version holds",
        arguments: &[DIR, NO_CHECKPOINT],
    },
    Subcommand {
        name: "check",
        about: "Say whether the table is sound",
        arguments: &[DIR],
    },
    Subcommand {
        name: "explain",
        about: "Tell what a refusal means, or all of them",
        arguments: &[CODE],
    },
    Subcommand {
        name: "script",
        about: "Run the script on standard input",
        arguments: &[NO_CHECKPOINT],
    },
];
