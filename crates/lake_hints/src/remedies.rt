//! What to do about a call of a folder that failed.
ghost use Rattle.std.specs.Prelude.{◌≡◌, option_map};
ghost use Rattle.lake_hints.specs.ErrorOutputs.{TellsText};
ghost use Rattle.lake_hints.specs.Hints.{hint_line, hint_of, remedy_in};

use crate::error_output::ErrorOutput;
use std::io::Write;
use table_folder::Reason;

/// Says what to do about a call of a folder that failed for that reason, in one plain sentence, where there is
/// something to say.
pub fn hint_reason<E: Write>(reason: Reason, err: &mut ErrorOutput<E>)
    ensures { TellsText E.contents err.old err.new (hint_of reason) }
{
    hint(remedy_of(reason), err)
}

/// Tells a hint, where there is one.
pub(crate) fn hint<E: Write>(what: Option<&'static str>, err: &mut ErrorOutput<E>)
    ensures { TellsText E.contents err.old err.new (hint_line (option_map (λ what. what.now) what.entry)) }
{
    if let Some(what) = what {
        err.say(format_args!("hint: {what}"));
    }
}

/// What to do about it. A folder that isn't there may be one where a table is to be created, or one where a table is
/// looked for.
fn remedy_of(reason: Reason) -> Option<&'static str>
    ensures { option_map (λ remedy. remedy.now) result ≡ remedy_in reason }
{
    let remedy = match reason {
        Reason::Missing => {
            "there is no such folder or file; a table's folder is made with mkdir, and the table in it with lake create"
        }
        Reason::NotAFolder => "it is no folder",
        Reason::Denied => "whoever runs this may not read or write it",
        Reason::Full => "the disk is full: make room and run the same command again",
        Reason::ReadOnly => "the file system can't be written to",
        Reason::TooLarge => "a file may have 1 GiB at most",
        Reason::NotText => "a name in the folder isn't UTF-8",
        Reason::Taken => "another process put it meanwhile: run the same command again",
        Reason::Gone => "it was there when the folder was listed: run the same command again",
        Reason::NoLinks => "the file system has no hard links, which writing a table needs",
        Reason::NotAFile => {
            "what lies under this name is no plain file: move it away and run the same command again"
        }
        Reason::TooManyLeftovers => {
            "100,000 files that killed runs have left lie in its folder: remove .new-0, .new-1 and so on while no process writes to the table"
        }
        Reason::Other => return None,
    };
    Some(remedy)
}
