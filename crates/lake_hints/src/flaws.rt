//! Why a line of a script is bad, told on standard error.
ghost use Rattle.lake_hints.specs.ErrorOutputs.{TellsSome};
ghost use Rattle.lake_hints.specs.Hints.{IsBadLineHint};

use crate::error_output::ErrorOutput;
use std::alloc::Global;
use std::io::Write;
use std::str;

/// The words that a line begins with, and what each takes. A form is told behind its word.
const FORMS: [(&str, &str); 18] = [
    (
        "create",
        "takes ID AT SCHEMA: AT is a moment of at most 999999999999999 milliseconds",
    ),
    (
        "append",
        "takes APP NUMBER AT ROWS: a number below 2^64, a moment of at most 999999999999999 milliseconds and a JSON array",
    ),
    (
        "close",
        "takes APP AT: AT is a moment of at most 999999999999999 milliseconds",
    ),
    ("checkpoint", "stands alone"),
    ("snapshot", "stands alone"),
    ("history", "stands alone"),
    ("tail", "takes MAX OFFSET: MAX is a number of at most 65536"),
    ("show", "takes V: a number below 2^64"),
    ("hex", "takes NAME"),
    ("tries", "takes N: a number from 1 to 64"),
    (
        "fault",
        "takes KIND: `pass`, `lost`, `mute`, `late` or `twice`",
    ),
    (
        "start",
        "takes ACTOR JOB: JOB is an `append`, `close`, `checkpoint` or `tail` line",
    ),
    ("until", "takes ACTOR"),
    (
        "step",
        "takes ACTOR KIND: KIND is `pass`, `lost`, `mute`, `late` or `twice`",
    ),
    ("finish", "takes ACTOR"),
    ("die", "takes ACTOR"),
    ("land", "takes K: a number below 2^64"),
    ("foreign", "takes V LINE: V is a number below 2^64"),
];

/// Tells in one line why the script's line of that number is bad, as far as what was kept of it shows.
pub fn tell_bad_line<E: Write>(
    alloc: Global,
    number: u64,
    kept: Option<&[u8]>,
    err: &mut ErrorOutput<E>,
)
    ensures { TellsSome E.contents (IsBadLineHint number) err.old err.new }
{
    match kept {
        Some(line) => tell_flaw(alloc, number, line, err),
        None => err.say(format_args!("line {number}: it is no line of a script")),
    }
}

/// Tells what is wrong with a line: it is no text, or no line begins with its first word, or what is behind that isn't
/// what such a line takes.
fn tell_flaw<E: Write>(alloc: Global, number: u64, line: &[u8], err: &mut ErrorOutput<E>)
    ensures { TellsSome E.contents (IsBadLineHint number) err.old err.new }
{
    let Ok(text) = str::from_utf8(line) else {
        err.say(format_args!("line {number}: it isn't UTF-8"));
        return;
    };
    let word = first_word(text);
    match form_of(word) {
        Some(form) => err.say(format_args!("line {number}: `{word}` {form}")),
        None => tell_unknown(alloc, number, word, err),
    }
}

/// Tells that no line begins with a word. It is named unless memory runs out for that.
fn tell_unknown<E: Write>(alloc: Global, number: u64, word: &str, err: &mut ErrorOutput<E>)
    ensures { TellsSome E.contents (IsBadLineHint number) err.old err.new }
{
    if word.is_empty() {
        err.say(format_args!("line {number}: no line begins with a space"));
        return;
    }
    match format!(in alloc; "{}", word.escape_debug()) {
        Ok(word) => err.say(format_args!("line {number}: no line begins with `{word}`")),
        Err(_error) => err.say(format_args!("line {number}: no line begins so")),
    }
}

/// What a line takes that begins with a word, where there are such lines.
fn form_of(word: &str) -> Option<&'static str> {
    match FORMS.iter().find(|(begins, _form)| *begins == word) {
        Some((_begins, form)) => Some(*form),
        None => None,
    }
}

/// The text in front of its first space, or all of it.
fn first_word(text: &str) -> &str {
    match text.split_once(' ') {
        Some((word, _rest)) => word,
        None => text,
    }
}
