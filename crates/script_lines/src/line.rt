//! The lines of a script, and the reader of one line.
ghost use Rattle.std.specs.Prelude.{◌≡◌, option_map};
ghost use Rattle.script_lines.specs.Fields.{LineGives};
ghost use Rattle.script_lines.specs.Lines.{task_view, statement_view, append_head, append_from, close_from, tail_from, task_from, bare_task, task_of, create_from, start_from, step_from, foreign_from, bare_statement, counted_from, plain_from, statement_from, statement_of};

use crate::fields::{
    FieldError, array_rows, max_of, moment_of, number_of, tries_of, word_and_rest,
};
use crate::kind::Kind;
use crate::verb::Verb;
use json::Scratch;
use json_text::JsonRows;
use std::alloc::Global;

/// What is done to a table: by a line at once, or by an actor that is started with it.
#[derive(Drop)]
pub enum Job<'a> {
    /// Puts a batch of rows under a number of the application.
    Append {
        application: &'a str,
        number: u64,
        at: u64,
        rows: JsonRows<'a>,
    },
    /// Closes the application's stream.
    Close {
        application: &'a str,
        at: u64,
    },
    /// Puts a checkpoint of the newest version.
    Checkpoint,
    /// Reads at most `max` rows from an offset on.
    Tail {
        max: u64,
        offset: &'a str,
    },
}

/// What a line shows of what stands, and leaves as it is.
#[derive(Drop)]
pub enum Look<'a> {
    /// The table's snapshot.
    Snapshot,
    /// What each version holds.
    History,
    /// The bytes of a commit.
    Show { version: u64 },
    /// An object in hexadecimal.
    Hex { name: &'a str },
}

/// What a line does to a world of actors.
#[derive(Drop)]
pub enum WorldLine<'a> {
    /// Sets what the next commit put of a line without an actor meets.
    Fault { kind: Kind },
    /// Gives an actor a job.
    Start { actor: &'a str, job: Job<'a> },
    /// Runs an actor until its next request is a commit put.
    Until { actor: &'a str },
    /// Lets an actor's next request meet a kind.
    Step { actor: &'a str, kind: Kind },
    /// Runs an actor to its end.
    Finish { actor: &'a str },
    /// Drops an actor's session.
    Die { actor: &'a str },
    /// Lets a put in flight take effect.
    Land { put: u64 },
}

/// A line of a script, with its words read. Moments are in milliseconds.
#[derive(Drop)]
pub enum Line<'a> {
    /// Creates the table.
    Create {
        id: &'a str,
        at: u64,
        schema: &'a str,
    },
    /// Runs a job at once.
    Job(Job<'a>),
    /// Shows what stands.
    Look(Look<'a>),
    /// Puts a commit of one line that another tool wrote.
    Foreign {
        version: u64,
        action: &'a str,
    },
    /// Sets how often later sessions try to put a commit.
    Tries {
        count: u64,
    },
    /// Does something to a world of actors.
    World(WorldLine<'a>),
}

#[tactic(auto, unfolding(crate::specs::Lines::append_head))]
fn append_head(text: &str) -> Option<(&str, u64, u64, &str)>
    ensures { option_map (λ p. (p.0.now, p.1, p.2, p.3.now)) result ≡ append_head text.now }
{
    let (application, rest) = word_and_rest(text)?;
    let (number, rest) = word_and_rest(rest)?;
    let number = number_of(number)?;
    let (at, rows) = word_and_rest(rest)?;
    let at = moment_of(at)?;
    Some((application, number, at, rows))
}

#[tactic(auto, unfolding(crate::specs::Lines::append_from))]
fn append_from<'a>(
    alloc: Global,
    text: &'a str,
    scratch: &'a mut Scratch,
    is_owned: bool,
) -> Result<Job<'a>, FieldError>
    ensures { LineGives task_view result (append_from text.now) }
{
    let (application, number, at, rows) = append_head(text).ok_or(FieldError::Malformed)?;
    let rows = array_rows(alloc, rows, scratch, is_owned)?;
    Ok(Job::Append {
        application,
        number,
        at,
        rows,
    })
}

#[tactic(auto, unfolding(crate::specs::Lines::close_from))]
fn close_from(text: &str) -> Option<Job<'_>>
    ensures { option_map task_view result ≡ close_from text.now }
{
    let (application, at) = word_and_rest(text)?;
    let at = moment_of(at)?;
    Some(Job::Close { application, at })
}

#[tactic(auto, unfolding(crate::specs::Lines::tail_from))]
fn tail_from(text: &str) -> Option<Job<'_>>
    ensures { option_map task_view result ≡ tail_from text.now }
{
    let (max, offset) = word_and_rest(text)?;
    let max = max_of(max)?;
    Some(Job::Tail { max, offset })
}

fn task_from<'a>(
    alloc: Global,
    verb: Verb,
    text: &'a str,
    scratch: &'a mut Scratch,
    is_owned: bool,
) -> Result<Job<'a>, FieldError>
    ensures { LineGives task_view result (task_from verb text.now) }
{
    match verb {
        Verb::Append => append_from(alloc, text, scratch, is_owned),
        Verb::Close => close_from(text).ok_or(FieldError::Malformed),
        Verb::Tail => tail_from(text).ok_or(FieldError::Malformed),
        _ => Err(FieldError::Malformed),
    }
}

fn bare_task<'a>(verb: Verb) -> Option<Job<'a>>
    ensures { option_map task_view result ≡ bare_task verb }
{
    match verb {
        Verb::Checkpoint => Some(Job::Checkpoint),
        _ => None,
    }
}

#[tactic(auto, unfolding(crate::specs::Lines::task_of))]
fn task_of<'a>(
    alloc: Global,
    text: &'a str,
    scratch: &'a mut Scratch,
    is_owned: bool,
) -> Result<Job<'a>, FieldError>
    ensures { LineGives task_view result (task_of text.now) }
{
    match word_and_rest(text) {
        Some((word, rest)) => {
            let verb = Verb::from_word(word).ok_or(FieldError::Malformed)?;
            task_from(alloc, verb, rest, scratch, is_owned)
        }
        None => {
            let verb = Verb::from_word(text).ok_or(FieldError::Malformed)?;
            bare_task(verb).ok_or(FieldError::Malformed)
        }
    }
}

#[tactic(auto, unfolding(crate::specs::Lines::create_from))]
fn create_from(text: &str) -> Option<Line<'_>>
    ensures { option_map statement_view result ≡ create_from text.now }
{
    let (id, rest) = word_and_rest(text)?;
    let (at, schema) = word_and_rest(rest)?;
    let at = moment_of(at)?;
    Some(Line::Create { id, at, schema })
}

#[tactic(auto, unfolding(crate::specs::Lines::start_from))]
fn start_from<'a>(
    alloc: Global,
    text: &'a str,
    scratch: &'a mut Scratch,
    is_owned: bool,
) -> Result<Line<'a>, FieldError>
    ensures { LineGives statement_view result (start_from text.now) }
{
    let (actor, job) = word_and_rest(text).ok_or(FieldError::Malformed)?;
    let job = task_of(alloc, job, scratch, is_owned)?;
    Ok(Line::World(WorldLine::Start { actor, job }))
}

#[tactic(auto, unfolding(crate::specs::Lines::step_from))]
fn step_from(text: &str) -> Option<Line<'_>>
    ensures { option_map statement_view result ≡ step_from text.now }
{
    let (actor, kind) = word_and_rest(text)?;
    let kind = Kind::from_word(kind)?;
    Some(Line::World(WorldLine::Step { actor, kind }))
}

#[tactic(auto, unfolding(crate::specs::Lines::foreign_from))]
fn foreign_from(text: &str) -> Option<Line<'_>>
    ensures { option_map statement_view result ≡ foreign_from text.now }
{
    let (version, action) = word_and_rest(text)?;
    let version = number_of(version)?;
    Some(Line::Foreign { version, action })
}

fn bare_line<'a>(verb: Verb) -> Option<Line<'a>>
    ensures { option_map statement_view result ≡ bare_statement verb }
{
    match verb {
        Verb::Checkpoint => Some(Line::Job(Job::Checkpoint)),
        Verb::Snapshot => Some(Line::Look(Look::Snapshot)),
        Verb::History => Some(Line::Look(Look::History)),
        _ => None,
    }
}

/// A line with a number or a kind, of whose text nothing is kept.
fn counted_line<'a>(verb: Verb, text: &str) -> Option<Line<'a>>
    ensures { option_map statement_view result ≡ counted_from verb text.now }
{
    let line = match verb {
        Verb::Show => Line::Look(Look::Show {
            version: number_of(text)?,
        }),
        Verb::Tries => Line::Tries {
            count: tries_of(text)?,
        },
        Verb::Fault => Line::World(WorldLine::Fault {
            kind: Kind::from_word(text)?,
        }),
        Verb::Land => Line::World(WorldLine::Land {
            put: number_of(text)?,
        }),
        _ => return None,
    };
    Some(line)
}

/// A line that is neither a job nor names one, so that nothing of it is kept in memory.
fn plain_line(verb: Verb, text: &str) -> Option<Line<'_>>
    ensures { option_map statement_view result ≡ plain_from verb text.now }
{
    match verb {
        Verb::Create => create_from(text),
        Verb::Hex => Some(Line::Look(Look::Hex { name: text })),
        Verb::Until => Some(Line::World(WorldLine::Until { actor: text })),
        Verb::Step => step_from(text),
        Verb::Finish => Some(Line::World(WorldLine::Finish { actor: text })),
        Verb::Die => Some(Line::World(WorldLine::Die { actor: text })),
        Verb::Foreign => foreign_from(text),
        _ => counted_line(verb, text),
    }
}

fn line_from<'a>(
    alloc: Global,
    verb: Verb,
    text: &'a str,
    scratch: &'a mut Scratch,
    is_owned: bool,
) -> Result<Line<'a>, FieldError>
    ensures { LineGives statement_view result (statement_from verb text.now) }
{
    match verb {
        Verb::Append | Verb::Close | Verb::Tail => {
            Ok(Line::Job(task_from(alloc, verb, text, scratch, is_owned)?))
        }
        Verb::Start => start_from(alloc, text, scratch, is_owned),
        _ => plain_line(verb, text).ok_or(FieldError::Malformed),
    }
}

/// Reads the text of a line that is neither blank nor a comment. Rows that are to be owned outlive the line.
#[tactic(auto, unfolding(crate::specs::Lines::statement_of))]
pub fn parse_line<'a>(
    alloc: Global,
    text: &'a str,
    scratch: &'a mut Scratch,
    is_owned: bool,
) -> Result<Line<'a>, FieldError>
    ensures { LineGives statement_view result (statement_of text.now) }
{
    match word_and_rest(text) {
        Some((word, rest)) => {
            let verb = Verb::from_word(word).ok_or(FieldError::Malformed)?;
            line_from(alloc, verb, rest, scratch, is_owned)
        }
        None => {
            let verb = Verb::from_word(text).ok_or(FieldError::Malformed)?;
            bare_line(verb).ok_or(FieldError::Malformed)
        }
    }
}
