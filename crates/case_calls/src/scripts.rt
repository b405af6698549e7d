//! A script or command lines, and the directives that shape them.

use crate::shared::Rival;
use crate::turns::{CaseStore, add_turns};
use case_words::{Bindings, Manner, Sink, Source, Transcript, head};
use std::alloc::Global;
use std::mem;
use store_core::{MemoryStore, Store};
use table_folder::Stop;

/// The directives of one or two words that say how a case is run or told.
const FLAGS: [&str; 5] = ["plain", "replays", "output sticks", "objects", "entries"];

/// Those with a number behind them.
const NUMBERS: [&str; 6] = [
    "input by",
    "input breaks",
    "output by",
    "output breaks",
    "output ends",
    "last",
];

/// A command line of the program, and what is on its standard input.
pub struct Run<'a> {
    /// Its words but for the program's name.
    pub words: &'a str,
    pub input: Vec<u8>,
    /// Which file's making fails, where the folder is in memory.
    pub stop: Stop,
    /// The files that another process makes meanwhile, where the folder is in memory.
    pub rivals: Vec<Rival<'a>>,
}

// One call where it is dropped.
impl Drop for Run<'_> {
    fn drop(self) {
        let Run {
            words: _,
            input: _,
            stop: _,
            rivals: _,
        } = self;
    }
}

/// A script, and how it is run and told.
pub struct Script<'a> {
    pub name: &'a str,
    pub text: Vec<u8>,
    /// What stands before the script runs, and the turns that its calls meet then.
    pub store: CaseStore,
    /// The command lines, where the script is the input of the last one.
    pub runs: Vec<Run<'a>>,
    /// The folder on the disk that is made for the command lines. Else their folder is in memory.
    pub folder: Option<&'a str>,
    flags: Vec<&'a str>,
    numbers: Vec<(&'a str, u64)>,
}

// One call where it is dropped.
impl Drop for Script<'_> {
    fn drop(self) {
        let Script {
            name: _,
            text: _,
            store: _,
            runs: _,
            folder: _,
            flags: _,
            numbers: _,
        } = self;
    }
}

impl<'a> Script<'a> {
    /// An empty script, which runs over a store in which nothing stands.
    pub fn new(alloc: Global, name: &'a str) -> Script<'a> {
        Script {
            name,
            text: Vec::new(alloc),
            store: CaseStore::new(alloc, MemoryStore::new(alloc), Vec::new(alloc)),
            runs: Vec::new(alloc),
            folder: None,
            flags: Vec::new(alloc),
            numbers: Vec::new(alloc),
        }
    }

    /// Does what a directive says:
    ///
    /// - `text TEXT` adds a text to the script, `repeat N TEXT` adds it N times, `#` in it being the count from 0;
    /// - `object NAME TEXT` and `commit V TEXT` put an object, or the commit of a version, before the script runs;
    /// - `meets TURN ..`: the store's calls meet these turns, each `pass`, `request` (the request is lost) or `answer`
    ///   (the answer is), and past them every call passes;
    /// - `words WORD ..` runs the command of these words, with the lines behind it, up to the next such directive, on
    ///   its standard input, over a folder in memory that holds the objects, whatever its name is;
    /// - `stops before N`, `stops after N`: of the files that the command makes the one after N others fails, before it
    ///   is made or after;
    /// - `rival N NAME TEXT`: right before the command makes the file after N others, another process makes this one,
    ///   where nothing of that name stands;
    /// - `folder NAME`: the commands run on the disk, where a new folder of that name is made for them;
    /// - `plain` runs the script over the plain table;
    /// - `replays`: logs are read from version 0, without a checkpoint;
    /// - `input by N`, `output by N`: a call moves N bytes at most; `input breaks N`, `output breaks N`: calls fail
    ///   behind N bytes; `output ends N`: behind N bytes it takes no more; `output sticks`: a flush fails;
    /// - `last N` tells just the last N lines, and of the others the count and the SHA-256;
    /// - `objects` and `entries` tell the names and sizes of the objects, and the table's entries, that are left.
    pub fn direct(&mut self, names: &Bindings<'_>, directive: &'a str, told: &mut Transcript) {
        let (word, rest) = head(directive);
        match word {
            "text" => names.spell(rest, &mut self.text, told),
            "repeat" => self.repeat(names, rest, told),
            "object" => self.put(names, rest, told),
            "commit" => self.put_commit(names, rest, told),
            "meets" => add_turns(&mut self.store, rest, told),
            "words" => self.begin(rest, told),
            "stops" => self.stop(rest, told),
            "rival" => self.add_rival(names, rest, told),
            "folder" => self.folder = Some(rest),
            _ => self.set(directive, told),
        }
    }

    /// Sets what a directive says of how it is run or told.
    fn set(&mut self, directive: &'a str, told: &mut Transcript) {
        let (key, number) = directive.rsplit_once(' ').unwrap_or((directive, ""));
        if FLAGS.contains(&directive) {
            told.note(self.flags.push(directive));
        } else if NUMBERS.contains(&key) {
            let number = told.number(number);
            told.note(self.numbers.push((key, number)));
        } else {
            told.misspelled();
        }
    }

    /// Whether a directive was given.
    pub fn has(&self, directive: &str) -> bool {
        for flag in &self.flags {
            if *flag == directive {
                return true;
            }
        }
        false
    }

    /// The number of a directive, and the greatest one where it wasn't given.
    pub fn number_of(&self, directive: &str) -> usize {
        for (key, number) in &self.numbers {
            if *key == directive {
                return *number as usize;
            }
        }
        usize::MAX
    }

    /// A text as the input of a run.
    pub fn source<'s>(&self, text: &'s [u8]) -> Source<'s> {
        Source {
            rest: text,
            manner: Manner {
                by: self.number_of("input by"),
                until: self.number_of("input breaks"),
            },
        }
    }

    /// The output of a run.
    pub fn sink<'s>(&self, told: &'s mut Vec<u8>) -> Sink<'s> {
        let breaks = self.number_of("output breaks");
        let ends = self.number_of("output ends");
        Sink {
            told,
            manner: Manner {
                by: self.number_of("output by"),
                until: if ends < breaks { ends } else { breaks },
            },
            is_full: ends < usize::MAX,
            is_stuck: self.has("output sticks"),
        }
    }

    /// Begins a command line; the script so far is the input of the one before it.
    fn begin(&mut self, words: &'a str, told: &mut Transcript) {
        self.end_run(told.alloc);
        let run = Run {
            words,
            input: Vec::new(told.alloc),
            stop: Stop::Never,
            rivals: Vec::new(told.alloc),
        };
        told.note(self.runs.push(run));
    }

    /// Gives the script to the last command line, if there is one.
    pub fn end_run(&mut self, alloc: Global) {
        if let Some(run) = self.runs.last_mut() {
            run.input = mem::replace(&mut self.text, Vec::new(alloc));
        }
    }

    /// Says which file's making fails in the last command line.
    fn stop(&mut self, text: &str, told: &mut Transcript) {
        let (when, count) = told.halves(text);
        let count = told.number(count);
        let stop = match when {
            "before" => Stop::Before(count),
            "after" => Stop::After(count),
            _ => return told.misspelled(),
        };
        match self.runs.last_mut() {
            Some(run) => run.stop = stop,
            None => told.misspelled(),
        }
    }

    /// Adds a file that another process makes during the last command line.
    fn add_rival(&mut self, names: &Bindings<'_>, text: &'a str, told: &mut Transcript) {
        let (behind, text) = told.halves(text);
        let (name, text) = head(text);
        let behind = told.number(behind);
        let mut bytes = Vec::new(told.alloc);
        names.spell(text, &mut bytes, told);
        let rival = Rival {
            behind,
            name,
            bytes,
        };
        match self.runs.last_mut() {
            Some(run) => told.note(run.rivals.push(rival)),
            None => told.misspelled(),
        }
    }

    /// Adds a text so many times, `#` in it being the count.
    fn repeat(&mut self, names: &Bindings<'_>, text: &str, told: &mut Transcript) {
        let (times, text) = told.halves(text);
        for count in 0..told.number(times) {
            let mut line = Transcript::new(told.alloc);
            let mut parts = text.split('#');
            line.text(parts.next().unwrap_or(""));
            for part in parts {
                line.with("", &count);
                line.text(part);
            }
            names.spell(line.as_text(), &mut self.text, told);
            told.heed(&line);
        }
    }

    /// Puts an object, unless its name stands.
    fn put(&mut self, names: &Bindings<'_>, text: &str, told: &mut Transcript) {
        let (name, text) = head(text);
        let mut bytes = Vec::new(told.alloc);
        names.spell(text, &mut bytes, told);
        match self.store.store.put_absent(name, bytes) {
            Ok(_put) => {}
            Err(_fault) => told.lacks_memory(),
        }
    }

    /// Puts the commit of a version, unless it stands.
    fn put_commit(&mut self, names: &Bindings<'_>, text: &str, told: &mut Transcript) {
        let (version, text) = head(text);
        let version = told.number(version);
        match format!(in told.alloc; "_delta_log/{version:020}.json {text}") {
            Ok(text) => self.put(names, &text, told),
            Err(_error) => told.lacks_memory(),
        }
    }
}
