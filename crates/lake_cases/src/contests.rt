//! Which commits conflict with a candidate, and the puts of its commit at version after version, past those that stand
//! there.

use case_calls::CaseStore;
use case_words::{Transcript, add_line, reads_of};
use commit_core::{Candidate, CommitFault, CommitOutcome, CommitSession, conflict};
use delta_actions::{Action, ActionFault, read_commit};
use session_core::drive;
use std::alloc::Global;
use std::mem;

/// The lines of the commit that is begun, and the candidate that commits are compared with, beside the bytes of its
/// commit.
pub struct Contest {
    lines: Vec<u8>,
    contender: Option<(Candidate, Vec<u8>)>,
}

// One call where it is dropped.
impl Drop for Contest {
    fn drop(self) {
        let Contest {
            lines: _,
            contender: _,
        } = self;
    }
}

impl Contest {
    /// No commit is begun, and there is no candidate.
    pub fn new(alloc: Global) -> Contest {
        Contest {
            lines: Vec::new(alloc),
            contender: None,
        }
    }

    /// Adds a line to the commit that is begun.
    pub fn add(&mut self, line: &str, told: &mut Transcript) {
        add_line(&mut self.lines, line, told);
    }

    /// The bytes of the commit that is begun; no commit is begun behind them.
    fn take(&mut self, told: &Transcript) -> Vec<u8> {
        mem::replace(&mut self.lines, Vec::new(told.alloc))
    }

    /// Makes the commit that is begun the candidate, which reads what the words name.
    pub fn make_candidate(&mut self, words: &str, told: &mut Transcript) {
        let (applications, domains) = reads_of(words, told);
        if told.is_bad() {
            return;
        }
        let bytes = self.take(told);
        let actions = actions_of(&bytes, told);
        if told.is_bad() {
            return;
        }
        match Candidate::new(told.alloc, actions, applications, domains) {
            Ok(candidate) => self.contender = Some((candidate, bytes)),
            Err(_error) => told.lacks_memory(),
        }
    }

    /// Adds what of the commit that is begun conflicts with the candidate.
    pub fn tell_conflict(&mut self, told: &mut Transcript) {
        let bytes = self.take(told);
        let commit = actions_of(&bytes, told);
        match &self.contender {
            Some((candidate, _)) if !told.is_bad() => match conflict(candidate, &commit) {
                Some(found) => told.tell("conflict", &found),
                None => told.say("no conflict"),
            },
            _ => told.misspelled(),
        }
    }

    /// Drives the puts of the candidate's commit, and adds how that ended: `V TRIES`, the version that is tried first
    /// and how many are tried. There is no candidate behind it.
    pub fn race(&mut self, store: &mut CaseStore, words: &str, told: &mut Transcript) {
        let (version, tries) = told.halves(words);
        let version = told.number(version);
        let tries = told.count(tries);
        if told.is_bad() {
            return;
        }
        let Some((candidate, bytes)) = self.contender.take() else {
            return told.misspelled();
        };
        let mut session = CommitSession::new(told.alloc, candidate, bytes, version, tries);
        let ended = drive(told.alloc, store, &mut session);
        tell_raced(&ended, told);
    }
}

/// The actions of a commit's bytes.
fn actions_of(bytes: &[u8], told: &mut Transcript) -> Vec<Action> {
    match read_commit(told.alloc, bytes) {
        Ok(actions) => return actions,
        Err(ActionFault::Memory) => told.lacks_memory(),
        Err(_fault) => told.misspelled(),
    }
    Vec::new(told.alloc)
}

/// Adds how a race ended.
fn tell_raced(ended: &Result<CommitOutcome, CommitFault>, told: &mut Transcript) {
    let (word, version, winners) = match ended {
        Ok(CommitOutcome::Committed { version, winners }) => ("committed", *version, winners),
        Ok(CommitOutcome::Conflicted { version, winners }) => ("conflicted", *version, winners),
        Ok(CommitOutcome::Contended { newest, winners }) => ("contended", *newest, winners),
        Err(fault) => return tell_fault(fault, told),
    };
    told.tell_counts(&[(word, version), ("past", winners.len() as u64)]);
}

/// Adds why a race ended without an outcome.
fn tell_fault(fault: &CommitFault, told: &mut Transcript) {
    match fault {
        CommitFault::BadLog { version } => told.tell("bad log", version),
        CommitFault::PastLimit => told.say("past limit"),
        CommitFault::Lost {
            version: Some(version),
        } => told.tell("lost put", version),
        CommitFault::Lost { version: None } => told.say("lost get"),
        CommitFault::Memory => told.lacks_memory(),
    }
}
