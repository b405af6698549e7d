//! Calls, and what they answer.

use crate::turns::{CaseStore, add_turns, land, put_text, turn_of};
use case_words::Transcript;
use session_core::{Reply, Request, ask};
use store_core::Store;

/// Does what a line says of calls, and adds how it ended:
///
/// - `turns KIND ..`: the calls behind those whose turns are told already meet these turns, each `pass`, `lost` (the
///   request is), `mute` (the answer is lost), `late` or `twice`; past them every call passes;
/// - `arm KIND`: the next put of a commit's name meets this turn;
/// - `land K`: the put in flight of that number, from 0, takes effect;
/// - `faults`: how many calls were lost;
/// - `object NAME`: what stands under a name in the store below, without a call of the store above;
/// - `list`, `get NAME`, `put NAME TEXT` and `commit V TEXT`: one call by `ask`, the bytes being the text as it stands.
pub fn tell_call(store: &mut CaseStore, word: &str, rest: &str, told: &mut Transcript) {
    match word {
        "turns" => add_turns(store, rest, told),
        "arm" => {
            let turn = turn_of(rest, told);
            if !told.is_bad() {
                store.arm(turn);
            }
        }
        "land" => land(store, rest, told),
        "faults" if rest.is_empty() => told.tell("faults", &store.faults()),
        "object" => tell_standing(store, rest, told),
        _ => {
            let request = request_of(word, rest, told);
            if !told.is_bad() {
                tell_reply(&ask(told.alloc, store, request), told);
            }
        }
    }
}

/// Adds what stands under a name in the store below, which loses no call.
fn tell_standing(store: &mut CaseStore, name: &str, told: &mut Transcript) {
    match store.store.get(name) {
        Ok(Some(bytes)) => tell_object("stands", &bytes, told),
        Ok(None) => told.say("absent"),
        Err(_fault) => told.lacks_memory(),
    }
}

/// The call that a line asks for.
fn request_of(word: &str, rest: &str, told: &mut Transcript) -> Request {
    match word {
        "list" if rest.is_empty() => Request::List,
        "get" => Request::Get(told.copy_of(rest)),
        "put" => {
            let (name, text) = told.halves(rest);
            Request::PutFile(told.copy_of(name), told.bytes_of(text.as_bytes()))
        }
        "commit" => {
            let (version, text) = told.halves(rest);
            Request::PutCommit(told.number(version), told.bytes_of(text.as_bytes()))
        }
        _ => {
            told.misspelled();
            Request::List
        }
    }
}

/// Adds the answer of a call.
fn tell_reply(reply: &Reply, told: &mut Transcript) {
    match reply {
        Reply::Names(names) => tell_names(names.as_slice(), told),
        Reply::Object(Some(bytes)) => tell_object("object", bytes, told),
        Reply::Object(None) => told.say("object -"),
        Reply::Put(put) => told.say(put_text(*put)),
        Reply::Lost => told.say("lost"),
        Reply::Memory => told.say("memory"),
    }
}

/// Adds names in a line.
fn tell_names(names: &[String], told: &mut Transcript) {
    told.text("names");
    for name in names {
        told.text(" ");
        told.text(name);
    }
    told.text("\n");
}

/// Adds the bytes of an object, behind a word.
fn tell_object(word: &str, bytes: &[u8], told: &mut Transcript) {
    told.text(word);
    told.text(" ");
    told.add(bytes);
    told.text("\n");
}

/// Adds a call that is asked for; of a file with the count of its bytes, of a commit with its bytes.
pub fn tell_request(request: &Request, told: &mut Transcript) {
    match request {
        Request::List => told.say("asks for the names"),
        Request::Get(name) => told.tell("asks for", name),
        Request::PutFile(name, bytes) => {
            told.tell("asks to put", name);
            told.tell("file", &bytes.len());
        }
        Request::PutCommit(version, bytes) => {
            told.tell("asks to put commit", version);
            told.add(bytes);
        }
    }
}
