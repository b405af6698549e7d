//! What becomes of calls.

use case_words::Transcript;
use store_core::{Flaky, MemoryStore, Put, StoreFault, Turn};

/// The store of a case, which loses calls as it is told to.
pub type CaseStore = Flaky<MemoryStore>;

/// The turn of this name.
pub fn turn_of(word: &str, told: &mut Transcript) -> Turn {
    match word {
        "pass" => Turn::Pass,
        "lost" | "request" => Turn::LoseRequest,
        "mute" | "answer" => Turn::LoseAnswer,
        "late" => Turn::LandLate,
        "twice" => Turn::LandTwice,
        _ => {
            told.misspelled();
            Turn::Pass
        }
    }
}

/// Adds turns of these names, with a space between each two, behind those that the store was given. Where one of them
/// is misspelled, none is added.
pub fn add_turns(store: &mut CaseStore, words: &str, told: &mut Transcript) {
    for word in words.split(' ') {
        turn_of(word, told);
    }
    if !told.is_bad() {
        for word in words.split(' ') {
            let turn = turn_of(word, told);
            told.note(store.turns.push(turn));
        }
    }
}

/// How a put went, in a word.
pub fn put_text(put: Put) -> &'static str {
    match put {
        Put::Created => "created",
        Put::Exists => "exists",
    }
}

/// Lets the put in flight of this number take effect, and adds what that tells.
pub fn land(store: &mut CaseStore, number: &str, told: &mut Transcript) {
    let number = told.number(number);
    if told.is_bad() {
        return;
    }
    match store.land(number as usize) {
        Ok(Some(put)) => told.say(put_text(put)),
        Ok(None) => told.say("none"),
        Err(StoreFault::Lost) => told.say("lost"),
        Err(StoreFault::Memory) => told.lacks_memory(),
    }
}
