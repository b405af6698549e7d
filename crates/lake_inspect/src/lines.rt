//! Lines that say what is told or written, and their answers.

use crate::chunks::tell_chunk;
use crate::describing::tell_alone;
use crate::heaps::tell_heap;
use crate::spoiling::tell_spoiled;
use crate::tables::tell_table;
use crate::writing::written;
use byte_words::{Bindings, LineFault, Question, Transcript, Words, question_named, tell_hybrid};
use std::alloc::Global;

/// The answer to a line of this number. It is one line: ` | ` stands between what is told of one thing and of the next,
/// and the middle of a long one is left out. The answers to `whole ..` and to `spoil ..` are all that is told, each in
/// a line, which are set in but for the first.
pub fn answered(alloc: Global, names: &mut Bindings, line: &str, number: u64) -> Transcript {
    let asked = line.strip_prefix("whole ").unwrap_or(line);
    let is_whole = asked.len() < line.len() || line.starts_with("spoil ");
    let mut told = Transcript::new(alloc, if is_whole { "\n  " } else { " | " });
    let answer = match asked.strip_prefix("let ") {
        Some(rest) => name(alloc, names, rest, &mut told),
        None => tell(&mut Words::new(alloc, names, asked), &mut told),
    };
    let told = told.ended(answer, number);
    if is_whole { told } else { told.shortened() }
}

/// Names bytes for `NAME BYTES` and `NAME write ..`, and tells how many they are.
fn name(
    alloc: Global,
    names: &mut Bindings,
    text: &str,
    told: &mut Transcript,
) -> Result<(), LineFault> {
    let (name, text) = text.split_once(' ').ok_or(LineFault::Misspelled)?;
    let bytes = bytes_of(&mut Words::new(alloc, names, text), told)?;
    told.show("", &bytes.len());
    told.put(" bytes");
    names.insert(String::from_str(alloc, name)?, bytes)?;
    Ok(())
}

/// The bytes that are spelled, or that are written for `write ..`.
fn bytes_of(words: &mut Words<'_>, told: &mut Transcript) -> Result<Vec<u8>, LineFault> {
    if words.takes("write ") {
        return written(words, told);
    }
    words.rest_bytes()
}

/// Tells what the words ask for.
fn tell(words: &mut Words<'_>, told: &mut Transcript) -> Result<(), LineFault> {
    match question_named(words.last_word()).ok_or(LineFault::Misspelled)? {
        Question::Alone(kind) => tell_alone(kind, words, told),
        Question::Table(what) => tell_table(what, words, told),
        Question::Heap(what) => tell_heap(what, words, told),
        Question::Hybrid => tell_hybrid(words, told),
        Question::Chunk => tell_chunk(words, told),
        Question::Spoiled => tell_spoiled(words, told),
        Question::Written => {
            let bytes = written(words, told)?;
            told.hex(&bytes);
            Ok(())
        }
    }
}
