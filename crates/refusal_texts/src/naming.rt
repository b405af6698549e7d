//! The entry of a code, of a reply, and of what a text asks for.
ghost use Rattle.std.specs.Prelude.{◌≡◌, Some, IfSome, is_some, option_map, position, true};
ghost use Rattle.std.specs.List.{before_first};
ghost use Rattle.std.specs.Str.{str_eq_ignore_ascii_case};
ghost use Rattle.refusal_texts.specs.Codes.{has_entry, has_entry_like};
ghost use Rattle.refusal_texts.specs.Replies.{code_asked, code_of, ends_word, is_some_with};
ghost use Rattle.refusal_texts.specs.Tables.{first_like, first_with};

use crate::{Refusal, faults, refusals};

/// The entry of this code, or `None` where there is none. Takes time linear in the tables.
pub fn refusal_named(code: &str) -> Option<&'static Refusal>
    ensures code { IfSome result (λ refusal. refusal.now.code.now ≡ code.now) }
    ensures listed { is_some result ≡ has_entry code.now }
{
    entry_of(code.as_bytes())
}

/// The entry of the code that a reply tells: it stands behind `refused `, up to the next space or newline, or the end.
/// `None` where the reply doesn't begin so, or the code has no entry. What later lines tell isn't looked at.
pub fn refusal_of_reply(reply: &[u8]) -> Option<&'static Refusal>
    ensures code { IfSome result (λ refusal. code_of reply.now ≡ Some refusal.now.code.now) }
    ensures listed { is_some result ≡ is_some_with has_entry (code_of reply.now) }
{
    match reply.strip_prefix(b"refused ") {
        Some(rest) => entry_of(first_word(rest)),
        None => None,
    }
}

/// The entry that a text asks for: that of the code which it tells as a reply, as `refused S3 Differs part-..`, or else of
/// its first word, as `S3`, in both cases whether the code's letters are capitals or not. `None` where that is no code
/// with an entry. What stands behind it isn't looked at.
pub fn refusal_asked(text: &str) -> Option<&'static Refusal>
    ensures code { IfSome result (λ refusal. str_eq_ignore_ascii_case refusal.now.code.now (code_asked text.now) ≡ true) }
    ensures listed { is_some result ≡ has_entry_like (code_asked text.now) }
{
    entry_like(code_asked(text.as_bytes()))
}

/// The code that a text asks for.
fn code_asked(text: &[u8]) -> &[u8]
    ensures { result.now ≡ code_asked text.now }
{
    match text.strip_prefix(b"refused ") {
        Some(rest) => first_word(rest),
        None => first_word(text),
    }
}

/// What stands in front of the first space or newline, or all of it.
fn first_word(text: &[u8]) -> &[u8]
    ensures { result.now ≡ before_first ends_word text.now }
{
    match word_end(text) {
        Some(end) => &text[..end],
        None => text,
    }
}

/// The place of the first space or newline.
fn word_end(text: &[u8]) -> Option<usize>
    ensures { result ≡ position ends_word text.now }
{
    text.iter().position(|byte| *byte == b' ' || *byte == b'\n')
}

/// The entry of this code, in the first table or else in the second.
fn entry_of(code: &[u8]) -> Option<&'static Refusal>
    ensures code { IfSome result (λ refusal. refusal.now.code.now ≡ code.now) }
    ensures listed { is_some result ≡ has_entry code.now }
{
    first_with(refusals(), code).or(first_with(faults(), code))
}

/// The first of some entries that has this code.
#[tactic(auto, unfolding(crate::specs::Tables::first_with))]
fn first_with<'a>(entries: &'a [Refusal], code: &[u8]) -> Option<&'a Refusal>
    ensures code { IfSome result (λ entry. entry.now.code.now ≡ code.now) }
    ensures first { option_map (λ entry. entry.now) result ≡ first_with code.now entries.now }
{
    entries.iter().find(|entry| entry.code.as_bytes() == code)
}

/// The entry of a code whose letters may be capitals or not, in the first table or else in the second.
fn entry_like(code: &[u8]) -> Option<&'static Refusal>
    ensures code { IfSome result (λ refusal. str_eq_ignore_ascii_case refusal.now.code.now code.now ≡ true) }
    ensures listed { is_some result ≡ has_entry_like code.now }
{
    first_like(refusals(), code).or(first_like(faults(), code))
}

/// The first of some entries that has this code, whose letters may be capitals or not.
#[tactic(auto, unfolding(crate::specs::Tables::first_like))]
fn first_like<'a>(entries: &'a [Refusal], code: &[u8]) -> Option<&'a Refusal>
    ensures code { IfSome result (λ entry. str_eq_ignore_ascii_case entry.now.code.now code.now ≡ true) }
    ensures first { option_map (λ entry. entry.now) result ≡ first_like code.now entries.now }
{
    entries
        .iter()
        .find(|entry| entry.code.as_bytes().eq_ignore_ascii_case(code))
}
