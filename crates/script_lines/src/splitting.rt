//! A text of a script, split at its first newline.
ghost use Rattle.std.specs.Prelude.{◌≡◌, ◌<◌, ◌∷◌, length, position, option_map, IfSome};
ghost use Rattle.delta_actions.specs.Commit.{lines_of};
ghost use Rattle.script_lines.specs.Splitting.{lines_left, is_newline};

fn newline_in(text: &[u8]) -> Option<usize>
    ensures { result ≡ position is_newline text.now }
{
    text.iter().position(|byte| *byte == b'\n')
}

/// The first line of a text, without its newline, and the text behind that newline, or `None` where the line is the
/// text's last. Behind a newline that ends the text stands one more line, which is empty.
///
/// Time is linear in the first line.
pub fn first_line(text: &[u8]) -> (&[u8], Option<&[u8]>)
    // The line and the lines of the text behind it are the lines of the text.
    ensures lines { lines_of text.now ≡ result.0.now ∷ lines_left (option_map (λ after. after.now) result.1) }
    ensures shorter { IfSome result.1 (λ after. length after.now < length text.now) }
{
    match newline_in(text) {
        Some(at) => (&text[..at], Some(&text[at + 1..])),
        None => (text, None),
    }
}
