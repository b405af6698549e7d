//! Which lines need a world.
ghost use Rattle.std.specs.Prelude.{◌≡◌};
ghost use Rattle.world_script.specs.Words.{needs_world, is_of_actors};

use script_lines::first_line;

/// Whether a line begins with the word of an actor's line, of a put in flight or of a fault.
fn is_of_actors(line: &[u8]) -> bool
    ensures { result ≡ is_of_actors line.now }
{
    line.starts_with(b"fault ")
        || line.starts_with(b"start ")
        || line.starts_with(b"until ")
        || line.starts_with(b"step ")
        || line.starts_with(b"finish ")
        || line.starts_with(b"die ")
        || line.starts_with(b"land ")
}

/// Whether a text has a line of actors, of a put in flight or of a fault, spelled well or not. Takes time linear in the
/// text.
pub fn needs_world(text: &[u8]) -> bool
    ensures { result ≡ needs_world text.now }
{
    let mut rest = Some(text);
    while let Some(text) = rest {
        let (line, after) = first_line(text);
        if is_of_actors(line) {
            return true;
        }
        rest = after;
    }
    false
}
