//! A text line by line. It knows nothing of what lines say, but which begin a case.

/// The lines of a text that weren't taken yet.
#[derive(Drop)]
pub struct Lines<'a> {
    rest: Option<&'a str>,
    number: usize,
}

impl<'a> Lines<'a> {
    /// All lines of a text.
    pub fn new(text: &'a str) -> Lines<'a> {
        Lines {
            rest: Some(text),
            number: 0,
        }
    }

    /// The number of the line that was taken last, from 1 on.
    pub fn number(&self) -> usize {
        self.number
    }

    /// Whether the next line begins a case.
    pub fn begins_case(&self) -> bool {
        match self.rest {
            Some(text) => text.starts_with("case "),
            None => false,
        }
    }

    /// Takes the next line. What is passed over is an empty one.
    pub fn take(&mut self) -> Option<&'a str> {
        let text = self.rest?;
        self.number = self.number.saturating_add(1);
        let line = match text.split_once('\n') {
            Some((line, rest)) => {
                self.rest = Some(rest);
                line
            }
            None => {
                self.rest = None;
                text
            }
        };
        Some(if line.starts_with('#') { "" } else { line })
    }
}
