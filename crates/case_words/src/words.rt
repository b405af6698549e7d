//! The words and numbers of a line.

ghost use Rattle.std.specs.Prelude.{◌<◌, ◌≤◌, ◌^◌};

use crate::transcript::Transcript;

/// The first word of a line, and what stands behind the space that ends it.
pub fn head(line: &str) -> (&str, &str) {
    line.split_once(' ').unwrap_or((line, ""))
}

/// What a commit reads besides its own, as words name it: ids of applications, each by `application=ID`, and names of
/// domains, each by `domain=NAME`.
pub fn reads_of(words: &str, told: &mut Transcript) -> (Vec<String>, Vec<String>) {
    let mut applications = Vec::new(told.alloc);
    let mut domains = Vec::new(told.alloc);
    for word in words.split(' ') {
        if let Some(id) = word.strip_prefix("application=") {
            let id = told.copy_of(id);
            told.note(applications.push(id));
        } else if let Some(name) = word.strip_prefix("domain=") {
            let name = told.copy_of(name);
            told.note(domains.push(name));
        } else if !word.is_empty() {
            told.misspelled();
        }
    }
    (applications, domains)
}

impl Transcript {
    /// The first word of a line that has a space, and what stands behind it.
    pub fn halves<'a>(&mut self, line: &'a str) -> (&'a str, &'a str) {
        match line.split_once(' ') {
            Some(parts) => parts,
            None => {
                self.misspelled();
                (line, "")
            }
        }
    }

    /// The number that a word spells.
    pub fn number(&mut self, word: &str) -> u64 {
        match word.parse::<u64>() {
            Ok(number) => number,
            Err(_error) => {
                self.misspelled();
                0
            }
        }
    }

    /// The number from 1 on that a word spells.
    pub fn count(&mut self, word: &str) -> u64
        ensures { 1 ≤ result }
    {
        let count = self.number(word);
        if count == 0 {
            self.misspelled();
            return 1;
        }
        count
    }

    /// The moment that a word spells, in milliseconds.
    pub fn moment(&mut self, word: &str) -> u64
        ensures { result < 2 ^ 63 }
    {
        let at = self.number(word);
        if at < 1 << 63 {
            return at;
        }
        self.misspelled();
        0
    }

    /// A copy of a text.
    pub fn copy_of(&mut self, text: &str) -> String {
        match String::from_str(self.alloc, text) {
            Ok(copy) => copy,
            Err(_error) => {
                self.lacks_memory();
                String::new(self.alloc)
            }
        }
    }

    /// A copy of bytes.
    pub fn bytes_of(&mut self, bytes: &[u8]) -> Vec<u8> {
        match bytes.to_vec(self.alloc) {
            Ok(copy) => copy,
            Err(_error) => {
                self.lacks_memory();
                Vec::new(self.alloc)
            }
        }
    }
}
