// The lines of a text.
ghost use Rattle.std.specs.Prelude.{◌≡◌, ⊤};
ghost use Rattle.std.specs.Iterator.{MakesProgress};
ghost use Rattle.text.specs.Words.{pointed};
ghost use Rattle.text.specs.Lines.{text_left, next_line, behind_line, lines_most, TakesLine};

use crate::words::split;

// The lines of a text that are left. A line ends by a newline, which the last may lack.
#[derive(Drop)]
pub struct Lines<'a> {
    pub rest: &'a [u8],
}

impl<'a> From<&'a [u8]> for Lines<'a> {
    ghost from_gives = { λ text lines. text_left lines ≡ text.now };

    // All lines of a text.
    fn from(text: &'a [u8]) -> Lines<'a> {
        Lines { rest: text }
    }
}

impl<'a> Iterator for Lines<'a> {
    type Item = &'a [u8];

    ghost next_gives = { TakesLine };

    ghost remaining = { lines_most };

    // The next line, without its newline.
    fn next(&mut self) -> Option<&'a [u8]>
        ensures line { pointed result ≡ next_line (text_left self.old) }
        ensures left { text_left self.new ≡ behind_line (text_left self.old) }
        ensures goes { MakesProgress (λ _. ⊤) lines_most self.old result self.new }
    {
        if self.rest.is_empty() {
            return None;
        }
        let (line, behind) = split(self.rest, b'\n');
        self.rest = behind.unwrap_or(&[]);
        Some(line)
    }
}
