// Lines, words and decimal numbers in bytes.
ghost use Rattle.std.specs.Prelude.{◌≡◌, ⊤, Some};
ghost use Rattle.std.specs.Str.{bytes_eq};
ghost use Rattle.text.specs.Words.{count_before, front_of, rest_of, number_of, pointed, line_left, next_word, behind_word, number_if, up_to, at_end, words_most, TakesWord};
ghost use Rattle.std.specs.Iterator.{MakesProgress};

// How many bytes stand before the first mark; all of them where there is none.
fn before(bytes: &[u8], mark: u8) -> usize
    ensures { result ≡ count_before mark bytes.now }
{
    bytes.iter().position(|b| *b == mark).unwrap_or(bytes.len())
}

// What stands before the first mark, and what stands behind it, if there is a mark.
pub fn split(bytes: &[u8], mark: u8) -> (&[u8], Option<&[u8]>)
    ensures front { result.0.now ≡ front_of mark bytes.now }
    ensures behind { pointed result.1 ≡ rest_of mark bytes.now }
{
    let (front, behind) = bytes.split_at(before(bytes, mark));
    (front, behind.get(1..))
}

// The number that decimal digits write, if it fits.
pub fn number(word: &[u8]) -> Option<u32>
    ensures { result ≡ number_of word.now }
{
    if word.is_empty() {
        return None;
    }
    let mut n = 0u32;
    for digit in word {
        if !digit.is_ascii_digit() {
            return None;
        }
        n = n.checked_mul(10)?.checked_add(u32::from(*digit - b'0'))?;
    }
    Some(n)
}

// The words of a line that are left; None where the last was taken.
#[derive(Drop)]
pub struct Words<'a> {
    pub rest: Option<&'a [u8]>,
}

impl<'a> From<&'a [u8]> for Words<'a> {
    ghost from_gives = { λ line words. line_left words ≡ Some line.now };

    // All words of a line.
    fn from(line: &'a [u8]) -> Words<'a> {
        Words { rest: Some(line) }
    }
}

impl<'a> Iterator for Words<'a> {
    type Item = &'a [u8];

    ghost next_gives = { TakesWord };

    ghost remaining = { words_most };

    // The next word.
    fn next(&mut self) -> Option<&'a [u8]>
        ensures word { pointed result ≡ next_word (line_left self.old) }
        ensures left { line_left self.new ≡ behind_word (line_left self.old) }
        ensures goes { MakesProgress (λ _. ⊤) words_most self.old result self.new }
    {
        let (word, rest) = split(self.rest?, b' ');
        self.rest = rest;
        Some(word)
    }
}

impl<'a> Words<'a> {
    // A number from 0 to 4,294,967,295.
    pub fn number(&mut self) -> Option<u32>
        ensures value { result ≡ number_if (next_word (line_left self.old)) }
        ensures left { line_left self.new ≡ behind_word (line_left self.old) }
    {
        number(self.next()?)
    }

    // A number from 0 to 65,535.
    pub fn short(&mut self) -> Option<u16>
        ensures value { result ≡ up_to 65535 (number_if (next_word (line_left self.old))) }
        ensures left { line_left self.new ≡ behind_word (line_left self.old) }
    {
        u16::try_from(self.number()?).ok()
    }

    // A number from 0 to 255.
    pub fn byte(&mut self) -> Option<u8>
        ensures value { result ≡ up_to 255 (number_if (next_word (line_left self.old))) }
        ensures left { line_left self.new ≡ behind_word (line_left self.old) }
    {
        u8::try_from(self.number()?).ok()
    }

    // Nothing, where no word is left.
    pub fn end(&self) -> Option<()>
        ensures { result ≡ at_end (line_left self.now) }
    {
        self.rest.is_none().then_some(())
    }
}

// Whether the word is this text.
pub fn is(word: &[u8], text: &str) -> bool
    ensures { result ≡ bytes_eq word.now text.now }
{
    word == text.as_bytes()
}
