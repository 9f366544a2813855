//! The lines of a text: a newline ends a line and is no part of it.
ghost use Rattle.std.specs.Prelude.{◌≡◌, ◌==◌, ◌<◌, ◌∷◌, [], length, position, ◌⊎◌};
ghost use Rattle.std.specs.Iterator.{YieldsFirstRef, item_count};
ghost use Rattle.wgr_text.specs.Lines.{lines_of, lines_or_one};

/// The remaining lines of a text. What follows the last newline is a line, unless
/// it is empty. It allocates no memory.
#[derive(Drop)]
pub struct TextLines<'a> {
    pub rest: &'a [u8],
}

impl<'a> TextLines<'a> {
    /// All lines of `text`.
    pub fn new(text: &'a [u8]) -> TextLines<'a>
        ensures { result.rest ≡ text.entry }
    {
        TextLines { rest: text }
    }
}

impl<'a> Iterator for TextLines<'a> {
    type Item = &'a [u8];

    ghost next_gives = { YieldsFirstRef (λ s. lines_of s.rest.now) };

    ghost remaining = { item_count (λ s. lines_of s.rest.now) };

    fn next(&mut self) -> Option<&'a [u8]> {
        if self.rest.is_empty() {
            return None;
        }
        let (line, rest) = first_line(self.rest);
        self.rest = rest;
        Some(line)
    }
}

/// The first line of a text and what follows its newline. The empty text has one empty line.
pub fn first_line(text: &[u8]) -> (&[u8], &[u8])
    ensures line { lines_or_one text.now ≡ result.0.now ∷ lines_of result.1.now }
    ensures shorter { (length result.1.now < length text.now) ⊎ (result.1.now ≡ []) }
{
    match newline(text) {
        Some(end) => (&text[..end], &text[end + 1..]),
        None => (text, &[]),
    }
}

/// The place of the first newline.
pub fn newline(text: &[u8]) -> Option<usize>
    ensures { result ≡ position (λ byte. byte == 10) text.now }
{
    text.iter().position(|byte| *byte == b'\n')
}

#[cfg(test)]
mod tests;
