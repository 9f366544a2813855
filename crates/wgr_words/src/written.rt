//! A line, written from its words.
ghost use Rattle.std.specs.Prelude.{◌≡◌, ◌∷◌, ◌++◌, OnErr, OnOk, length, map, nat_le, true};
ghost use Rattle.std.specs.Io.KnownBytes.{Appends};
ghost use Rattle.std.specs.List.{join_with_byte, list_all};
ghost use Rattle.wgr_io.specs.Device.{IsCut};
ghost use Rattle.wgr_words.specs.Line.{is_inside, is_line, is_word, line_text};

use crate::line::LINE_MOST;
use wgr_io::{Write, WriteFault, write_all};

/// Writes the words with one blank between any two, and a newline.
///
/// `sent` of a fault counts bytes of the piece that failed alone: of a word, of a blank or of the newline.
pub fn write_line<W: Write>(out: &mut W, words: &[&str]) -> Result<(), WriteFault>
    ensures ok { OnOk result (Appends (W.contents out.old) (W.contents out.new) (line_text (map (λ word. word.now) words.now))) }
    ensures sound { OnOk result (W.failed out.new ≡ W.failed out.old) }

    ensures cut { OnErr result (IsCut (W.contents out.old) (W.contents out.new) (line_text (map (λ word. word.now) words.now))) }
    ensures failed { OnErr result (W.failed out.new ≡ true) }
{
    if let Some((first, rest)) = words.split_first() {
        write_words(out, first, rest)?;
    }
    write_all(out, b"\n")
}

// Writes these words with one blank between any two.
fn write_words<W: Write>(out: &mut W, first: &str, rest: &[&str]) -> Result<(), WriteFault>
    ensures ok { OnOk result (Appends (W.contents out.old) (W.contents out.new) (join_with_byte 32 (first.now ∷ map (λ word. word.now) rest.now))) }
    ensures sound { OnOk result (W.failed out.new ≡ W.failed out.old) }

    ensures cut { OnErr result (IsCut (W.contents out.old) (W.contents out.new) (join_with_byte 32 (first.now ∷ map (λ word. word.now) rest.now))) }
    ensures failed { OnErr result (W.failed out.new ≡ true) }
{
    write_all(out, first.as_bytes())?;
    for word in rest {
        write_next(out, word)?;
    }
    Ok(())
}

// Writes a blank and the word.
fn write_next<W: Write>(out: &mut W, word: &str) -> Result<(), WriteFault>
    ensures ok { OnOk result (Appends (W.contents out.old) (W.contents out.new) (32 ∷ word.now)) }
    ensures sound { OnOk result (W.failed out.new ≡ W.failed out.old) }

    ensures cut { OnErr result (IsCut (W.contents out.old) (W.contents out.new) (32 ∷ word.now)) }
    ensures failed { OnErr result (W.failed out.new ≡ true) }
{
    write_all(out, b" ")?;
    write_all(out, word.as_bytes())
}

/// Whether the words can be a line: there is one, none is empty or has a blank or a newline, and the line with
/// its newline has at most 4,096 bytes.
pub fn is_line(words: &[&str]) -> bool
    ensures { result ≡ is_line (map (λ word. word.now) words.now) }
{
    if words.is_empty() {
        return false;
    }
    if !are_words(words) {
        return false;
    }
    is_short(words)
}

fn are_words(words: &[&str]) -> bool
    ensures { result ≡ list_all (λ word. is_word word.now) words.now }
{
    words.iter().all(|word| is_word(word))
}

fn is_word(word: &str) -> bool
    ensures { result ≡ is_word word.now }
{
    !word.is_empty() && has_no_break(word.as_bytes())
}

// Whether there is neither a blank nor a newline.
fn has_no_break(text: &[u8]) -> bool
    ensures { result ≡ list_all is_inside text.now }
{
    text.iter().all(|byte| *byte != b' ' && *byte != b'\n')
}

// Whether the line has at most 4,096 bytes.
fn is_short(words: &[&str]) -> bool
    ensures { result ≡ nat_le (length (line_text (map (λ word. word.now) words.now))) LINE_MOST }
{
    let mut left = LINE_MOST;
    for word in words {
        if word.len() >= left {
            return false;
        }
        left -= word.len() + 1;
    }
    true
}
