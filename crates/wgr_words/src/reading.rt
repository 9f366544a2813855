//! A reading as one line of text: its word and its fields, with one blank between any two.
ghost use Rattle.std.specs.Prelude.{◌≡◌, IfOk, map, option_map};
ghost use Rattle.wgr_words.specs.Line.{words_in};
ghost use Rattle.wgr_words.specs.Reading.{read_alone, read_of_one, read_of_two, reading_asked, reading_in, reading_in_line, show_by};

use std::alloc::{AllocError, Global};
use std::str;

/// What an operator asks of a register or of a running service, without changing it.
#[derive(Clone, Copy)]
pub enum Reading<'a> {
    /// Figures of the service.
    Status,
    /// Tenants, networks and digests of tokens: of all tenants or of one, as a table or as JSON.
    Show {
        tenant: Option<&'a str>,
        is_json: bool,
    },
    /// A copy of the register's two files.
    Backup {
        file: &'a str,
    },
}

/// The reading that a line spells, given without its newline. No field's form is checked.
pub fn reading_in<'a>(alloc: Global, line: &'a [u8]) -> Result<Option<Reading<'a>>, AllocError>
    ensures { IfOk result (λ found. option_map reading_asked found ≡ reading_in_line line.now) }
{
    match str::from_utf8(line) {
        Ok(text) => read_text(alloc, text),
        Err(_) => Ok(None),
    }
}

fn read_text<'a>(alloc: Global, text: &'a str) -> Result<Option<Reading<'a>>, AllocError>
    ensures { IfOk result (λ found. option_map reading_asked found ≡ reading_in (words_in text.now)) }
{
    let words: Vec<&str> = text.split(' ').collect(alloc)?;
    Ok(reading_of(&words))
}

// The reading of these words.
fn reading_of<'a>(words: &[&'a str]) -> Option<Reading<'a>>
    ensures { option_map reading_asked result ≡ reading_in (map (λ word. word.now) words.now) }
{
    match words {
        [word] => alone(word),
        [word, field] => of_one(word, field),
        [word, tenant, option] => of_two(word, tenant, option),
        _ => None,
    }
}

fn alone<'a>(word: &str) -> Option<Reading<'a>>
    ensures { option_map reading_asked result ≡ read_alone word.now }
{
    match word {
        "status" => Some(Reading::Status),
        "show" => Some(Reading::Show {
            tenant: None,
            is_json: false,
        }),
        _ => None,
    }
}

fn of_one<'a>(word: &str, field: &'a str) -> Option<Reading<'a>>
    ensures { option_map reading_asked result ≡ read_of_one word.now field.now }
{
    match word {
        "show" => Some(show(field)),
        "backup" => Some(Reading::Backup { file: field }),
        _ => None,
    }
}

// A tenant's name, or the option alone.
fn show<'a>(field: &'a str) -> Reading<'a>
    ensures { reading_asked result ≡ show_by field.now }
{
    match field {
        "--json" => Reading::Show {
            tenant: None,
            is_json: true,
        },
        _ => Reading::Show {
            tenant: Some(field),
            is_json: false,
        },
    }
}

fn of_two<'a>(word: &str, tenant: &'a str, option: &str) -> Option<Reading<'a>>
    ensures { option_map reading_asked result ≡ read_of_two word.now tenant.now option.now }
{
    if word != "show" || option != "--json" {
        return None;
    }
    Some(Reading::Show {
        tenant: Some(tenant),
        is_json: true,
    })
}
