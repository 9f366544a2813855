//! An operator's order as one line of text: its word and its fields, with one blank between any two, and its
//! token last.
ghost use Rattle.std.specs.Prelude.{◌≡◌, IfErr, IfOk, map, option_map};
ghost use Rattle.wgr_words.specs.Asked.{network_asked};
ghost use Rattle.wgr_words.specs.Line.{IsUnspelled, SpellsOrder, line_asked, line_in, one_field, seven_fields, three_fields, two_fields, words_in};

use crate::field::{WordFault, WordField};
use crate::order::order_of_line;
use crate::words::{NetworkWords, OrderWords};
use std::alloc::{AllocError, Global};
use std::str;
use wgr_orders::Order;

/// The most bytes of an order's line, with its newline.
pub const LINE_MOST: usize = 4096;

/// The words of an order, and its token, which is empty if the line has none.
#[derive(Clone, Copy)]
pub struct OrderLine<'a> {
    pub words: OrderWords<'a>,
    pub token: &'a str,
}

/// Why a line spells no order.
#[derive(Clone, Copy, Debug, PartialEq, Eq)]
pub enum LineFault {
    /// It is no text, or its words are no order's.
    NoOrder,
    /// The first malformed field.
    Field(WordField),
    /// Memory was refused.
    NoMemory,
}

impl From<AllocError> for LineFault {
    ghost use Rattle.std.specs.Prelude.{◌≡◌};
    ghost use Rattle.wgr_words.specs.declared.line.LineFault.TheVariants.{NoMemory};

    ghost from_gives = { λ _ r. r ≡ NoMemory };

    fn from(_: AllocError) -> LineFault {
        LineFault::NoMemory
    }
}

/// The order that a line spells, given without its newline.
pub fn order_in(alloc: Global, line: &[u8]) -> Result<Order, LineFault>
    ensures ok { IfOk result (SpellsOrder line.now) }
    ensures err { IfErr result (IsUnspelled line.now) }
{
    let Ok(text) = str::from_utf8(line) else {
        return Err(LineFault::NoOrder);
    };
    let Some(found) = read_line(alloc, text)? else {
        return Err(LineFault::NoOrder);
    };
    match order_of_line(alloc, &found) {
        Ok(order) => Ok(order),
        Err(WordFault::Field(field)) => Err(LineFault::Field(field)),
        Err(_) => Err(LineFault::NoMemory),
    }
}

/// The words of a line without its newline, where they are an order's. No field's form is checked.
pub fn read_line<'a>(alloc: Global, text: &'a str) -> Result<Option<OrderLine<'a>>, AllocError>
    ensures { IfOk result (λ found. option_map line_asked found ≡ line_in (words_in text.now)) }
{
    let words: Vec<&str> = text.split(' ').collect(alloc)?;
    Ok(line_of(&words))
}

// The order of these words, where they are an order's.
fn line_of<'a>(words: &[&'a str]) -> Option<OrderLine<'a>>
    ensures { option_map line_asked result ≡ line_in (map (λ word. word.now) words.now) }
{
    match words {
        [word, field] => one_field(word, field),
        [word, first, second] => two_fields(word, first, second),
        [word, first, second, third] => three_fields(word, first, second, third),
        [word, tenant, name, pool, host, port, key, capacity] => {
            let words = NetworkWords {
                tenant,
                name,
                pool,
                host,
                port,
                key,
                capacity,
            };
            seven_fields(word, words)
        }
        _ => None,
    }
}

fn one_field<'a>(word: &str, field: &'a str) -> Option<OrderLine<'a>>
    ensures { option_map line_asked result ≡ one_field word.now field.now }
{
    match word {
        "tenant-add" => Some(OrderLine {
            words: OrderWords::TenantAdd { name: field },
            token: "",
        }),
        "token-end" => Some(OrderLine {
            words: OrderWords::TokenEnd,
            token: field,
        }),
        _ => None,
    }
}

fn two_fields<'a>(word: &str, first: &'a str, second: &'a str) -> Option<OrderLine<'a>>
    ensures { option_map line_asked result ≡ two_fields word.now first.now second.now }
{
    match word {
        "token-grant" => Some(OrderLine {
            words: OrderWords::TokenGrant {
                tenant: first,
                right: None,
            },
            token: second,
        }),
        "network-end" => Some(OrderLine {
            words: OrderWords::NetworkEnd {
                tenant: first,
                name: second,
            },
            token: "",
        }),
        "token-end" if first == "--digest" => Some(OrderLine {
            words: OrderWords::DigestEnd { digest: second },
            token: "",
        }),
        _ => None,
    }
}

fn three_fields<'a>(
    word: &str,
    first: &'a str,
    second: &'a str,
    third: &'a str,
) -> Option<OrderLine<'a>>
    ensures { option_map line_asked result ≡ three_fields word.now first.now second.now third.now }
{
    match word {
        "token-grant" => Some(OrderLine {
            words: OrderWords::TokenGrant {
                tenant: first,
                right: Some(second),
            },
            token: third,
        }),
        _ => None,
    }
}

fn seven_fields<'a>(word: &str, words: NetworkWords<'a>) -> Option<OrderLine<'a>>
    ensures { option_map line_asked result ≡ seven_fields word.now (network_asked words.entry) }
{
    match word {
        "network-add" => Some(OrderLine {
            words: OrderWords::NetworkAdd(words),
            token: "",
        }),
        _ => None,
    }
}
