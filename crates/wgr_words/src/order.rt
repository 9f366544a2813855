//! The order that a command's words and a token spell.
ghost use Rattle.std.specs.Prelude.{◌≡◌, ℕ, List, IfErr, IfOk, false};
ghost use Rattle.wgr_words.specs.Asked.{NetworkAdd, network_asked, order_asked};
ghost use Rattle.wgr_words.specs.Line.{line_asked};
ghost use Rattle.wgr_words.specs.Order.{IsDraftFault, IsDraftOf, IsFaultIn, MakesOrder, OrdersBy, TakesDigest, order_fields, input_of, wants_token};

use crate::field::{
    WordFault, WordField, read_capacity_field, read_digest, read_host, read_key, read_name,
    read_pool, read_port_field, read_right, read_token,
};
use crate::line::OrderLine;
use crate::words::{NetworkWords, OrderWords};
use std::alloc::Global;
use wgr_core::Name;
use wgr_io::{Read, ReadFault, read_to_end};
use wgr_orders::{Order, Right, Settings};

/// An order whose token, if it has one, is not read yet.
#[derive(Drop)]
pub(crate) enum OrderDraft {
    Whole(Order),
    Grant { tenant: Name, right: Right },
    EndToken,
}

/// The order that the words and, for a token, the input spell.
///
/// The fields are read in the order of the words, and the token after them: nothing is read from the
/// input if the order has no token or if a field before it is malformed.
pub fn order_of<R: Read>(
    alloc: Global,
    words: &OrderWords<'_>,
    input: &mut R,
) -> Result<Order, WordFault>
    ensures ordered { OrdersBy (order_asked words.now) (input_of R.remaining R.failed input.old) (input_of R.remaining R.failed input.new) result }
    ensures unread { wants_token (order_asked words.now) ≡ false → input.new ≡ input.old }
{
    match draft_of(alloc, words)? {
        OrderDraft::Whole(order) => Ok(order),
        OrderDraft::Grant { tenant, right } => {
            let digest = take_token(alloc, input)?;
            Ok(Order::Grant {
                tenant,
                digest,
                right,
            })
        }
        OrderDraft::EndToken => {
            let digest = take_token(alloc, input)?;
            Ok(Order::EndToken { digest })
        }
    }
}

/// The order that a line's words spell. A fault names the first malformed field, with the token last.
pub(crate) fn order_of_line(alloc: Global, line: &OrderLine<'_>) -> Result<Order, WordFault>
    ensures ok { IfOk result (MakesOrder (line_asked line.now).asked (line_asked line.now).token) }
    ensures err { IfErr result (IsFaultIn (order_fields (line_asked line.now).asked (line_asked line.now).token)) }
{
    match draft_of(alloc, &line.words)? {
        OrderDraft::Whole(order) => Ok(order),
        OrderDraft::Grant { tenant, right } => {
            let digest = read_token(line.token.as_bytes())?;
            Ok(Order::Grant {
                tenant,
                digest,
                right,
            })
        }
        OrderDraft::EndToken => {
            let digest = read_token(line.token.as_bytes())?;
            Ok(Order::EndToken { digest })
        }
    }
}

// The digest of the token that is all of the input.
fn take_token<R: Read>(alloc: Global, input: &mut R) -> Result<[u8; 32], WordFault>
    ensures { TakesDigest (input_of R.remaining R.failed input.old) (input_of R.remaining R.failed input.new) result }
{
    match read_to_end(alloc, input) {
        Ok(text) => read_token(&text),
        Err(ReadFault::NoMemory) => Err(WordFault::NoMemory),
        Err(ReadFault::Device) => Err(WordFault::Device),
    }
}

// What the words spell without the token.
fn draft_of(alloc: Global, words: &OrderWords<'_>) -> Result<OrderDraft, WordFault>
    ensures ok { IfOk result (IsDraftOf (order_asked words.now)) }
    ensures err { IfErr result (IsDraftFault (order_asked words.now)) }
{
    match words {
        OrderWords::TenantAdd { name } => {
            let name = read_name(alloc, WordField::Name, name)?;
            Ok(OrderDraft::Whole(Order::AddTenant { name }))
        }
        OrderWords::TokenGrant { tenant, right } => {
            let tenant = read_name(alloc, WordField::Tenant, tenant)?;
            let right = read_right(*right)?;
            Ok(OrderDraft::Grant { tenant, right })
        }
        OrderWords::TokenEnd => Ok(OrderDraft::EndToken),
        OrderWords::DigestEnd { digest } => {
            let digest = read_digest(digest)?;
            Ok(OrderDraft::Whole(Order::EndToken { digest }))
        }
        OrderWords::NetworkAdd(words) => Ok(OrderDraft::Whole(new_network(alloc, words)?)),
        OrderWords::NetworkEnd { tenant, name } => {
            let tenant = read_name(alloc, WordField::Tenant, tenant)?;
            let name = read_name(alloc, WordField::Name, name)?;
            Ok(OrderDraft::Whole(Order::EndNetwork { tenant, name }))
        }
    }
}

fn new_network(alloc: Global, words: &NetworkWords<'_>) -> Result<Order, WordFault>
    ensures ok { IfOk result (λ order. (token : List ℕ) → MakesOrder (NetworkAdd (network_asked words.now)) token order) }
    ensures err { IfErr result (IsDraftFault (NetworkAdd (network_asked words.now))) }
{
    let tenant = read_name(alloc, WordField::Tenant, words.tenant)?;
    let name = read_name(alloc, WordField::Name, words.name)?;
    let (address, length) = read_pool(words.pool)?;
    let host = read_host(alloc, words.host)?;
    let port = read_port_field(words.port)?;
    let server = read_key(words.key)?;
    let capacity = read_capacity_field(words.capacity)?;
    Ok(Order::AddNetwork {
        tenant,
        name,
        settings: Settings {
            address,
            length,
            host,
            port,
            server,
            capacity,
        },
    })
}
