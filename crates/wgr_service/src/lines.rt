//! Orders that come as lines: carries one out, and writes how it ended as a line.
ghost use Rattle.std.specs.Prelude.{◌≡◌, ◌++◌, codes, flat_map, true, OnErr, OnOk};
ghost use Rattle.std.specs.Io.KnownBytes.{Appends};
ghost use Rattle.wgr_orders.specs.Orders.{refusal_of};
ghost use Rattle.wgr_orders.specs.RefusalTexts.{refusal_text};
ghost use Rattle.wgr_io.specs.Device.{IsCut};
ghost use Rattle.wgr_service.specs.Lines.{EndsLine, end_status, end_text, is_end_available};

use crate::parts::write_parts;
use sqlite::Alter;
use std::alloc::Global;
use wgr_io::{Write, WriteFault};
use wgr_office::Office;
use wgr_orders::OrderRefusal;
use wgr_register::{Done, Fault, OrderFault};
use wgr_words::{LineFault, order_in};

/// How a line ended.
#[derive(Drop)]
pub enum LineEnd {
    /// The order that it spells was carried out, or not.
    Ended(Result<Done, OrderFault>),
    /// It spells no order, and nothing was done.
    Unspelled(LineFault),
}

impl LineEnd {
    /// The exit status that the same order has as a command: 0 for one that was done, 1 where memory or the
    /// store failed, and 2 for one that was refused or isn't spelled.
    pub fn status(&self) -> u8
        ensures { result ≡ end_status self.now }
    {
        match self {
            LineEnd::Ended(Ok(_)) => 0,
            LineEnd::Ended(Err(OrderFault::Fault(_))) | LineEnd::Unspelled(LineFault::NoMemory) =>
                1,
            LineEnd::Ended(Err(OrderFault::Refused(_))) | LineEnd::Unspelled(_) => 2,
        }
    }

    // Whether neither memory nor the store failed.
    pub(crate) fn is_available(&self) -> bool
        ensures { result ≡ is_end_available self.now }
    {
        !matches!(
            self,
            LineEnd::Ended(Err(OrderFault::Fault(_))) | LineEnd::Unspelled(LineFault::NoMemory)
        )
    }
}

/// Carries out the order that a line spells; the line is without its newline. One that spells no order does
/// nothing.
pub fn carry_out_line<S: Alter>(alloc: Global, office: &mut Office<S>, line: &[u8]) -> LineEnd
    ensures { EndsLine S.Store office.old office.new line.now result }
{
    match order_in(alloc, line) {
        Ok(order) => LineEnd::Ended(office.operate(alloc, &order)),
        Err(why) => LineEnd::Unspelled(why),
    }
}

/// Writes how a line ended, as a line: the exit status of the same order given as a command, and the text
/// that it prints.
pub fn write_line_end<W: Write>(end: &LineEnd, out: &mut W) -> Result<(), WriteFault>
    ensures ok { OnOk result (Appends (W.contents out.old) (W.contents out.new) (end_text end.now)) }
    ensures sound { OnOk result (W.failed out.new ≡ W.failed out.old) }
    ensures cut { OnErr result (IsCut (W.contents out.old) (W.contents out.new) (end_text end.now)) }
    ensures failed { OnErr result (W.failed out.new ≡ true) }
{
    write_parts(&end_parts(end), out)
}

// Where a line has no further part.
const NO_PART: &[u8] = b"";

// The parts of the line, one after the other.
fn end_parts<'a>(end: &'a LineEnd) -> [&'a [u8]; 7]
    ensures { flat_map (λ part. part.now) result ≡ end_text end.now }
{
    let (first, name, last): (&[u8], &'a [u8], &[u8]) = match end {
        LineEnd::Ended(Err(OrderFault::Refused(why))) => return refusal_parts(why),
        LineEnd::Ended(Ok(_)) => (b"0 done\n", b"", b""),
        LineEnd::Ended(Err(OrderFault::Fault(Fault::NoMemory))) => (b"1 no_memory\n", b"", b""),
        LineEnd::Ended(Err(OrderFault::Fault(Fault::Store(_)))) => (b"1 store\n", b"", b""),
        LineEnd::Unspelled(LineFault::NoOrder) => (b"2 bad_order\n", b"", b""),
        LineEnd::Unspelled(LineFault::Field(field)) => (
            b"2 bad_field ",
            field.name().as_bytes(),
            b"\n",
        ),
        LineEnd::Unspelled(LineFault::NoMemory) => (b"1 no_memory\n", b"", b""),
    };
    [first, name, last, NO_PART, NO_PART, NO_PART, NO_PART]
}

// The parts of a refusal's line: its name, and what comes after it.
fn refusal_parts<'a>(why: &'a OrderRefusal) -> [&'a [u8]; 7]
    ensures { flat_map (λ part. part.now) result ≡ codes "2 " ++ refusal_text (refusal_of why.now) ++ codes "\n" }
{
    let name: &'a [u8] = why.name().as_bytes();
    match why {
        OrderRefusal::PoolOverlaps { tenant, network } => {
            let tenant: &'a [u8] = tenant.as_bytes();
            let network: &'a [u8] = network.as_bytes();
            [b"2 ", name, b" ", tenant, b" ", network, b"\n"]
        }
        _ => [b"2 ", name, b"\n", NO_PART, NO_PART, NO_PART, NO_PART],
    }
}
