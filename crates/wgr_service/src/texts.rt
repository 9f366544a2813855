//! Orders in the lines of a text, carried out in turn.
ghost use Rattle.std.specs.Prelude.{◌≡◌, ◌++◌, ◌<◌, ◌∷◌, flat_map, length, option_map, true, IfOk, List, OnErr, OnOk, Option};
ghost use Rattle.std.specs.Io.KnownBytes.{Appends};
ghost use Rattle.sqlite.specs.Held.{state};
ghost use Rattle.sqlite.specs.State.{HasCleanDisk};
ghost use Rattle.wgr_model.specs.Register.{Bytes};
ghost use Rattle.wgr_io.specs.Device.{IsCut};
ghost use Rattle.wgr_service.specs.Lines.{end_status, end_text};
ghost use Rattle.wgr_service.specs.Texts.{EndsInput, HasCarriedOut, IsCutAtLast, greatest, lines_in};
ghost use Rattle.wgr_service.specs.declared.lines.LineEnd.{LineEnd};

use crate::lines::{LineEnd, carry_out_line, write_line_end};
use sqlite::Alter;
use std::alloc::Global;
use wgr_io::{Write, WriteFault};
use wgr_model::laws::rows_are_isolated;
use wgr_office::Office;
use wgr_text::newline;
use wgr_words::LineFault;

/// Carries out the orders in the lines of a text in turn, and writes how each ended, as a line. What comes
/// after the last newline is no order.
///
/// Returns the greatest of the lines' statuses. After a failed write no further line is carried out.
pub fn carry_out_text<S: Alter, W: Write>(
    alloc: Global,
    office: &mut Office<S>,
    text: &[u8],
    out: &mut W,
) -> Result<u8, WriteFault>
    ensures clean { HasCleanDisk (state S.Store office.new) → HasCleanDisk (state S.Store office.old) }
    ensures carried { IfOk result (λ status. (ends : List LineEnd) × HasCarriedOut S.Store office.old office.new (lines_in text.now) ends × Appends (W.contents out.old) (W.contents out.new) (flat_map end_text ends) × (status ≡ greatest ends)) }
    ensures sound { OnOk result (W.failed out.new ≡ W.failed out.old) }
    ensures failed { OnErr result (W.failed out.new ≡ true) }
    ensures cut { OnErr result ((taken : List (Option Bytes)) × (rest : List (Option Bytes)) × (ends : List LineEnd) × (lines_in text.now ≡ taken ++ rest) × HasCarriedOut S.Store office.old office.new taken ends × IsCutAtLast (W.contents out.old) (W.contents out.new) ends) }
{
    rows_are_isolated();
    let mut status = 0;
    let mut rest = text;
    while !rest.is_empty() {
        let (line, after) = split_line(rest);
        let ended = carry_out_next(alloc, office, line, out)?;
        status = status.max(ended);
        rest = after;
    }
    Ok(status)
}

// The first line of a text without its newline, and what comes after it. Without a newline there is none.
fn split_line(text: &[u8]) -> (Option<&[u8]>, &[u8])
    ensures lines { 0 < length text.now → lines_in text.now ≡ option_map (λ line. line.now) result.0 ∷ lines_in result.1.now }
    ensures shorter { 0 < length text.now → length result.1.now < length text.now }
{
    match newline(text) {
        Some(end) => (Some(&text[..end]), &text[end + 1..]),
        None => (None, &[]),
    }
}

// Carries out the next line, and writes how it ended. Returns its status.
fn carry_out_next<S: Alter, W: Write>(
    alloc: Global,
    office: &mut Office<S>,
    line: Option<&[u8]>,
    out: &mut W,
) -> Result<u8, WriteFault>
    ensures carried { IfOk result (λ status. (end : LineEnd) × EndsInput S.Store office.old office.new (option_map (λ line. line.now) line.entry) end × Appends (W.contents out.old) (W.contents out.new) (end_text end) × (status ≡ end_status end)) }
    ensures sound { OnOk result (W.failed out.new ≡ W.failed out.old) }
    ensures failed { OnErr result (W.failed out.new ≡ true) }
    ensures cut { OnErr result ((end : LineEnd) × EndsInput S.Store office.old office.new (option_map (λ line. line.now) line.entry) end × IsCut (W.contents out.old) (W.contents out.new) (end_text end)) }
{
    let end = end_line(alloc, office, line);
    write_line_end(&end, out)?;
    Ok(end.status())
}

// Carries out a line. One that is unfinished is no order.
fn end_line<S: Alter>(alloc: Global, office: &mut Office<S>, line: Option<&[u8]>) -> LineEnd
    ensures { EndsInput S.Store office.old office.new (option_map (λ line. line.now) line.entry) result }
{
    match line {
        Some(line) => carry_out_line(alloc, office, line),
        None => LineEnd::Unspelled(LineFault::NoOrder),
    }
}
