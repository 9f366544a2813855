//! The lines of peers.
ghost use Rattle.std.specs.Prelude.{◌≡◌, IfSome, IfNone};
ghost use Rattle.std.specs.Iterator.{YieldsFirst, item_count};
ghost use Rattle.wgr_dump.specs.Dump.{LineValue, IsPeerLine};
ghost use Rattle.wgr_text.specs.Lines.{lines_of};
ghost use Rattle.wgr_dump.specs.MeantLines.{MeantLines, MeantLines-prop};

use crate::peer_line::PeerLine;
use std::marker::Model;
use wgr_text::first_line;

/// The remaining lines of peers.
#[derive(Drop)]
pub struct Lines<'a> {
    pub(crate) rest: &'a [u8],
    ghost known: { MeantLines (lines_of rest.now) } by { MeantLines-prop (lines_of rest.now) },
}

impl<'a> Model for Lines<'a> {
    ghost use Rattle.std.specs.Prelude.{List};
    ghost use Rattle.wgr_dump.specs.Dump.{LineValue, IsPeerLine};
    ghost use Rattle.wgr_text.specs.Lines.{lines_of};
    ghost use Rattle.wgr_dump.specs.Meant.{meant};

    ghost Value = { List LineValue };

    ghost view = { λ l. meant IsPeerLine (lines_of l.rest.now) l.known };
}

impl<'a> Iterator for Lines<'a> {
    type Item = PeerLine<'a>;

    ghost next_gives = { YieldsFirst (λ lines. lines) };

    ghost remaining = { item_count (λ lines. lines) };

    fn next(&mut self) -> Option<PeerLine<'a>> {
        if self.rest.is_empty() {
            return None;
        }
        let (line, rest) = first_line(self.rest);
        self.rest = rest;
        read_peer_line(line)
    }
}

// The line, where it is a peer's.
fn read_peer_line<'a>(line: &'a [u8]) -> Option<PeerLine<'a>>
    ensures spelled { IfSome result (IsPeerLine line.entry.now) }
    ensures none { IfNone result ((v : LineValue) → ¬ (IsPeerLine line.entry.now v)) }
{
    PeerLine::read(line).ok()
}
