//! The command Adopt: the peers of a running interface are taken over.
ghost use Rattle.std.specs.Prelude.{◌≡◌, ◌<◌, false, length, slice_index_or, None, IfOk};
ghost use Rattle.wgr_core.specs.declared.reply.Reply.TheVariants as reply;
ghost use Rattle.wgr_core.specs.Adoption.{add_line, adopt_line, adopt_lines, adoption_of, adoption_order, note_status};
ghost use Rattle.wgr_core.specs.Change.{GivesChange, MeetsLive};
ghost use Rattle.wgr_core.specs.Draft.{AdoptingValue, MeetsLine, MeetsLines, begun, fault_in_line, left_by, numbered_lines};
ghost use Rattle.wgr_core.specs.Outcome.{adopt, server_refusal};
ghost use Rattle.wgr_peers.specs.declared.peer.Peer.{Peer};

use crate::change::Change;
use crate::draft::Draft;
use crate::fault::{ActFault, AdoptFault};
use crate::line::{expected_routes, is_asked_for, keyed_place};
use crate::network::Network;
use crate::refusal::{CommandRefusal, Refusal};
use crate::reply::Reply;
use crate::seen_peer::SeenPeer;
use std::alloc::{AllocError, Global};
use std::marker::Model;
use wgr_peers::{Items, Label, LeaseEnd, Peer};
use wgr_pool::Pool;
use wgr_text::{Key, Prefix};

impl Network {
    // The peers that the lines show are added, or get the status of their line.
    pub(crate) fn adopted(
        &self,
        alloc: Global,
        server: Option<Key>,
        lines: &[SeenPeer],
        removed: Items<u32>,
    ) -> Result<(Reply, Option<Change>), ActFault>
        ensures { MeetsLive false None self.now removed result (adopt self.now server lines.now) }
    {
        if let Some(why) = self.server_refusal(server) {
            return Err(ActFault::from(why));
        }
        let done = self.adopt(alloc, lines)?;
        Ok(done.answer(alloc, removed)?)
    }

    // The network with all these lines. It is tried on a copy of the live network; what a refused line
    // leaves there doesn't matter, since only a draft with all lines is returned.
    fn adopt(&self, alloc: Global, lines: &[SeenPeer]) -> Result<Adopting<'_>, ActFault>
        ensures { MeetsLines (begun self.now) result (adoption_of self.now lines.now) }
    {
        let pool = self.pool();
        let expected = expected_routes(alloc, &pool, lines)?;
        let mut adopting = Adopting::begin(alloc, self, expected)?;
        adopting.adopt_all(alloc, &pool, lines)?;
        Ok(adopting)
    }

    // Why the interface of this key is not the network's.
    fn server_refusal(&self, server: Option<Key>) -> Option<Refusal>
        ensures { result ≡ server_refusal self.now server }
    {
        match server {
            Some(key) if key != self.server_key() => Some(Refusal::WrongServer),
            _ => None,
        }
    }
}

/// The lines adopted so far: the network with them, the numbers of its new peers, and how
/// many lines had a key that was already held.
#[derive(Drop)]
struct Adopting<'a> {
    draft: Draft<'a>,
    added: Items<u32>,
    known: u32,
}

impl<'a> Model for Adopting<'a> {
    ghost Value = { AdoptingValue };

    ghost view = { λ a. record { start = a.draft.start; so_far = record { network = a.draft.network; added = a.added; known = a.known } } };
}

impl<'a> Adopting<'a> {
    // No line yet, with room for routes of these prefixes.
    fn begin(
        alloc: Global,
        start: &'a Network,
        expected: Vec<Prefix>,
    ) -> Result<Adopting<'a>, AllocError>
        ensures { IfOk result (λ adopting. adopting ≡ begun start.now) }
    {
        Ok(Adopting {
            draft: Draft::begin(alloc, start, expected)?,
            added: Items::new(alloc),
            known: 0,
        })
    }

    // The lines that name an address, and then the others, so that none of these gets an address
    // that a later line names.
    fn adopt_all(&mut self, alloc: Global, pool: &Pool, lines: &[SeenPeer]) -> Result<(), ActFault>
        ensures { MeetsLines self.old (left_by result self.new) (adopt_lines self.old.so_far (adoption_order pool.now lines.now)) }
    {
        self.adopt_lines(alloc, pool, lines, true)?;
        self.adopt_lines(alloc, pool, lines, false)
    }

    // The lines that name an address, or those that name none, one after the other. Their numbers
    // are those of the text, whose first line is the interface's.
    fn adopt_lines(
        &mut self,
        alloc: Global,
        pool: &Pool,
        lines: &[SeenPeer],
        naming: bool,
    ) -> Result<(), ActFault>
        ensures { MeetsLines self.old (left_by result self.new) (adopt_lines self.old.so_far (numbered_lines pool.now naming 2 lines.now)) }
    {
        for (index, line) in lines.iter().enumerate() {
            if !is_asked_for(pool, line, naming) {
                continue;
            }
            match self.adopt_line(alloc, line) {
                Ok(()) => {}
                Err(why) => return Err(in_line(index + 2, why)),
            }
        }
        Ok(())
    }

    // The peer that has the line's key gets its status, or a new peer joins.
    fn adopt_line(&mut self, alloc: Global, line: &SeenPeer) -> Result<(), AdoptFault>
        ensures { MeetsLine self.old (left_by result self.new) (adopt_line self.old.so_far line.now) }
    {
        match keyed_place(self.draft.peers(), &line.key) {
            Some(place) => self.note_status(place, line),
            None => self.add_line(alloc, line),
        }
    }

    // The peer at the place gets the line's status, and nothing else.
    fn note_status(&mut self, place: usize, line: &SeenPeer) -> Result<(), AdoptFault>
        requires { place < length self.old.so_far.network.peers }
        ensures { (d : Peer) → MeetsLine self.old (left_by result self.new) (Ok (note_status self.old.so_far line.now (slice_index_or self.old.so_far.network.peers place d))) }
    {
        // The number of known lines has to fit 32 bits.
        let Some(known) = self.known.checked_add(1) else {
            return Err(AdoptFault::NoMemory);
        };
        self.draft.note(place, line.status)?;
        self.known = known;
        Ok(())
    }

    // A peer with the line's key joins with its prefixes.
    fn add_line(&mut self, alloc: Global, line: &SeenPeer) -> Result<(), AdoptFault>
        ensures { MeetsLine self.old (left_by result self.new) (add_line self.old.so_far line.now) }
    {
        let number = self.draft.next();
        let address = self.draft.line_address(alloc, line)?;
        self.draft.join(Peer {
            number,
            key: line.key,
            label: Label::empty(alloc),
            address,
            second: None,
            until: LeaseEnd::never(),
            keepalive: line.keepalive,
            status: Some(line.status),
        })?;
        self.draft
            .give_all(number, address, line.allowed.as_slice())?;
        self.added.push(number)?;
        Ok(())
    }

    // What the adoption answers, and the change that leads to it from the network, from which `removed`
    // were removed.
    fn answer(
        self,
        alloc: Global,
        removed: Items<u32>,
    ) -> Result<(Reply, Option<Change>), AllocError>
        ensures reply { IfOk result (λ given. given.0 ≡ reply.Adopted self.entry.so_far.added self.entry.so_far.known) }
        ensures change { IfOk result (λ given. GivesChange false None self.entry.start removed given.1 self.entry.so_far.network) }
    {
        let Adopting {
            draft,
            added,
            known,
        } = self;
        let change = draft.into_change(alloc, removed)?;
        Ok((Reply::Adopted { added, known }, Some(change)))
    }
}

// Why a command failed, of which the line with this number was not adopted.
fn in_line(line: usize, why: AdoptFault) -> ActFault
    ensures { result ≡ fault_in_line line why }
{
    match why {
        AdoptFault::Refused(why) => ActFault::Refused(CommandRefusal {
            why,
            line: Some(line),
        }),
        AdoptFault::NoMemory => ActFault::NoMemory,
    }
}
