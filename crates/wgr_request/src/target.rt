//! What the target of a request names, and whether its path has the method.
ghost use Rattle.std.specs.Prelude.{◌≡◌, ◌<◌, Some, codes, option_map};
ghost use Rattle.std.specs.Str.{IsAscii};
ghost use Rattle.wgr_request.specs.Paths.{route_rows};
ghost use Rattle.wgr_request.specs.Target.{ArePartsTexts, all_ascii, as_ascii, form_of, found_at, found_view, peer_number_of, parts_in, parts_view, resolved, resolved_view, target_of, target_view};

use crate::fault::RequestFault;
use crate::paths::{Paths, Place};
use matchit::Params;
use std::str;
use wgr_core::Form;
use wgr_peers::MAX_NUMBER;

/// What a target names, by the parts of its path. The name of a network is any text without `/`;
/// the number of a peer is 1 to 1,000,000.
#[derive(Clone, Copy)]
pub enum Target<'t> {
    /// The tenant's networks.
    Networks,
    /// The peers of the network of this name.
    Peers(&'t str),
    /// The peer of this number.
    Peer(&'t str, u32),
    /// The peer's address.
    Address(&'t str, u32),
    /// The routes to the peer.
    Routes(&'t str, u32),
    /// The peer's lease.
    Lease(&'t str, u32),
    /// The peer's file.
    PeerFile(&'t str, u32, Form),
    /// Where routes of the network are removed.
    Unroute(&'t str),
    /// Where the network adopts a dump.
    Dump(&'t str),
    /// The owner of the address that this text may spell.
    Owner(&'t str, &'t str),
    /// The server's file.
    ServerFile(&'t str, Form),
}

// What a target names, and the place of its path.
#[derive(Clone, Copy)]
struct Found<'t> {
    place: Place,
    target: Target<'t>,
}

// The parts of a path, as they are in it.
#[derive(Clone, Copy)]
struct PathTexts<'t> {
    name: Option<&'t str>,
    number: Option<&'t str>,
    form: Option<&'t str>,
    address: Option<&'t str>,
}

impl Paths {
    /// What the target names, if its path is served and has the method.
    pub fn resolve<'t>(&self, method: &[u8], target: &'t [u8]) -> Result<Target<'t>, RequestFault>
        ensures { resolved_view result ≡ resolved method.now target.now }
    {
        let Some(found) = self.find(target) else {
            return Err(RequestFault::NoSuchPath);
        };
        let methods = found.place.methods();
        if !methods.has(method) {
            return Err(RequestFault::WrongMethod(methods));
        }
        Ok(found.target)
    }

    // What the target names, if its path is served.
    fn find<'t>(&self, target: &'t [u8]) -> Option<Found<'t>>
        ensures { option_map found_view result ≡ found_at target.now }
    {
        let path = ascii(target)?;
        match self.router.at(path) {
            Ok(found) => {
                let place = *found.value;
                let target = target_of(place, parts_of(&found.params))?;
                Some(Found { place, target })
            }
            Err(_) => None,
        }
    }
}

// The bytes as text, if all are ASCII.
fn ascii(bytes: &[u8]) -> Option<&str>
    ensures { option_map (λ t. t.now) result ≡ as_ascii bytes.now }
{
    if !is_ascii(bytes) {
        return None;
    }
    let Ok(text) = str::from_utf8(bytes) else {
        unreachable!();
    };
    Some(text)
}

fn is_ascii(bytes: &[u8]) -> bool
    ensures { result ≡ all_ascii bytes.now }
{
    bytes.iter().all(|byte| *byte < 0x80)
}

// The parts that match a path's names in braces.
fn parts_of<'t>(params: &Params<'_, 't>) -> PathTexts<'t>
    requires { ArePartsTexts params.now.pattern.now params.now.text.now params.now.path.now params.now.names.now }
    ensures { parts_view result ≡ parts_in params.now.pattern.now params.now.text.now params.now.path.now params.now.names.now }
{
    PathTexts {
        name: params.get("name"),
        number: params.get("number"),
        form: params.get("form"),
        address: params.get("address"),
    }
}

// What the parts of a path to this place name.
fn target_of<'t>(place: Place, parts: PathTexts<'t>) -> Option<Target<'t>>
    ensures { option_map target_view result ≡ target_of place (parts_view parts.entry) }
{
    match place {
        Place::Networks => Some(Target::Networks),
        Place::Peers => Some(Target::Peers(parts.name?)),
        Place::Peer => Some(Target::Peer(parts.name?, number_of(parts.number?)?)),
        Place::Address => Some(Target::Address(parts.name?, number_of(parts.number?)?)),
        Place::Routes => Some(Target::Routes(parts.name?, number_of(parts.number?)?)),
        Place::Lease => Some(Target::Lease(parts.name?, number_of(parts.number?)?)),
        Place::PeerFile => Some(Target::PeerFile(
            parts.name?,
            number_of(parts.number?)?,
            form_of(parts.form?)?,
        )),
        Place::Unroute => Some(Target::Unroute(parts.name?)),
        Place::Dump => Some(Target::Dump(parts.name?)),
        Place::Owner => Some(Target::Owner(parts.name?, parts.address?)),
        Place::ServerFile => Some(Target::ServerFile(parts.name?, form_of(parts.form?)?)),
    }
}

// The number of a peer: 1 to 1,000,000 in decimal, without leading zeros.
fn number_of(text: &str) -> Option<u32>
    ensures { result ≡ peer_number_of text.now }
{
    let first = *text.as_bytes().first()?;
    // `parse` accepts a sign and leading zeros too.
    if first <= b'0' {
        return None;
    }
    match text.parse::<u32>() {
        Ok(number) => {
            if number <= MAX_NUMBER {
                Some(number)
            } else {
                None
            }
        }
        Err(_) => None,
    }
}

// The form of a file.
fn form_of(text: &str) -> Option<Form>
    ensures { result ≡ form_of text.now }
{
    if text == "wg" {
        Some(Form::Wg)
    } else if text == "quick" {
        Some(Form::Quick)
    } else {
        None
    }
}
