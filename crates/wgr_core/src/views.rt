//! Peers with the prefixes that lead to them.
ghost use Rattle.std.specs.Prelude.{◌≡◌, List, ℕ, [], ◌∷◌, ◌++◌, map, nat_eq, nat_lt, IfOk, OnOk};
ghost use Rattle.wgr_core.specs.Outcome.{peer_view};
ghost use Rattle.wgr_peers.specs.Ordered.{EndsAt};
ghost use Rattle.wgr_peers.specs.Peers.{AreNumbered};
ghost use Rattle.wgr_peers.specs.Routes.{Routes};
ghost use Rattle.wgr_peers.specs.declared.peer.Peer.{Peer};

use crate::live::Live;
use crate::network::Network;
use crate::reply::PeerView;
use crate::routes::prefixes_of;
use std::alloc::{AllocError, Global};
use wgr_peers::{Items, Peer};
use wgr_text::Prefix;

impl Live<'_> {
    // Each live peer with the routes to it: one pass over the peers and one over the routes.
    pub(crate) fn views(&self, alloc: Global) -> Result<Items<PeerView>, AllocError>
        ensures { IfOk result (λ views. views ≡ map (peer_view self.now.routes) self.now.peers) }
    {
        let mut views = self.bare_views(alloc)?;
        for route in self.network.routes() {
            show_route(&mut views, route)?;
        }
        Ok(Items::of(views))
    }

    // Each live peer without routes.
    fn bare_views(&self, alloc: Global) -> Result<Vec<PeerView>, AllocError>
        ensures { IfOk result (λ views. views.items ≡ map (peer_view []) self.now.peers) }
    {
        let mut views = Vec::new(alloc);
        for peer in self.network.peers() {
            if peer.is_live(self.moment) {
                views.push(PeerView {
                    peer: peer.copy()?,
                    routes: Items::new(alloc),
                })?;
            }
        }
        Ok(views)
    }
}

impl Network {
    /// Each peer with the routes to it, including those whose lease is over: one pass over the
    /// peers and one over the routes.
    pub fn views(&self, alloc: Global) -> Result<Items<PeerView>, AllocError>
        ensures { IfOk result (λ views. views ≡ map (peer_view self.now.routes) self.now.peers) }
    {
        // At the moment 0 no lease is over.
        let (whole, _over) = Live::at(self, alloc, 0)?;
        whole.views(alloc)
    }
}

// The place of the view of this number's peer.
fn view_place(views: &[PeerView], number: u32) -> Result<usize, usize>
    requires { AreNumbered (map (λ v. v.peer) views.now) }
    ensures { EndsAt (λ v. nat_lt v.peer.number number) (λ v. nat_eq v.peer.number number) views.now result }
{
    let place = views.partition_point(|view| view.peer.number < number);
    if place < views.len() && views[place].peer.number == number {
        Ok(place)
    } else {
        Err(place)
    }
}

// Puts one more route into the view of its peer, if there is one.
fn show_route(views: &mut Vec<PeerView>, route: &(Prefix, u32)) -> Result<(), AllocError>
    requires { AreNumbered (map (λ v. v.peer) views.old.items) }
    ensures { OnOk result ((shown : Routes) (peers : List Peer) → views.old.items ≡ map (peer_view shown) peers → views.new.items ≡ map (peer_view (shown ++ route.now ∷ [])) peers) }
{
    if let Ok(place) = view_place(views, route.1) {
        views[place].routes.push(route.0)?;
    }
    Ok(())
}

// The view of a peer to which these routes lead.
pub(crate) fn view_with(
    alloc: Global,
    peer: &Peer,
    own: &[(Prefix, u32)],
) -> Result<PeerView, AllocError>
    ensures { IfOk result (λ view. view ≡ record { peer = peer.now; routes = map (λ r. r.0) own.now }) }
{
    let routes = prefixes_of(alloc, own)?;
    let peer = peer.copy()?;
    Ok(PeerView { peer, routes })
}
