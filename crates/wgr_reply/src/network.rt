//! Networks as JSON.
ghost use Rattle.std.specs.Prelude.{◌≡◌, refl, OnOk};
ghost use Rattle.serde_json.specs.Data.{member, no_members};
ghost use Rattle.serde_json.specs.Events.{SendsValue};
ghost use Rattle.wgr_reply.specs.Shown.{network_data};

use crate::bodies::InReply;
use serde::Serializer;
use std::alloc::Global;
use wgr_core::{Name, Network};
use wgr_json::{ToJson, send_member, send_number, send_text};

// A network under its name.
impl ToJson<InReply> for (Name, Network) {
    ghost shown = { λ e. network_data e };

    ghost whole = { λ e. refl };

    fn send<S: Serializer>(&self, alloc: Global, out: &mut S) -> Result<(), S::Error> {
        let network = &self.1;
        let Ok(endpoint) = network.host().endpoint(alloc, network.port()) else {
            return Err(out.custom("no memory"));
        };
        out.begin_map(Some(5))?;
        send_number("capacity", u64::from(network.capacity().peers()), out)?;
        send_text("endpoint", endpoint.as_str(), out)?;
        send_text("name", self.0.as_str(), out)?;
        send_member::<InReply, _, _>(alloc, "pool", &network.pool().prefix(), out)?;
        send_member::<InReply, _, _>(alloc, "server", &network.server_key(), out)?;
        out.end_map()
    }
}
