//! What the types of an order guarantee, stated for a proof.
ghost use Rattle.wgr_core.specs.Forms.{IsKey};
ghost use Rattle.wgr_orders.specs.Orders.{order_event};
ghost use Rattle.wgr_model.specs.Consistent.{IsDigest, IsName};
ghost use Rattle.wgr_model.specs.Steps.{IsProper, IsProperSettings};

use crate::order::{Order, Settings};
use wgr_core::Name;
use wgr_text::{Key, are_bytes};

impl Order {
    /// Does nothing. Each field has the form that its type guarantees.
    pub fn forms_hold(&self)
        ensures { IsProper (order_event self.now) }
    {
        match self {
            Order::AddTenant { name } => name_has_form(name),
            Order::Grant { digest, .. } => digest_has_form(digest),
            Order::AddNetwork { name, settings, .. } => {
                name_has_form(name);
                settings_have_forms(settings);
            }
            _ => {}
        }
    }
}

/// Does nothing. Each setting has the form that its type guarantees.
pub fn settings_have_forms(settings: &Settings)
    ensures { IsProperSettings settings.now }
{
    key_has_form(&settings.server);
    let _host = settings.host.as_str();
    let _port = settings.port.number();
    let _capacity = settings.capacity.peers();
}

/// Does nothing. A name has the form that its type guarantees.
pub fn name_has_form(name: &Name)
    ensures { IsName name.now }
{
    let _text = name.as_str();
}

/// Does nothing. A digest has 32 bytes.
pub fn digest_has_form(digest: &[u8; 32])
    ensures { IsDigest digest.now }
{
    are_bytes(digest);
}

// A key has 32 bytes.
fn key_has_form(key: &Key)
    ensures { IsKey key.now }
{
    let _bytes = key.0;
}
