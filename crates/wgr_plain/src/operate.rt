//! Orders of the operator.
ghost use Rattle.std.specs.Prelude.{◌≡◌, ◌++◌, ◌∷◌, [], not, false, IfOk, OnErr, OnOk};
ghost use Rattle.std.specs.List.{filter};
ghost use Rattle.wgr_orders.specs.Orders.{order_event};
ghost use Rattle.wgr_plain.specs.Calls.{IsNewNetworkEntry, IsOrdered, answer_of, with_last};
ghost use Rattle.wgr_model.specs.Consistent.{same_slot, slot};
ghost use Rattle.wgr_model.specs.Register.{is_same};
ghost use Rattle.wgr_model.specs.Steps.{AddNetwork, AddTenant, EndNetwork, EndToken, Grant, IsStep, is_full, new_network, without_reader};

use crate::answer::Answer;
use crate::look::{id_of, tenant_ids, tenant_of_token};
use crate::register::{Register, Token};
use std::alloc::{AllocError, Global};
use wgr_core::{Name, Network, Pool};
use wgr_orders::{
    NetworkEntry, Order, OrderFault, OrderRefusal, Right, Settings, Tenant, checked_pool,
    digest_has_form, is_full, is_same, name_has_form, new_id, place_of, settings_have_forms,
    unused_id,
};

impl Register {
    /// Does the order, or refuses it; if memory runs out, the register is as before.
    pub fn operate(&mut self, alloc: Global, order: &Order) -> Result<Answer, AllocError>
        ensures step { IfOk result (λ answer. IsStep self.old (order_event order.now) (answer_of answer) self.new) }
        ensures undone { OnErr result (self.new ≡ self.old) }
    {
        match self.carry_out(alloc, order) {
            Ok(()) => Ok(Answer::Done),
            Err(OrderFault::Refused(why)) => Ok(Answer::Refused(why)),
            Err(OrderFault::NoMemory) => Err(AllocError),
        }
    }

    fn carry_out(&mut self, alloc: Global, order: &Order) -> Result<(), OrderFault>
        ensures { IsOrdered self.old (order_event order.now) result self.new }
    {
        match order {
            Order::AddTenant { name } => self.add_tenant(alloc, name),
            Order::Grant {
                tenant,
                digest,
                right,
            } => self.grant(tenant, digest, *right),
            Order::EndToken { digest } => self.end_token(digest),
            Order::AddNetwork {
                tenant,
                name,
                settings,
            } => self.add_network(alloc, tenant, name, settings),
            Order::EndNetwork { tenant, name } => self.end_network(tenant, name),
        }
    }

    fn add_tenant(&mut self, alloc: Global, name: &Name) -> Result<(), OrderFault>
        ensures { IsOrdered self.old (AddTenant name.now) result self.new }
    {
        if id_of(&self.tenants, name.as_bytes()).is_some() {
            return Err(OrderFault::Refused(OrderRefusal::NameHeld));
        }
        if is_full(&self.tenants) {
            return Err(OrderFault::Refused(OrderRefusal::RegisterFull));
        }
        let ids = tenant_ids(alloc, &self.tenants)?;
        let tenant = Tenant {
            id: unused_id(&ids),
            name: name.copy()?,
        };
        name_has_form(name);
        push(&mut self.tenants, tenant)?;
        Ok(())
    }

    fn grant(&mut self, tenant: &Name, digest: &[u8; 32], right: Right) -> Result<(), OrderFault>
        ensures { IsOrdered self.old (Grant tenant.now digest.now right) result self.new }
    {
        let Some(id) = id_of(&self.tenants, tenant.as_bytes()) else {
            return Err(OrderFault::Refused(OrderRefusal::NoSuchTenant));
        };
        if tenant_of_token(&self.tokens, digest).is_some() {
            return Err(OrderFault::Refused(OrderRefusal::DigestHeld));
        }
        if is_full(&self.tokens) {
            return Err(OrderFault::Refused(OrderRefusal::RegisterFull));
        }
        let token = Token {
            digest: *digest,
            tenant: id,
        };
        digest_has_form(digest);
        put_token(&mut self.tokens, &mut self.readers, token, right)?;
        Ok(())
    }

    fn end_token(&mut self, digest: &[u8; 32]) -> Result<(), OrderFault>
        ensures { IsOrdered self.old (EndToken digest.now) result self.new }
    {
        if tenant_of_token(&self.tokens, digest).is_none() {
            return Err(OrderFault::Refused(OrderRefusal::NoSuchToken));
        }
        drop_token(&mut self.tokens, digest);
        drop_reader(&mut self.readers, digest);
        Ok(())
    }

    fn add_network(
        &mut self,
        alloc: Global,
        tenant: &Name,
        name: &Name,
        settings: &Settings,
    ) -> Result<(), OrderFault>
        ensures { IsOrdered self.old (AddNetwork tenant.now name.now settings.now) result self.new }
    {
        let Some(id) = id_of(&self.tenants, tenant.as_bytes()) else {
            return Err(OrderFault::Refused(OrderRefusal::NoSuchTenant));
        };
        let pool = checked_pool(alloc, &self.tenants, &self.networks, id, name, settings)?;
        let network_entry = new_network_entry(alloc, &self.networks, id, name, settings, pool)?;
        name_has_form(name);
        settings_have_forms(settings);
        push(&mut self.networks, network_entry)?;
        Ok(())
    }

    fn end_network(&mut self, tenant: &Name, name: &Name) -> Result<(), OrderFault>
        ensures { IsOrdered self.old (EndNetwork tenant.now name.now) result self.new }
    {
        let Some(id) = id_of(&self.tenants, tenant.as_bytes()) else {
            return Err(OrderFault::Refused(OrderRefusal::NoSuchTenant));
        };
        if place_of(&self.networks, id, name.as_bytes()).is_none() {
            return Err(OrderFault::Refused(OrderRefusal::NoNetwork));
        }
        drop_network(&mut self.networks, id, name);
        Ok(())
    }
}

// A network with these settings, under an id that none of the others has.
fn new_network_entry(
    alloc: Global,
    networks: &[NetworkEntry],
    tenant: u32,
    name: &Name,
    settings: &Settings,
    pool: Pool,
) -> Result<NetworkEntry, AllocError>
    requires room { is_full networks.now ≡ false }
    requires pool { pool ≡ settings.now.pool }
    ensures { IfOk result (λ h. IsNewNetworkEntry networks.now tenant name.now settings.now h) }
{
    let network = network_of(alloc, settings, pool)?;
    Ok(NetworkEntry {
        id: new_id(alloc, networks)?,
        tenant,
        name: name.copy()?,
        network,
    })
}

// The network of these settings, in its pool.
fn network_of(alloc: Global, settings: &Settings, pool: Pool) -> Result<Network, AllocError>
    requires { pool ≡ settings.now.pool }
    ensures { IfOk result (λ network. network ≡ new_network settings.now) }
{
    let host = settings.host.copy()?;
    Ok(Network::new(
        alloc,
        pool,
        host,
        settings.port,
        settings.server,
        settings.capacity,
    ))
}

// Puts an entry at the end; if memory runs out, the entries are as before.
fn push<T: Drop>(entries: &mut Vec<T>, entry: T) -> Result<(), AllocError>
    ensures ok { OnOk result (entries.new.items ≡ entries.old.items ++ entry ∷ []) }
    ensures err { OnErr result (entries.new.items ≡ entries.old.items) }
{
    entries.push(entry)?;
    Ok(())
}

// Puts the token at the end, and its digest at the end of those that only read where it is one; if
// memory runs out, both lists are as before.
fn put_token(
    tokens: &mut Vec<Token>,
    readers: &mut Vec<[u8; 32]>,
    token: Token,
    right: Right,
) -> Result<(), AllocError>
    ensures tokens { OnOk result (tokens.new.items ≡ tokens.old.items ++ token ∷ []) }
    ensures readers { OnOk result (readers.new.items ≡ with_last right token.digest readers.old.items) }
    ensures tokens_undone { OnErr result (tokens.new.items ≡ tokens.old.items) }
    ensures readers_undone { OnErr result (readers.new.items ≡ readers.old.items) }
{
    let before = readers.len();
    put_reader(readers, &token.digest, right)?;
    match push(tokens, token) {
        Ok(()) => Ok(()),
        Err(why) => {
            readers.truncate(before);
            Err(why)
        }
    }
}

// Puts the digest at the end where its token only reads; if memory runs out, the digests are as before.
fn put_reader(
    readers: &mut Vec<[u8; 32]>,
    digest: &[u8; 32],
    right: Right,
) -> Result<(), AllocError>
    ensures ok { OnOk result (readers.new.items ≡ with_last right digest.now readers.old.items) }
    ensures err { OnErr result (readers.new.items ≡ readers.old.items) }
{
    match right {
        Right::Full => Ok(()),
        Right::Read => push(readers, *digest),
    }
}

// Removes the token of this digest.
fn drop_token(tokens: &mut Vec<Token>, digest: &[u8; 32])
    ensures { tokens.new.items ≡ filter (λ t. not (is_same digest.now t.digest)) tokens.old.items }
{
    tokens.retain(|token| !is_same(digest, &token.digest));
}

// Removes the digest from those whose tokens only read.
fn drop_reader(readers: &mut Vec<[u8; 32]>, digest: &[u8; 32])
    ensures { readers.new.items ≡ without_reader digest.now readers.old.items }
{
    readers.retain(|reader| !is_same(digest, reader));
}

// Removes the network of this name of the tenant of this id.
fn drop_network(networks: &mut Vec<NetworkEntry>, id: u32, name: &Name)
    ensures { networks.new.items ≡ filter (λ h. not (same_slot (id, name.now) (slot h))) networks.old.items }
{
    networks.retain(|network_entry| !(id == network_entry.tenant
        && is_same(name.as_bytes(), network_entry.name.as_bytes())));
}
