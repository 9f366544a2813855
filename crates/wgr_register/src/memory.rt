//! What stays in memory of the networks between requests.
ghost use Rattle.std.specs.Prelude.{◌≡◌, ◌≤◌, IfOk, IfSome, OnOk, length, nat_eq, true};
ghost use Rattle.std.specs.Map.{lookup};
ghost use Rattle.wgr_conf.specs.Files.{server_config};
ghost use Rattle.wgr_core.specs.Change.{Fits, applied_if};
ghost use Rattle.wgr_core.specs.Network.{NetworkValue};
ghost use Rattle.wgr_model.specs.RowLaws.{AreConsistent};
ghost use Rattle.wgr_model.specs.Rows.{IsFormed, Tables};
ghost use Rattle.wgr_opening.specs.Outlines.{AreOutlines, outline_in};
ghost use Rattle.wgr_outline.specs.Outline.{IsOutline};
ghost use Rattle.wgr_rows.specs.Act.{is_directed};
ghost use Rattle.wgr_register.specs.Given.{OfFile};
ghost use Rattle.wgr_register.specs.Loaded.{UnlessFault, UnlessUndone, entries_of};
ghost use Rattle.wgr_register.specs.Memory.{IsAfter, IsMemoryOf, IsMemoryOfOthers};
ghost use Rattle.wgr_register.specs.Recent.{max_recent};

use crate::asked::{self, Asked};
use crate::fault::{AskFault, Done, OrderFault};
use crate::files::{self, Files};
use crate::given::Render;
use crate::loaded::{self, Networks};
use crate::outlines;
use std::alloc::{AllocError, Global};
use wgr_core::{Change, Command, Form, Network};
use wgr_opening::Outlines;
use wgr_orders::Census;
use wgr_outline::Outline;
use wgr_rows::is_directed;
use wgr_tables::Fault;

/// Networks and servers' files, of each as many as [`Recent`](crate::recent::Recent) has, what is known of all
/// networks, and which were asked on their rows lately.
///
/// Where memory is refused, and after a fault, some or all of it is forgotten: the next request reads the rows.
/// What is in memory changes no answer.
#[derive(Drop)]
pub(crate) struct Memory {
    networks: Option<Networks>,
    files: Option<Files>,
    outlines: Option<Outlines>,
    asked: Option<Asked>,
}

impl Memory {
    /// Nothing yet.
    pub(crate) fn new() -> Memory
        ensures { (t : Tables) → IsMemoryOf result t }
    {
        Memory {
            networks: None,
            files: None,
            outlines: None,
            asked: None,
        }
    }

    /// What an opening learned of all networks.
    pub(crate) fn of(outlines: Outlines) -> Memory
        ensures { (t : Tables) → AreOutlines (outline_in outlines) t → IsMemoryOf result t }
    {
        Memory {
            networks: None,
            files: None,
            outlines: Some(outlines),
            asked: None,
        }
    }

    /// Takes out the network of this id, if it is in memory.
    pub(crate) fn take(&mut self, id: u32) -> Option<Network>
        ensures value { result ≡ lookup (nat_eq id) (entries_of self.old.networks) }
        ensures rest { (t : Tables) → IsMemoryOf self.old t → IsMemoryOf self.new t }
    {
        loaded::take(&mut self.networks, id)
    }

    /// Whether the command is answered from the rows of the network of this id, which isn't loaded: an Add or
    /// Owner, on a network that isn't in memory and wasn't asked on its rows lately. From now on it was. Which
    /// networks these are, no contract says: either way the answer is the same.
    pub(crate) fn answers_by_rows(&mut self, alloc: Global, id: u32, command: &Command) -> bool
        ensures directed { result ≡ true → is_directed command.now ≡ true }
        ensures rest { (t : Tables) → IsMemoryOf self.old t → IsMemoryOf self.new t }
    {
        if !is_directed(command) || loaded::is_kept(&self.networks, id) {
            return false;
        }
        asked::is_first(alloc, &mut self.asked, id)
    }

    /// Keeps the network of this id, in place of one that was kept.
    pub(crate) fn keep(&mut self, alloc: Global, id: u32, network: Network)
        ensures { (t : Tables) → IsMemoryOf self.old t → IsFormed t id network → IsMemoryOf self.new t }
    {
        loaded::keep(alloc, &mut self.networks, id, network);
    }

    /// Keeps the network of this id as the change leaves it.
    pub(crate) fn keep_changed(
        &mut self,
        alloc: Global,
        id: u32,
        network: Network,
        change: Option<Change>,
    )
        requires { IfSome change (λ c. Fits c network) }
        ensures { (t : Tables) → IsMemoryOf self.old t → IsFormed t id (applied_if change network) → IsMemoryOf self.new t }
    {
        loaded::keep_changed(alloc, &mut self.networks, id, network, change);
    }

    /// An outline of the network of this id: of any network, if none is known of it.
    pub(crate) fn outline(&self, id: u32) -> Outline
        ensures { (t : Tables) (n : NetworkValue) → AreConsistent t → IsMemoryOf self.now t → IsFormed t id n → IsOutline result n }
    {
        outlines::outline_of(&self.outlines, id)
    }

    /// The same, where the network is at hand and knows when its leases end.
    pub(crate) fn outline_with(&self, id: u32, network: &Network) -> Outline
        ensures { (t : Tables) → AreConsistent t → IsMemoryOf self.now t → IsFormed t id network.now → IsOutline result network.now }
    {
        Outline {
            end: network.soonest_end(),
            floor: self.outline(id).floor,
        }
    }

    /// After an answer on the network of this id, whose change, if there is one, is committed: its outline is
    /// this one, it isn't in memory itself, and its files stay only if nothing changed.
    pub(crate) fn after(
        &mut self,
        alloc: Global,
        id: u32,
        outline: Outline,
        change: &Option<Change>,
    )
        ensures { (t u : Tables) (n : NetworkValue) → IsMemoryOf self.old t → IsAfter id n change.now t u → IsOutline outline (applied_if change.now n) → IsMemoryOf self.new u }
    {
        outlines::note(alloc, &mut self.outlines, id, outline);
        files::drop_changed(&mut self.files, id, change);
        loaded::forget(&mut self.networks, id);
    }

    /// The text made from the file of this form of the network of this id that is in memory for this moment,
    /// if there is one.
    pub(crate) fn kept_text<R: Render>(
        &mut self,
        alloc: Global,
        id: u32,
        form: Form,
        now: u64,
        render: &R,
    ) -> Result<Option<Vec<u8>>, AllocError>
        ensures text { (t : Tables) → IsMemoryOf self.old t → IfOk result (λ found. IfSome found (λ text. (n : NetworkValue) × IsFormed t id n × (R.shown (OfFile (server_config n now form)) ≡ text.items))) }
        ensures rest { (t : Tables) → IsMemoryOf self.old t → IsMemoryOf self.new t }
    {
        files::kept_text(alloc, &mut self.files, id, form, now, render)
    }

    /// The text made from the network's file at this moment. The file stays in memory.
    pub(crate) fn made_text<R: Render>(
        &mut self,
        alloc: Global,
        id: u32,
        network: &Network,
        form: Form,
        now: u64,
        render: &R,
    ) -> Result<Vec<u8>, AllocError>
        ensures text { IfOk result (λ text. R.shown (OfFile (server_config network.now now form)) ≡ text.items) }
        ensures rest { (t : Tables) → IsMemoryOf self.old t → IsFormed t id network.now → IsMemoryOf self.new t }
    {
        files::made_text(alloc, &mut self.files, id, network, form, now, render)
    }

    /// Forgets all of the network of this id.
    pub(crate) fn forget(&mut self, id: u32)
        ensures { (t : Tables) → IsMemoryOfOthers id self.old t → IsMemoryOf self.new t }
    {
        loaded::forget(&mut self.networks, id);
        files::drop_files(&mut self.files, id);
        outlines::forget_outline(&mut self.outlines, id);
    }

    /// Forgets all.
    pub(crate) fn forget_all(&mut self)
        ensures { (t : Tables) → IsMemoryOf self.new t }
    {
        *self = Memory::new();
    }

    /// Forgets all if a request ended with a fault.
    pub(crate) fn after_request(&mut self, answered: &Result<Vec<u8>, AskFault>)
        ensures is_of { (t : Tables) → UnlessFault answered.now (IsMemoryOf self.old t) → IsMemoryOf self.new t }
        ensures stays { UnlessFault answered.now (self.new ≡ self.old) }
    {
        if let Err(AskFault::Fault(_)) = answered {
            self.forget_all();
        }
    }

    /// Forgets all if an order failed.
    pub(crate) fn after_order(&mut self, ended: &Result<Done, OrderFault>)
        ensures is_of { (t : Tables) → UnlessUndone ended.now (IsMemoryOf self.old t) → IsMemoryOf self.new t }
        ensures stays { UnlessUndone ended.now (self.new ≡ self.old) }
    {
        if let Err(OrderFault::Fault(_)) = ended {
            self.forget_all();
        }
    }

    /// Forgets all if a census failed.
    pub(crate) fn after_census(&mut self, read: &Result<Census, Fault>)
        ensures is_of { (t : Tables) → OnOk read.now (IsMemoryOf self.old t) → IsMemoryOf self.new t }
        ensures stays { OnOk read.now (self.new ≡ self.old) }
    {
        if read.is_err() {
            self.forget_all();
        }
    }

    /// How many networks are in memory.
    pub(crate) fn networks(&self) -> usize
        ensures kept { result ≡ length (entries_of self.now.networks) }
        ensures at_most { result ≤ max_recent }
    {
        loaded::count(&self.networks)
    }

    /// How many servers' files are in memory.
    pub(crate) fn files(&self) -> usize
        ensures at_most { result ≤ max_recent }
    {
        files::count(&self.files)
    }
}
