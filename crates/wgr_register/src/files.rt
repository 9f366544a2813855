//! Servers' files that stay in memory between requests.
//!
//! Each has a span of moments: within it no lease ends, so the file stays the same until the network
//! changes. The least recently used is dropped first. Where memory is refused, and after a fault, none
//! is kept: the next request makes its file again.
ghost use Rattle.std.specs.Prelude.{◌≡◌, ◌≤◌, ℕ, length, None, Some, IfOk, IfSome, OnOk, false, is_some, nat_eq, true};
ghost use Rattle.std.specs.List.{IsDistinct, filter};
ghost use Rattle.std.specs.Map.{keys_of, lookup, remove_entry};
ghost use Rattle.wgr_conf.specs.Files.{server_config};
ghost use Rattle.wgr_core.specs.Network.{NetworkValue};
ghost use Rattle.wgr_model.specs.Rows.{IsFormed, Tables};
ghost use Rattle.wgr_peers.specs.Limits.{is_expired};
ghost use Rattle.wgr_peers.specs.Peers.{is_live};
ghost use Rattle.wgr_register.specs.Cached.{AreCurrent, AreOthersCurrent, IsCurrent, file_key, files_of};
ghost use Rattle.wgr_register.specs.Moments.{IsInSpan};
ghost use Rattle.wgr_register.specs.Given.{OfFile};
ghost use Rattle.wgr_register.specs.Recent.{max_recent};

use crate::given::{Given, Render};
use crate::kept_file::{KeptFile, Moments};
use crate::recent::{MAX_RECENT, Recent};
use std::alloc::{AllocError, Global};
use wgr_conf::server_file;
use wgr_core::{Change, Form, Network, Peer};

/// How many servers' files stay in memory between requests, of all tenants together.
pub const FILES_IN_MEMORY: usize = MAX_RECENT;

/// Files by their networks' ids and their forms, [`FILES_IN_MEMORY`] at most.
pub(crate) type Files = Recent<KeptFile>;

// The key of the file of this form of the network of this id.
fn file_key(id: u32, form: Form) -> u64
    ensures { result ≡ file_key id form }
{
    match form {
        Form::Wg => u64::from(id) * 2,
        Form::Quick => u64::from(id) * 2 + 1,
    }
}

// Takes out the file of this key, if it is kept.
fn take_file(files: &mut Option<Files>, key: u64) -> Option<KeptFile>
    ensures value { result ≡ lookup (nat_eq key) (files_of files.old) }
    ensures rest { files_of files.new ≡ remove_entry (nat_eq key) (files_of files.old) }
    ensures distinct { IsDistinct nat_eq (keys_of (files_of files.old)) }
{
    let mut kept = files.take()?;
    let _count = kept.len();
    let file = kept.pop(key);
    *files = Some(kept);
    file
}

// Those that are kept, or none yet.
fn files_or_new(alloc: Global, files: &mut Option<Files>) -> Result<Files, AllocError>
    ensures entries { IfOk result (λ kept. kept.entries ≡ files_of files.old) }
    ensures none { files.new ≡ None }
{
    match files.take() {
        Some(kept) => Ok(kept),
        None => Recent::new(alloc),
    }
}

// Keeps the file, in place of one that was kept.
fn keep_file(alloc: Global, files: &mut Option<Files>, id: u32, form: Form, file: KeptFile)
    ensures { (t : Tables) → AreCurrent (files_of files.old) t → IsCurrent t id form file → AreCurrent (files_of files.new) t }
{
    let Ok(mut kept) = files_or_new(alloc, files) else {
        return;
    };
    if let Ok(_) = kept.put(file_key(id, form), file) {
        *files = Some(kept);
    }
}

/// Drops the files of the network of this id.
pub(crate) fn drop_files(files: &mut Option<Files>, id: u32)
    ensures { (t : Tables) → AreOthersCurrent id (files_of files.old) t → AreCurrent (files_of files.new) t }
{
    let _short = take_file(files, file_key(id, Form::Wg));
    let _long = take_file(files, file_key(id, Form::Quick));
}

/// Drops the files of the network of this id, if it changes.
pub(crate) fn drop_changed(files: &mut Option<Files>, id: u32, change: &Option<Change>)
    ensures some { is_some change.now ≡ true → (t : Tables) → AreOthersCurrent id (files_of files.old) t → AreCurrent (files_of files.new) t }
    ensures none { is_some change.now ≡ false → files.new ≡ files.old }
{
    if change.is_some() {
        drop_files(files, id);
    }
}

/// The text made from the file that is kept for this moment, if there is one.
pub(crate) fn kept_text<R: Render>(
    alloc: Global,
    files: &mut Option<Files>,
    id: u32,
    form: Form,
    now: u64,
    render: &R,
) -> Result<Option<Vec<u8>>, AllocError>
    ensures text { (t : Tables) → AreCurrent (files_of files.old) t → IfOk result (λ found. IfSome found (λ text. (n : NetworkValue) × IsFormed t id n × (R.shown (OfFile (server_config n now form)) ≡ text.items))) }
    ensures current { (t : Tables) → AreCurrent (files_of files.old) t → AreCurrent (files_of files.new) t }
{
    let Some(file) = take_file(files, file_key(id, form)) else {
        return Ok(None);
    };
    if !file.moments.has(now) {
        return Ok(None);
    }
    let text = render.given(alloc, Given::File(&file.text))?;
    keep_file(alloc, files, id, form, file);
    Ok(Some(text))
}

/// The text made from the network's file at this moment. The file is kept.
pub(crate) fn made_text<R: Render>(
    alloc: Global,
    files: &mut Option<Files>,
    id: u32,
    network: &Network,
    form: Form,
    now: u64,
    render: &R,
) -> Result<Vec<u8>, AllocError>
    ensures text { IfOk result (λ text. R.shown (OfFile (server_config network.now now form)) ≡ text.items) }
    ensures current { (t : Tables) → AreCurrent (files_of files.old) t → IsFormed t id network.now → AreCurrent (files_of files.new) t }
{
    let file = server_file(alloc, network, now, form)?;
    let text = render.given(alloc, Given::File(&file))?;
    let moments = steady_moments(network.peers(), now);
    keep_file(
        alloc,
        files,
        id,
        form,
        KeptFile {
            text: file,
            moments,
        },
    );
    Ok(text)
}

// The moments around this one at which the same leases run.
fn steady_moments(peers: &[Peer], now: u64) -> Moments
    ensures within { IsInSpan result now }
    ensures steady { (m : ℕ) → IsInSpan result m → filter (is_live m) peers.now ≡ filter (is_live now) peers.now }
{
    let mut moments = Moments::all();
    for peer in peers {
        moments = moments.around(peer.until.seconds(), now);
    }
    moments
}

/// How many are kept.
pub(crate) fn count(files: &Option<Files>) -> usize
    ensures kept { result ≡ length (files_of files.now) }
    ensures at_most { result ≤ max_recent }
{
    match files {
        Some(kept) => kept.len(),
        None => 0,
    }
}
