//! What is known of networks that aren't in memory, so that a new peer of such a network costs no search
//! for expired ones before a lease ends, and none for a free address where all are held.
//!
//! An opening learns it of each network, and each answer tells what becomes of it. Where memory is refused,
//! and after a fault, nothing is known, until an answer tells it again.
ghost use Rattle.std.specs.Prelude.{◌≡◌, ℕ, None};
ghost use Rattle.wgr_core.specs.Network.{NetworkValue};
ghost use Rattle.wgr_model.specs.RowLaws.{AreConsistent};
ghost use Rattle.wgr_model.specs.Rows.{IsFormed, Tables};
ghost use Rattle.wgr_opening.specs.Outlines.{AreOutlines, outline_in};
ghost use Rattle.wgr_outline.specs.Outline.{IsOutline};
ghost use Rattle.wgr_register.specs.Known.{AreOtherOutlines, known_outline};

use std::alloc::Global;
use wgr_opening::Outlines;
use wgr_outline::Outline;

/// An outline of the network of this id: of any network, if none is known of it.
pub(crate) fn outline_of(outlines: &Option<Outlines>, id: u32) -> Outline
    ensures { (t : Tables) (n : NetworkValue) → AreConsistent t → AreOutlines (known_outline outlines.now) t → IsFormed t id n → IsOutline result n }
{
    let Some(known) = outlines else {
        return Outline::unknown();
    };
    match known.outline(id) {
        Some(outline) => outline,
        None => Outline::unknown(),
    }
}

// What is known, or nothing yet.
fn taken_or_new(alloc: Global, outlines: &mut Option<Outlines>) -> Outlines
    ensures outlines { (id : ℕ) → outline_in result id ≡ known_outline outlines.old id }
    ensures none { outlines.new ≡ None }
{
    match outlines.take() {
        Some(known) => known,
        None => Outlines::new(alloc),
    }
}

/// From now on, this is the outline of the network of this id.
pub(crate) fn note(alloc: Global, outlines: &mut Option<Outlines>, id: u32, outline: Outline)
    ensures { (t : Tables) (n : NetworkValue) → AreOtherOutlines id (known_outline outlines.old) t → IsFormed t id n → IsOutline outline n → AreOutlines (known_outline outlines.new) t }
{
    let mut known = taken_or_new(alloc, outlines);
    if let Ok(_) = known.put(id, outline) {
        *outlines = Some(known);
    }
}

/// Forgets what is known of the network of this id.
pub(crate) fn forget_outline(outlines: &mut Option<Outlines>, id: u32)
    ensures { (t : Tables) → AreOtherOutlines id (known_outline outlines.old) t → AreOutlines (known_outline outlines.new) t }
{
    if let Some(known) = outlines {
        known.forget(id);
    }
}
