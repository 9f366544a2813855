//! Networks that were lately asked on their rows, without being loaded. One that is asked again soon is loaded.
//!
//! No contract needs them: in memory or on its rows, a network answers the same.
use crate::recent::Recent;
use std::alloc::Global;

/// The ids of such networks, as many as stay in memory.
pub(crate) type Asked = Recent<()>;

/// Whether the network of this id was not asked on its rows lately. From now on it was. `false` also where
/// memory is refused.
pub(crate) fn is_first(alloc: Global, asked: &mut Option<Asked>, id: u32) -> bool {
    let mut ids = match asked.take() {
        Some(ids) => ids,
        None => match Recent::new(alloc) {
            Ok(ids) => ids,
            Err(_) => return false,
        },
    };
    let key = u64::from(id);
    let is_first = ids.pop(key).is_none() && ids.put(key, ()).is_ok();
    *asked = Some(ids);
    is_first
}
