//! What follows from the definition of a message. Each function does nothing: its contract is the
//! law.
ghost use Rattle.wgr_http.specs.Laws.{HeadsDecide, LongHeadsDecide, MessagesEnd, OneAnswer, RefusedHeadsDecide, ShortBodiesAreOpen, UnfinishedHeadsAreOpen};

/// Bytes are one message at most, or have one first fault.
pub fn answers_are_unique()
    ensures { OneAnswer }
{}

/// What comes after the body of a message is no part of it.
pub fn messages_end()
    ensures { MessagesEnd }
{}

/// However the bytes of a message are cut, it is decided by its head and the body that the head
/// wants, by a beginning that can't become a head, or by its first 8,193 bytes where these have none.
pub fn beginnings_decide()
    ensures head { HeadsDecide }
    ensures refused { RefusedHeadsDecide }
    ensures no_head { LongHeadsDecide }
{}

/// And nothing shorter decides it: what lacks bytes of its body, or may still become a head, is open.
pub fn shorter_beginnings_are_open()
    ensures head { ShortBodiesAreOpen }
    ensures no_head { UnfinishedHeadsAreOpen }
{}
