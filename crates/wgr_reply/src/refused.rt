//! What the reply to a refusal has in addition to its name: a status and a fact.
ghost use Rattle.std.specs.Prelude.{◌≡◌};
ghost use Rattle.wgr_reply.specs.Bodies.{fact_members};
ghost use Rattle.wgr_reply.specs.Refused.{refusal_facts, refusal_status};

use crate::bodies::Fact;
use wgr_core::{CommandRefusal, Refusal};
use wgr_http::StatusCode;

// The status of the reply.
pub(crate) fn status_of(refused: CommandRefusal) -> StatusCode
    ensures { result ≡ refusal_status refused }
{
    match refused.why {
        Refusal::NoSuchPeer | Refusal::NoSuchRoute | Refusal::NobodysAddress =>
            StatusCode::NotFound,
        Refusal::KeyHeld { .. }
        | Refusal::AddressHeld
        | Refusal::OutsidePool
        | Refusal::PoolFull
        | Refusal::CapacityReached
        | Refusal::NumbersSpent
        | Refusal::IsAddress
        | Refusal::RoutesFull
        | Refusal::LeaseOver
        | Refusal::ServerKey
        | Refusal::WrongServer => StatusCode::Conflict,
    }
}

// The fact that the refusal carries: of a line, its number.
pub(crate) fn fact_of(refused: CommandRefusal) -> Fact<'static>
    ensures { fact_members result ≡ refusal_facts refused }
{
    if let Some(line) = refused.line {
        return Fact::Line(line);
    }
    match refused.why {
        Refusal::KeyHeld { number } => Fact::Number(number),
        Refusal::NoSuchPeer
        | Refusal::AddressHeld
        | Refusal::OutsidePool
        | Refusal::PoolFull
        | Refusal::CapacityReached
        | Refusal::NumbersSpent
        | Refusal::IsAddress
        | Refusal::NoSuchRoute
        | Refusal::RoutesFull
        | Refusal::NobodysAddress
        | Refusal::LeaseOver
        | Refusal::ServerKey
        | Refusal::WrongServer => Fact::None,
    }
}
