// What a call of an index is answered.
use bz_call::Reply;
use bz_world::LimitKind;

/// The answer to a call. All but `Reply` leave the worker without an End of the call.
#[derive(Clone, Copy)]
pub enum Answer {
    /// The call has ended with this reply.
    Reply(Reply),

    /// The power was off when the call would have begun, or was cut since it began.
    Off,

    /// The recovery had not ended when the call would have begun.
    Recovering,

    /// The journal has no room.
    Limit(LimitKind),
}
