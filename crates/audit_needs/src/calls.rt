//! Which table a call is of.

ghost use Rattle.std.specs.Prelude.{◌≡◌, ℕ, List};
ghost use Rattle.kernel_model.specs.Bare.{call_with};
ghost use Rattle.kernel_model.specs.EventPoints as events;
ghost use Rattle.kernel_model.specs.StreamPoints as streams;

use kernel_model::BareCall;

/// Whether a point is that of a port.
fn is_event_point(pt: u32) -> bool
    ensures { result ≡ events.is_event_point pt }
{
    6 <= pt && pt <= 13
}

/// Whether a call is one of event points.
pub fn is_event_call(call: BareCall) -> bool
    ensures { (given : List ℕ) → result ≡ events.is_event_call (call_with call given) }
{
    match call {
        BareCall::Serve(_) => true,
        BareCall::Install { point, .. }
        | BareCall::Remove(point)
        | BareCall::Fund { point, .. }
        | BareCall::Bill(point) => is_event_point(point),
        _ => false,
    }
}

/// Whether a point is one of streams.
fn is_stream_point(pt: u32) -> bool
    ensures { result ≡ streams.is_stream_point pt }
{
    pt == 14 || pt == 15
}

/// Whether a call is one of stream points.
pub fn is_stream_call(call: BareCall) -> bool
    ensures { (given : List ℕ) → result ≡ streams.is_stream_call (call_with call given) }
{
    match call {
        BareCall::StreamRead { .. } | BareCall::StreamWrite { .. } => true,
        BareCall::Install { point, .. }
        | BareCall::Remove(point)
        | BareCall::Fund { point, .. }
        | BareCall::Bill(point) => is_stream_point(point),
        _ => false,
    }
}
