//! The objects that pieces need, the points that they ask, and what the handlers are fed.

ghost use Rattle.std.specs.Prelude.{◌≡◌, ◌<◌, ◌≤◌, ℕ, true, [], ◌∷◌, ◌++◌, nat_lt, length};
ghost use Rattle.std.specs.List.{list_all};
ghost use Rattle.kernel_model.specs.declared.Object.TheVariants.{Graft};
ghost use Rattle.kernel_model.specs.Needs.{exclusive, point_needs};
ghost use Rattle.kernel_model.specs.EventPoints as spec;
ghost use Rattle.call_pieces.specs.Stores.{world_of_store, objects_of};
ghost use Rattle.call_pieces.specs.Works.{IsDue, call_of, stage_of};

use call_pieces::{Needs, Policy, Store, Work};
use kernel_model::{BareCall, Object, Point};

/// The objects that the next piece of a call needs, in order. They take the place of what the list
/// had.
pub(crate) fn need<B: Policy>(work: &Work, store: &Store<B>, needs: &mut Needs)
    requires ready { IsDue spec.event_points (world_of_store store.now) (objects_of store.now)
        work.now.caller (stage_of work.now) }
    ensures { needs.new ≡ spec.event_needs (call_of work.now) work.now.piece work.now.handlers.items
        (objects_of store.now) work.now.caller }
{
    needs.clear();
    let p = work.caller;
    match work.call {
        BareCall::Serve(_) if work.piece == 0 => needs.shared(Object::Queue),
        BareCall::Serve(_) => handler_needs(work.handlers.as_slice(), store, needs),
        BareCall::Install { point: pt, .. } => install_needs(store, p, pt as u8, needs),
        BareCall::Remove(pt) => remove_needs(store, p, pt as u8, needs),
        BareCall::Fund { point: pt, .. } => needs.point(store, p, pt as u8),
        BareCall::Bill(pt) => needs.exclusive(Object::Graft(p, pt as u8)),
        _ => {}
    }
}

/// The point of the next handler.
fn handler_needs<B: Policy>(handlers: &[(u8, u8)], store: &Store<B>, needs: &mut Needs)
    requires points { list_all (λ (h : ℕ × ℕ). nat_lt h.1 16) handlers.now ≡ true }
    requires empty { needs.old ≡ [] }
    ensures { needs.new ≡ spec.serve_needs 1 (objects_of store.now) handlers.now }
{
    if let Some(h) = handlers.first() {
        needs.point(store, h.0, h.1);
    }
}

/// The graft, and the queue, which has the handlers, where none stands.
fn install_needs<B: Policy>(store: &Store<B>, p: u8, pt: u8, needs: &mut Needs)
    requires point { pt < 16 }
    requires empty { needs.old ≡ [] }
    ensures { needs.new ≡ exclusive (Graft p pt)
        ∷ spec.handlers_unless ((objects_of store.now).accounts.graft p pt) }
{
    needs.exclusive(Object::Graft(p, pt));
    if !store.has_graft(p, pt) {
        needs.exclusive(Object::Queue);
    }
}

/// The point, and the queue, which has the handlers, where a graft stands.
fn remove_needs<B: Policy>(store: &Store<B>, p: u8, pt: u8, needs: &mut Needs)
    requires point { pt < 16 }
    requires empty { needs.old ≡ [] }
    ensures { needs.new ≡ point_needs (objects_of store.now).accounts p pt
        ++ spec.handlers_where ((objects_of store.now).accounts.graft p pt) }
{
    needs.point(store, p, pt);
    if store.has_graft(p, pt) {
        needs.exclusive(Object::Queue);
    }
}

/// The point that the next piece of a call asks, with its arguments: that of the next handler.
pub(crate) fn asks(work: &Work) -> Option<Point>
    ensures { result ≡ spec.event_ask (call_of work.now) work.now.piece work.now.handlers.items
        work.now.caller }
{
    match work.call {
        BareCall::Serve(port) if work.piece > 0 => handler_ask(port, work),
        _ => None,
    }
}

/// The point of the next handler of a `serve`, which is asked with the port, how many bytes the
/// event has, and who serves it.
fn handler_ask(port: u32, work: &Work) -> Option<Point>
    ensures { result ≡ spec.serve_ask 1 port (length work.now.bytes.items) work.now.caller
        work.now.handlers.items }
{
    let h = work.handlers.as_slice().first()?;
    Some(Point {
        installer: h.0,
        point: h.1,
        args: [
            port,
            work.bytes.as_slice().len() as u32,
            u32::from(work.caller),
            0,
        ],
    })
}

/// The bytes that the graft is fed which the next piece of a call asks: the event.
pub(crate) fn feed(work: &Work) -> &[u8]
    ensures value { result.now ≡ spec.event_feed (call_of work.now) }
    ensures few { length result.now ≤ 512 }
{
    match work.call {
        BareCall::Serve(_) => work.bytes.as_slice(),
        _ => &[],
    }
}
