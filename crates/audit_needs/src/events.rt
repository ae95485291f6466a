//! What the pieces of the calls of event points need, and which points they ask.

ghost use Rattle.std.specs.Prelude.{◌≡◌, ◌++◌, ◌∷◌, ℕ, List, OnOk, IfOk, length};
ghost use Rattle.kernel_model.specs.Bare.{call_with};
ghost use Rattle.kernel_model.specs.declared.Object.TheVariants.{Graft};
ghost use Rattle.kernel_model.specs.EventPoints as model;
ghost use Rattle.kernel_model.specs.Needs.{exclusive, point_needs};
ghost use Rattle.audit_state.specs.Accounts.{accounts_of};
ghost use Rattle.audit_needs.specs.Stages.{objects_of};

use crate::Scene;
use crate::lists::{exclusive, point, shared};
use audit_state::policies::{byte_of, word_of};
use kernel_model::{BareCall, Need, NoMemory, Object, Point};

/// First the queue, which has the handlers; then the point of the next of them.
fn serve_needs(
    out: &mut Vec<Need>,
    scene: &Scene<'_>,
    piece: u32,
    handlers: &[(u8, u8)],
) -> Result<(), NoMemory>
    ensures { OnOk result ((bytes : ℕ → List ℕ) → out.new.items ≡ out.old.items
        ++ model.serve_needs piece (objects_of bytes scene.now.accounts.now scene.now.things.now)
        handlers.now) }
{
    if piece == 0 {
        shared(out, Object::Queue)?;
        return Ok(());
    }
    match handlers {
        [] => Ok(()),
        [h, ..] => {
            point(out, scene.accounts, h.0, h.1)?;
            Ok(())
        }
    }
}

/// The graft of a point, and the queue where none stands.
fn install_needs(out: &mut Vec<Need>, scene: &Scene<'_>, p: u8, pt: u8) -> Result<(), NoMemory>
    ensures { OnOk result (out.new.items ≡ out.old.items
        ++ (exclusive (Graft p pt) ∷ model.handlers_unless
        ((accounts_of scene.now.accounts.now).graft p pt))) }
{
    exclusive(out, Object::Graft(p, pt))?;
    match scene.accounts.graft(p, pt) {
        None => {
            exclusive(out, Object::Queue)?;
            Ok(())
        }
        Some(_) => Ok(()),
    }
}

/// The objects of a point, and the queue where a graft stands.
fn remove_needs(out: &mut Vec<Need>, scene: &Scene<'_>, p: u8, pt: u8) -> Result<(), NoMemory>
    ensures { OnOk result (out.new.items ≡ out.old.items
        ++ (point_needs (accounts_of scene.now.accounts.now) p pt ++ model.handlers_where
        ((accounts_of scene.now.accounts.now).graft p pt))) }
{
    point(out, scene.accounts, p, pt)?;
    match scene.accounts.graft(p, pt) {
        None => Ok(()),
        Some(_) => {
            exclusive(out, Object::Queue)?;
            Ok(())
        }
    }
}

/// The objects of the next piece of a call of event points.
pub(crate) fn event_needs(
    out: &mut Vec<Need>,
    scene: &Scene<'_>,
    p: u8,
    call: BareCall,
    piece: u32,
    handlers: &[(u8, u8)],
) -> Result<(), NoMemory>
    ensures { OnOk result ((bytes : ℕ → List ℕ) (given : List ℕ) →
        out.new.items ≡ out.old.items ++ model.event_needs (call_with call given) piece handlers.now
        (objects_of bytes scene.now.accounts.now scene.now.things.now) p) }
{
    match call {
        BareCall::Serve(_) => serve_needs(out, scene, piece, handlers),
        BareCall::Install { point: pt, .. } => install_needs(out, scene, p, byte_of(pt)?),
        BareCall::Remove(pt) => remove_needs(out, scene, p, byte_of(pt)?),
        BareCall::Fund { point: pt, .. } => point(out, scene.accounts, p, byte_of(pt)?),
        BareCall::Bill(pt) => exclusive(out, Object::Graft(p, byte_of(pt)?)),
        _ => Ok(()),
    }
}

/// The point of a handler is asked with the port, how many bytes the event has, and who serves it.
fn serve_ask(
    piece: u32,
    port: u32,
    count: usize,
    p: u8,
    handlers: &[(u8, u8)],
) -> Result<Option<Point>, NoMemory>
    ensures { IfOk result (λ a. a ≡ model.serve_ask piece port count p handlers.now) }
{
    if piece == 0 {
        return Ok(None);
    }
    match handlers {
        [] => Ok(None),
        [h, ..] => {
            let count = word_of(count)?;
            Ok(Some(Point {
                installer: h.0,
                point: h.1,
                args: [port, count, u32::from(p), 0],
            }))
        }
    }
}

/// The point that the next piece of a call of event points asks.
pub(crate) fn event_ask(
    p: u8,
    call: BareCall,
    given: &[u8],
    piece: u32,
    handlers: &[(u8, u8)],
) -> Result<Option<Point>, NoMemory>
    ensures { IfOk result (λ a.
        a ≡ model.event_ask (call_with call given.now) piece handlers.now p) }
{
    match call {
        BareCall::Serve(port) => serve_ask(piece, port, given.len(), p, handlers),
        _ => Ok(None),
    }
}
