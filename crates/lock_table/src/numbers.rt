//! The numbers of objects.

ghost use Rattle.std.specs.Prelude.{◌≡◌, ◌<◌};
ghost use Rattle.kernel_model.specs.Laws.{IsInRange};
ghost use Rattle.lock_table.specs.Numbers.{number_of};

use kernel_model::Object;

const FIRST_ACCT: u16 = 256;

const FIRST_CELL: u16 = 272;

const FIRST_FILE: u16 = 336;

const QUEUE: u16 = 400;

const CACHE: u16 = 401;

const FIRST_LOCK: u16 = 402;

const FIRST_POLICY: u16 = 418;

/// The number of an object. Those whose own numbers are in their ranges have the numbers 0 to 420,
/// each its own (`laws`).
#[tactic(auto, unfolding(crate::specs::Numbers::number_of))]
pub fn object_number(o: &Object) -> u16
    ensures value { result ≡ number_of o.now }
    ensures below { IsInRange o.now → result < 421 }
{
    match *o {
        Object::Graft(q, pt) => 16 * q as u16 + pt as u16,
        Object::Acct(q) => FIRST_ACCT + q as u16,
        Object::Cell(q, k) => FIRST_CELL + 4 * q as u16 + k as u16,
        Object::OpenFile(q, fd) => FIRST_FILE + 4 * q as u16 + fd as u16,
        Object::Queue => QUEUE,
        Object::Cache => CACHE,
        Object::Lock(u) => FIRST_LOCK + u as u16,
        Object::Pol(kind) => FIRST_POLICY + kind as u16,
    }
}
