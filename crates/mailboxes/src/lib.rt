//! A table of two calls: a mailbox of one word for each process. An example of calls of one's own.
#![tactic(auto)]

ghost use Rattle.std.specs.Prelude.{◌≡◌, ◌==◌, true};
ghost use Rattle.kernel_model.specs.Policies.{lives};
ghost use Rattle.quick_calls.specs.Stores.{objects_of, queue_of};
ghost use Rattle.quick_calls.specs.Shared.{EndsAtOnce};
ghost use Rattle.quick_calls.specs.QuickTables.{piece_of_outcome};
ghost use Rattle.mailboxes.specs.Mailboxes as spec;

use quick_calls::{
    BareCall, Needs, Next, Object, Policy, Quick, QuickCalls, Refusal, Reply, Store, Work,
};

/// The two calls: `poke` posts a word into the box of a process, `peek` takes what lies in the own
/// box.
#[derive(Clone, Copy, Drop)]
pub struct Letters;

/// The table of mailboxes.
pub type Mailboxes = QuickCalls<Letters>;

impl Quick for Letters {
    ghost use Rattle.mailboxes.specs.Mailboxes.{mailboxes};
    ghost use Rattle.mailboxes.specs.LetterLaws.{laws_of_mailboxes};

    ghost table = { mailboxes };

    ghost laws = { laws_of_mailboxes };

    fn owns(call: BareCall) -> bool {
        matches!(call, BareCall::Poke(_, _) | BareCall::Peek(_))
    }

    fn refusal(_p: u8, call: BareCall) -> Option<Refusal> {
        match call {
            BareCall::Poke(q, x) => {
                if q > 15 {
                    Some(Refusal::NoProcess)
                } else if x == 0 {
                    Some(Refusal::BadIndex)
                } else {
                    None
                }
            }
            BareCall::Peek(k) => { if k > 0 { Some(Refusal::BadIndex) } else { None } }
            _ => Some(Refusal::BadPoint),
        }
    }

    fn need<B: Policy>(work: &Work, store: &Store<B>, needs: &mut Needs) {
        match work.call {
            BareCall::Poke(q, _) => {
                needs.shared(Object::Queue);
                if store.living(q) {
                    needs.exclusive(Object::Cell(q as u8, 0));
                }
            }
            BareCall::Peek(_) => needs.exclusive(Object::Cell(work.caller, 0)),
            _ => {}
        }
    }

    fn piece<B: Policy>(work: &Work, store: &mut Store<B>) -> Next {
        match work.call {
            BareCall::Poke(q, x) => post(store, q as u8, x),
            BareCall::Peek(_) => take(store, work.caller),
            _ => Next::Fails(Refusal::BadPoint),
        }
    }
}

/// A word is posted into the box of process q, if it lives and its box is empty.
fn post<B: Policy>(store: &mut Store<B>, q: u8, x: u32) -> Next
    ensures { EndsAtOnce (λ blocks. piece_of_outcome (objects_of store.old) blocks
        (spec.post (objects_of store.old) q x (lives (queue_of store.old) q)
        ((objects_of store.old).things.cell q 0 == 0)))
        store.old store.new result }
{
    if !store.living(u32::from(q)) {
        return Next::Fails(Refusal::NoProcess);
    }
    if store.cell(q, 0) != 0 {
        return Next::Fails(Refusal::Taken);
    }
    store.set_cell(q, 0, x);
    Next::Ends(Reply::Plain)
}

/// Process p takes what lies in its box.
fn take<B: Policy>(store: &mut Store<B>, p: u8) -> Next
    requires alive { lives (queue_of store.old) p ≡ true }
    ensures { EndsAtOnce (λ blocks. piece_of_outcome (objects_of store.old) blocks
        (spec.taken (objects_of store.old) p))
        store.old store.new result }
{
    let letter = store.cell(p, 0);
    store.set_cell(p, 0, 0);
    Next::Ends(Reply::One(letter))
}
