//! A table of two calls: counters that all processes share, and their limit. An example of calls of
//! your own.
#![tactic(auto)]

ghost use Rattle.std.specs.Prelude.{◌+◌, ◌<◌, ◌==◌, nat_lt};
ghost use Rattle.kernel_model.specs.Policies.{lives};
ghost use Rattle.quick_calls.specs.Stores.{objects_of, queue_of};
ghost use Rattle.quick_calls.specs.Shared.{EndsAtOnce};
ghost use Rattle.quick_calls.specs.QuickTables.{piece_of_outcome};
ghost use Rattle.counters.specs.Table as spec;

use quick_calls::{
    BareCall, Needs, Next, Object, Policy, Quick, QuickCalls, Refusal, Reply, Store, Work,
};

/// The two calls: `poke` adds to a counter or sets the limit, `peek` reads one.
#[derive(Clone, Copy, Drop)]
pub struct Own;

/// The table of counters.
pub type Counters = QuickCalls<Own>;

impl Quick for Own {
    ghost use Rattle.counters.specs.Table.{counters};
    ghost use Rattle.counters.specs.TableLaws.{laws_of_counters};

    ghost table = { counters };

    ghost laws = { laws_of_counters };

    fn owns(call: BareCall) -> bool {
        matches!(call, BareCall::Poke(_, _) | BareCall::Peek(_))
    }

    fn refusal(p: u8, call: BareCall) -> Option<Refusal> {
        match call {
            BareCall::Poke(k, _) => {
                if k > 3 {
                    Some(Refusal::BadIndex)
                } else if k == 3 && p > 0 {
                    Some(Refusal::Denied)
                } else {
                    None
                }
            }
            BareCall::Peek(k) => { if k > 3 { Some(Refusal::BadIndex) } else { None } }
            _ => Some(Refusal::BadPoint),
        }
    }

    fn need<B: Policy>(work: &Work, store: &Store<B>, needs: &mut Needs) {
        match work.call {
            BareCall::Poke(k, _) => {
                needs.shared(Object::Queue);
                if store.living(0) {
                    if k == 3 {
                        needs.exclusive(Object::Cell(0, k as u8));
                    } else {
                        needs.shared(Object::Cell(0, 3));
                        needs.exclusive(Object::Cell(0, k as u8));
                    }
                }
            }
            BareCall::Peek(k) => {
                needs.shared(Object::Queue);
                if store.living(0) {
                    needs.shared(Object::Cell(0, k as u8));
                }
            }
            _ => {}
        }
    }

    fn piece<B: Policy>(work: &Work, store: &mut Store<B>) -> Next {
        match work.call {
            BareCall::Poke(k, x) => poke(store, k as u8, x),
            BareCall::Peek(k) => peek(store, k as u8),
            _ => Next::Fails(Refusal::BadPoint),
        }
    }
}

/// A word is added to counter k, if the sum isn't above the limit; or it becomes the limit.
fn poke<B: Policy>(store: &mut Store<B>, k: u8, x: u32) -> Next
    requires { k < 4 }
    ensures { EndsAtOnce (λ blocks. piece_of_outcome (objects_of store.old) blocks
        (spec.poked (objects_of store.old) k x (lives (queue_of store.old) 0) (k == 3)
        (nat_lt ((objects_of store.old).things.cell 0 3)
        ((objects_of store.old).things.cell 0 k + x))))
        store.old store.new result }
{
    if !store.living(0) {
        return Next::Fails(Refusal::NoProcess);
    }
    if k == 3 {
        store.set_cell(0, k, x);
        return Next::Ends(Reply::Plain);
    }
    let sum = u64::from(store.cell(0, k)) + u64::from(x);
    if sum > u64::from(store.cell(0, 3)) {
        return Next::Fails(Refusal::Full);
    }
    store.set_cell(0, k, sum as u32);
    Next::Ends(Reply::One(sum as u32))
}

/// Counter k, or the limit.
fn peek<B: Policy>(store: &mut Store<B>, k: u8) -> Next
    requires { k < 4 }
    ensures { EndsAtOnce (λ blocks. piece_of_outcome (objects_of store.old) blocks
        (spec.peeked (objects_of store.old) k (lives (queue_of store.old) 0)))
        store.old store.new result }
{
    if !store.living(0) {
        return Next::Fails(Refusal::NoProcess);
    }
    Next::Ends(Reply::One(store.cell(0, k)))
}
