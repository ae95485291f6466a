//! The pieces of a `serve`.

ghost use Rattle.std.specs.Prelude.{◌≡◌, ◌<◌, ◌≤◌, ◌+◌, ℕ, true, false, List, Option, length, nat_lt, option_map};
ghost use Rattle.std.specs.List.{list_all};
ghost use Rattle.kernel_model.specs.World.{Blocks};
ghost use Rattle.kernel_model.specs.Handlers.{AreHandlers, handlers_at};
ghost use Rattle.kernel_model.specs.Meaning.{Answer};
ghost use Rattle.kernel_model.specs.EventPoints as spec;
ghost use Rattle.call_pieces.specs.Calls.{Knows};
ghost use Rattle.call_pieces.specs.Stores.{objects_of};
ghost use Rattle.call_pieces.specs.Works.{call_of, stage_of, answer_seen};
ghost use Rattle.call_pieces.specs.Matching.{comes_after, PieceMatches, is_fault, goes_on};
ghost use Rattle.event_points.specs.Serving.{with_taken, past_handler, next_for, ServeContinues};

use crate::begin::FIRST_POINT;
use arrayvec::ArrayVec;
use call_pieces::{Gift, MOST_HANDLERS, Next, Policy, Store, Work};
use kernel_model::Reply;

/// The next piece of a `serve`: the first takes the handlers of the port into the call, each later
/// one is that of the next of them.
pub(crate) fn serve<B: Policy>(
    work: &mut Work,
    store: &Store<B>,
    port: u32,
    answer: Option<[u32; 4]>,
    gave: &mut Gift,
) -> Next
    requires process { work.old.caller < 16 }
    requires port { port < 8 }
    requires fits { spec.serve_fits work.old.piece port work.old.handlers.items work.old.answers
        ≡ true }
    ensures does { (blocks : Blocks) (known : Option (List (List ℕ))) → Knows known blocks →
        PieceMatches (spec.serve_piece work.old.piece (call_of work.old) port
        work.old.handlers.items work.old.answers (objects_of store.now) blocks
        (answer_seen store.now.ram work.old.caller answer))
        (objects_of store.now) known gave.new (comes_after result (stage_of work.new)) 0 }
    ensures gone { goes_on result ≡ true → ServeContinues port work.old work.new }
    ensures no_fault { is_fault result ≡ false }
{
    if work.piece == 0 {
        gave.clear();
        return take_handlers(work, store, port);
    }
    give_answer(gave, store, work.caller, answer);
    pass_handler(work, answer)
}

/// The handlers of a port go into the call, and none of them answered yet.
fn take_handlers<B: Policy>(work: &mut Work, store: &Store<B>, port: u32) -> Next
    requires { port < 8 }
    ensures work { work.new ≡ with_taken
        (handlers_at (spec.point_of_port port) (objects_of store.now).things.handlers) work.old }
    ensures next { result ≡ next_for
        (handlers_at (spec.point_of_port port) (objects_of store.now).things.handlers) 0 }
    ensures few { length work.new.handlers.items ≤ 8 }
    ensures of_port { list_all (spec.is_of_port port) work.new.handlers.items ≡ true }
{
    handlers_are_few(store);
    work.carry_nothing();
    copy_handlers(
        store.procs.handlers(),
        (FIRST_POINT + port) as u8,
        &mut work.handlers,
    );
    work.piece = 1;
    next_piece(work)
}

/// Few handlers stand at each point, and each is of a process. Does nothing: a law for proofs.
fn handlers_are_few<B: Policy>(store: &Store<B>)
    ensures few { AreHandlers (objects_of store.now).things.handlers }
    ensures processes { list_all (λ (h : ℕ × ℕ). nat_lt h.0 16)
        (objects_of store.now).things.handlers ≡ true }
{
    store.procs.rows();
}

/// The next handler had its piece, with an answer or by default.
fn pass_handler(work: &mut Work, answer: Option<[u32; 4]>) -> Next
    requires handlers { 1 ≤ length work.old.handlers.items }
    requires pieces { work.old.piece < 9 }
    requires answers { work.old.answers < 9 }
    ensures work { (ram : List ℕ) (p : ℕ) → work.new ≡ past_handler
        (spec.answers_with (answer_seen ram p answer) work.old.answers) work.old }
    ensures next { result ≡ next_for work.new.handlers.items work.new.answers }
{
    work.handlers.remove(0);
    work.answers = count_answer(work.answers, answer);
    work.carried.clear();
    work.piece += 1;
    next_piece(work)
}

/// A `serve` goes on with the handlers that are left, or ends with how many answered.
fn next_piece(work: &Work) -> Next
    ensures { result ≡ next_for work.now.handlers.items work.now.answers }
{
    if work.handlers.as_slice().is_empty() {
        Next::Ends(Reply::One(u32::from(work.answers)))
    } else {
        Next::Goes
    }
}

/// The handlers at a point, in their order, take the place of what a list had.
fn copy_handlers(handlers: &[(u8, u8)], pt: u8, to: &mut ArrayVec<(u8, u8), MOST_HANDLERS>)
    requires { length (handlers_at pt handlers.now) ≤ 8 }
    ensures { to.new.items ≡ handlers_at pt handlers.now }
{
    to.clear();
    for h in handlers {
        if h.1 == pt {
            to.push(*h);
        }
    }
}

/// Gives the bytes of an answer, and nothing by default.
fn give_answer<B: Policy>(gave: &mut Gift, store: &Store<B>, p: u8, answer: Option<[u32; 4]>)
    requires { p < 16 }
    ensures { gave.new ≡ option_map (λ (a : Answer). a.body) (answer_seen store.now.ram p answer) }
{
    match answer {
        Some(a) => gave.give_body(store, p, a),
        None => gave.clear(),
    }
}

/// One more where there is an answer.
fn count_answer(answers: u8, answer: Option<[u32; 4]>) -> u8
    requires { answers < 9 }
    ensures { (ram : List ℕ) (p : ℕ) →
        result ≡ spec.answers_with (answer_seen ram p answer) answers }
{
    match answer {
        Some(_) => answers + 1,
        None => answers,
    }
}
