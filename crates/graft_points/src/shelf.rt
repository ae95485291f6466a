//! The policies of a kernel on a shelf: the chosen ones are asked and tuned.

ghost use Rattle.std.specs.Prelude.{◌≡◌, ◌≢◌, ◌<◌, ◌↔◌, ◌==◌, ℕ, true, IsTrue, IfOk, IfErr, map};
ghost use Rattle.std.specs.Prelude.{length, Some, [], ◌∷◌, ◌++◌, slice_index, slice_index_or};
ghost use Rattle.std.specs.List.{list_any};
ghost use Rattle.kernel_model.specs.declared.FrameRow.{FrameRow as Frame};
ghost use Rattle.kernel_model.specs.Objects.{CacheValue, at};
ghost use Rattle.kernel_model.specs.Access.{in_range, param_top, with_param};
ghost use Rattle.kernel_model.specs.Opening.{opening_policy};
ghost use Rattle.kernel_model.specs.Policies.{ahead_in, victim_among, next_process, lives};
ghost use Rattle.kernel_model.specs.RawRows.{shown_param};
ghost use Rattle.graft_points.specs.Views.{kind_of_code, top_of_code, asked_kind, has_choice};
ghost use Rattle.graft_points.specs.Views.{answer_of, answer_by, MarksOf, victim_of};
ghost use Rattle.graft_points.specs.Shelf.{IsShelf, view_at, code_of, params_of, stock_view};
ghost use Rattle.graft_points.specs.Shelf.{stock_views, retuned, shelf_with, pol_of, first_choice};
ghost use Rattle.graft_points.specs.Shelf.{head_of};

use crate::ask::Ask;
use crate::choice::Choice;
use crate::policy::Policy;
use fixed_room::Room;
use kernel_model::{FrameRow, OpenRow, QueueRow};
use std::alloc::AllocError;
use std::marker::Model;

/// The policies on a shelf.
pub const POLICIES: usize = 7;

/// Policies, seen as the list of what is seen of each.
#[derive(Drop)]
pub struct Shelf<B: Policy> {
    boxes: Room<B>,
}

impl<B: Policy> Model for Shelf<B> {
    ghost use Rattle.std.specs.Prelude.{List, map};
    ghost use Rattle.graft_points.specs.Views.{PolicyView};

    ghost Value = { List PolicyView };

    ghost view = { λ s. map B.seen s.boxes.items };
}

/// The codes and the parameters of the stock policies at boot.
const STOCK: [(u8, Option<u32>); POLICIES] = [
    (0, None),
    (1, Some(2)),
    (2, Some(1)),
    (3, None),
    (4, Some(0)),
    (5, None),
    (6, Some(0)),
];

/// The code of a policy.
fn code_in<B: Policy>(policy: &B) -> u8
    ensures { result ≡ (B.seen policy.now).code }
{
    policy.code()
}

/// How many parameters a policy has.
fn count_in<B: Policy>(policy: &B) -> u8
    ensures { result ≡ length (B.seen policy.now).params }
{
    policy.params()
}

/// The first parameter of a policy.
fn first_in<B: Policy>(policy: &B) -> u32
    requires { 0 < length (B.seen policy.now).params }
    ensures { result ≡ slice_index (B.seen policy.now).params 0 }
{
    policy.get(0)
}

/// The parameter of a policy, if it has one.
fn param_in<B: Policy>(policy: &B) -> Option<u32>
    ensures { result ≡ head_of (B.seen policy.now).params }
{
    if count_in(policy) == 0 {
        None
    } else {
        Some(first_in(policy))
    }
}

/// What a policy answers.
fn ask_policy<B: Policy>(policy: &B, ask: &Ask) -> u32
    requires kind { asked_kind ask.now ≡ kind_of_code (B.seen policy.now).code }
    requires some { has_choice ask.now ≡ true }
    ensures value { result ≡ answer_of (B.seen policy.now) ask.now }
    ensures byte { 0 < asked_kind ask.now → result < 256 }
{
    policy.answer(ask)
}

/// Sets the parameter of a policy.
fn tune<B: Policy>(policy: &mut B, v: u32)
    requires number { 0 < length (B.seen policy.old).params }
    requires range { in_range (top_of_code (B.seen policy.old).code) 0 v ≡ true }
    ensures { B.seen policy.new ≡ retuned v (B.seen policy.old) }
{
    policy.set(0, v);
}

/// Whether a policy has this parameter, or none.
fn has_param<B: Policy>(policy: &B, param: Option<u32>) -> bool
    ensures { IsTrue result ↔ (B.seen policy.now).params ≡ params_of param }
{
    match param {
        None => count_in(policy) == 0,
        Some(x) => count_in(policy) == 1 && first_in(policy) == x,
    }
}

/// Whether a policy has this code, and this parameter or none.
fn is_like<B: Policy>(policy: &B, code: u8, param: Option<u32>) -> bool
    ensures { IsTrue result ↔ B.seen policy.now ≡ stock_view code param }
{
    code_in(policy) == code && has_param(policy, param)
}

/// Whether the policy at a place has this code, and this parameter or none.
fn is_like_at<B: Policy>(shelf: &[B], i: usize, code: u8, param: Option<u32>) -> bool
    requires { i < length shelf.now }
    ensures { IsTrue result ↔ view_at (map B.seen shelf.now) i ≡ stock_view code param }
{
    is_like(&shelf[i], code, param)
}

#[tactic(auto, using(crate::proofs::Places::alike_at, crate::proofs::Places::alike_everywhere))]
/// Whether the policies of a shelf have these codes and parameters, in order.
fn are_like<B: Policy>(shelf: &[B], table: &[(u8, Option<u32>)]) -> bool
    ensures { IsTrue result ↔ map B.seen shelf.now ≡ map (λ s. stock_view s.0 s.1) table.now }
{
    if shelf.len() != table.len() {
        return false;
    }
    for i in 0..table.len() {
        if !is_like_at(shelf, i, table[i].0, table[i].1) {
            return false;
        }
    }
    true
}

#[tactic(auto, using(crate::proofs::Tuned::stock_is_shelf, crate::proofs::Tuned::stock_opens))]
/// Whether these are the seven stock policies in the order of their codes, with their parameters at
/// boot.
pub fn is_stock<B: Policy>(shelf: &[B]) -> bool
    ensures exact { IsTrue result ↔ map B.seen shelf.now ≡ stock_views }
    ensures shelf { IsTrue result → IsShelf (map B.seen shelf.now) }
    ensures opening { IsTrue result → pol_of (map B.seen shelf.now) first_choice ≡ opening_policy }
{
    are_like(shelf, &STOCK)
}

/// Puts a policy last on a shelf, which is known to have this code, and this parameter or none.
/// Err, with the shelf as it was, comes for want of memory alone.
pub fn put_last<B: Policy>(
    shelf: &mut Vec<B>,
    policy: B,
    code: u8,
    param: Option<u32>,
) -> Result<(), AllocError>
    requires { B.seen policy ≡ stock_view code param }
    ensures placed { IfOk result (λ _. map B.seen shelf.new.items ≡
        map B.seen shelf.old.items ++ stock_view code param ∷ []) }
    ensures failed { IfErr result (λ _. map B.seen shelf.new.items ≡ map B.seen shelf.old.items) }
{
    match shelf.push(policy) {
        Ok(()) => Ok(()),
        Err(_) => Err(AllocError),
    }
}

#[tactic(auto, using(crate::proofs::Places::shelf_with_map))]
/// Sets the parameter of the policy at a place. The other policies stay what they were, whatever
/// they are.
fn tune_in<B: Policy>(boxes: &mut [B], i: usize, v: u32)
    requires place { i < length boxes.old }
    requires number { 0 < length (view_at (map B.seen boxes.old) i).params }
    requires range { in_range (top_of_code (view_at (map B.seen boxes.old) i).code) 0 v ≡ true }
    ensures views { map B.seen boxes.new ≡ shelf_with i v (map B.seen boxes.old) }
    ensures others { (j : ℕ) (d : _) → j ≢ i →
        slice_index_or boxes.new j d ≡ slice_index_or boxes.old j d }
{
    tune(&mut boxes[i], v);
}

impl<B: Policy> Shelf<B> {
    /// The shelf of these policies.
    pub fn of(boxes: Vec<B>) -> Shelf<B>
        ensures { result ≡ map B.seen boxes.items }
    {
        Shelf {
            boxes: Room::of(boxes),
        }
    }

    /// The policies, in the order of the shelf.
    pub fn policies(&self) -> &[B]
        ensures { map B.seen result.now ≡ self.now }
    {
        self.boxes.as_slice()
    }

    /// What the policy at a place answers.
    fn ask_at(&self, i: usize, ask: &Ask) -> u32
        requires place { i < length self.now }
        requires kind { asked_kind ask.now ≡ kind_of_code (view_at self.now i).code }
        requires some { has_choice ask.now ≡ true }
        ensures value { result ≡ answer_of (view_at self.now i) ask.now }
        ensures byte { 0 < asked_kind ask.now → result < 256 }
    {
        ask_policy(&self.boxes[i], ask)
    }

    /// The parameter of the policy at a place, if it has one.
    fn param_at(&self, i: usize) -> Option<u32>
        requires { i < length self.now }
        ensures { result ≡ head_of (view_at self.now i).params }
    {
        param_in(&self.boxes[i])
    }

    /// What the chosen policy of a kind answers to a question of that kind, with at least one to
    /// choose.
    #[tactic(auto, using(crate::proofs::Chosen::chosen_answers, crate::proofs::Chosen::kind_of_its_code))]
    pub fn ask_chosen(&self, choice: &Choice, kind: u8, ask: &Ask) -> u32
        requires shelf { IsShelf self.now }
        requires range { kind < 3 }
        requires asked { asked_kind ask.now ≡ kind }
        requires some { has_choice ask.now ≡ true }
        ensures value { result ≡ answer_by (pol_of self.now choice.now kind) ask.now }
        ensures byte { 0 < asked_kind ask.now → result < 256 }
    {
        self.ask_at(choice.code(kind) as usize, ask)
    }

    /// Where reading ahead starts in an open file of so many blocks, and by how many, as the chosen
    /// policy has it.
    pub fn ahead(&self, choice: &Choice, file: &OpenRow, blocks: u32) -> (u32, u32)
        requires { IsShelf self.now }
        ensures { result ≡ ahead_in (pol_of self.now choice.now 0) file.now blocks }
    {
        let start = file.next.min(blocks);
        let ask = Ask::Ahead {
            sequential: file.seq,
            window: u32::from(file.window),
            left: blocks - start,
        };
        (start, self.ask_chosen(choice, 0, &ask))
    }

    #[tactic(auto, using(crate::proofs::Rows::victim_named, crate::proofs::Rows::victim_among_rows))]
    /// The frame that the chosen policy evicts of these, which are in use and oldest first.
    pub fn victim(&self, choice: &Choice, rows: &[FrameRow]) -> u8
        requires shelf { IsShelf self.now }
        requires some { 0 < length rows.now }
        ensures value { victim_of (pol_of self.now choice.now 1) rows.now ≡ Some result }
        ensures candidate { (c : CacheValue) → MarksOf c rows.now →
            victim_among (pol_of self.now choice.now 1) c (map (λ (r : Frame). r.frame) rows.now) ≡ Some result }
        ensures stands { list_any (λ (r : Frame). r.frame == result) rows.now ≡ true }
    {
        self.ask_chosen(choice, 1, &Ask::Victim(rows)) as u8
    }

    #[tactic(auto, using(crate::proofs::Rows::next_named))]
    /// The process of the queue that the chosen policy takes next.
    pub fn next(&self, choice: &Choice, rows: &[QueueRow]) -> u8
        requires shelf { IsShelf self.now }
        requires some { 0 < length rows.now }
        ensures value { next_process (pol_of self.now choice.now 2) rows.now ≡ Some result }
        ensures living { lives rows.now result ≡ true }
    {
        self.ask_chosen(choice, 2, &Ask::Next(rows)) as u8
    }

    /// The parameter of the chosen policy of a kind, if it has one.
    #[tactic(auto, using(crate::proofs::Tuned::param_shown))]
    pub fn param(&self, choice: &Choice, kind: u8) -> Option<u32>
        requires shelf { IsShelf self.now }
        requires range { kind < 3 }
        ensures { result ≡ shown_param kind (pol_of self.now choice.now kind) }
    {
        self.param_at(choice.code(kind) as usize)
    }

    /// Sets the parameter of the policy at a place. The other policies stay what they were.
    fn tune_at(&mut self, i: usize, v: u32)
        requires place { i < length self.old }
        requires number { 0 < length (view_at self.old i).params }
        requires range { in_range (top_of_code (view_at self.old i).code) 0 v ≡ true }
        ensures views { self.new ≡ shelf_with i v self.old }
    {
        tune_in(self.boxes.as_mut_slice(), i, v);
    }

    /// Sets the parameter of the chosen policy of a kind, which has one, to a value in its range.
    /// The other policies stay what they were.
    pub fn set_param(&mut self, choice: &Choice, kind: u8, v: u32)
        requires shelf { IsShelf self.old }
        requires kind { kind < 3 }
        requires range { in_range (param_top kind (slice_index choice.now kind)) 0 v ≡ true }
        ensures views { self.new
            ≡ shelf_with (code_of kind (slice_index choice.now kind)) v self.old }
        ensures policies { pol_of self.new choice.now ≡
            at kind (with_param v (pol_of self.old choice.now kind)) (pol_of self.old choice.now) }
        ensures stays { IsShelf self.new }
    {
        self.tune_at(choice.code(kind) as usize, v);
    }
}
