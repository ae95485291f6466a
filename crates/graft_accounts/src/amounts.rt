//! The amounts of one kind.

ghost use Rattle.std.specs.Prelude.{◌≡◌, ◌+◌, ◌<◌, ◌≤◌, length, replicate, sum, slice_index};
ghost use Rattle.graft_accounts.specs.Sums.{less_at, more_at};

use crate::points::GraftPoint;
use std::marker::Model;

/// The processes.
pub(crate) const PROCESSES: usize = 16;

/// The points of all processes, 16 each.
pub(crate) const POINTS: usize = 256;

/// The amounts of one kind: what each process has and has spent, and what the graft at each point
/// has. In all they are the grant.
#[derive(Drop)]
pub(crate) struct Amounts {
    pub(crate) grant: u32,
    pub(crate) balances: [u64; PROCESSES],
    pub(crate) spent: [u64; PROCESSES],
    pub(crate) funds: [u64; POINTS],
}

/// The amount at a place: nothing beyond the last one.
fn amount_at(xs: &[u64], i: usize) -> u64
    ensures { result ≡ slice_index xs.now i }
{
    match xs.get(i) {
        Some(n) => *n,
        None => 0,
    }
}

/// Takes n from the amount at a place, which has as much.
fn take_from(xs: &mut [u64], i: usize, n: u64)
    requires place { i < length xs.old }
    requires enough { n ≤ slice_index xs.old i }
    ensures value { xs.new ≡ less_at i n xs.old }
    ensures total { sum xs.new + n ≡ sum xs.old }
{
    xs[i] -= n;
}

/// Adds n to the amount at a place.
fn add_to(xs: &mut [u64], i: usize, n: u64)
    requires place { i < length xs.old }
    requires room { sum xs.old + n < 18446744073709551616 }
    ensures value { xs.new ≡ more_at i n xs.old }
    ensures total { sum xs.new ≡ sum xs.old + n }
{
    xs[i] += n;
}

/// No amount at all for so many processes.
fn no_amounts<const N: usize>() -> [u64; N]
    ensures value { result ≡ replicate N 0 }
    ensures total { sum result ≡ 0 }
{
    [0; N]
}

impl Model for Amounts {
    ghost use Rattle.graft_accounts.specs.Sums.{Sums, IsSums, sums_with};

    ghost Value = { Sums };

    ghost view = { λ a. sums_with a.grant a.balances a.spent a.funds };

    ghost invariant = { λ a. IsSums (sums_with a.grant a.balances a.spent a.funds) };
}

impl Amounts {
    ghost use Rattle.std.specs.Prelude.{◌*◌, nat_lt, cond, [], ◌∷◌, ◌++◌, Ok, Err};
    ghost use Rattle.graft_accounts.specs.Points.{place_of};
    ghost use Rattle.graft_accounts.specs.Sums.{IsSums, Becomes, opening, given, funded_at, paid};
    ghost use Rattle.graft_accounts.specs.Sums.{paid_at, given_back, closed};

    /// Process 0 has the whole grant.
    pub(crate) fn new(grant: u32) -> Amounts
        ensures value { result ≡ opening grant }
        ensures sound { IsSums result }
    {
        let mut balances = no_amounts();
        add_to(&mut balances, 0, u64::from(grant));
        Amounts {
            grant,
            balances,
            spent: no_amounts(),
            funds: no_amounts(),
        }
    }

    /// What process p has: nothing where p is no process.
    pub(crate) fn balance(&self, p: u8) -> u64
        ensures { result ≡ slice_index self.now.balances p }
    {
        amount_at(&self.balances, p as usize)
    }

    /// What process p has spent: nothing where p is no process.
    pub(crate) fn spent(&self, p: u8) -> u64
        ensures { result ≡ slice_index self.now.spent p }
    {
        amount_at(&self.spent, p as usize)
    }

    /// What the graft at a point has.
    pub(crate) fn funds(&self, at: GraftPoint) -> u64
        ensures { result ≡ slice_index self.now.funds (place_of at) }
    {
        amount_at(&self.funds, at.place())
    }

    /// Moves n from process p to process q.
    pub(crate) fn give(&mut self, p: u8, q: u8, n: u64)
        requires from { p < 16 }
        requires to { q < 16 }
        requires enough { n ≤ slice_index self.old.balances p }
        ensures { Becomes IsSums self.old self.new (given p q n self.old) }
    {
        take_from(&mut self.balances, p as usize, n);
        add_to(&mut self.balances, q as usize, n);
    }

    /// Moves n from the process of a point to the graft there.
    pub(crate) fn fund(&mut self, at: GraftPoint, n: u64)
        requires { n ≤ slice_index self.old.balances at.process }
        ensures { Becomes IsSums self.old self.new
            (funded_at at.process (place_of at) n self.old) }
    {
        take_from(&mut self.balances, at.process as usize, n);
        add_to(&mut self.funds, at.place(), n);
    }

    /// The process of a point pays n.
    pub(crate) fn pay(&mut self, at: GraftPoint, n: u64)
        requires { n ≤ slice_index self.old.balances at.process }
        ensures { Becomes IsSums self.old self.new (paid at.process n self.old) }
    {
        take_from(&mut self.balances, at.process as usize, n);
        add_to(&mut self.spent, at.process as usize, n);
    }

    /// The graft at a point pays n.
    pub(crate) fn pay_at(&mut self, at: GraftPoint, n: u64)
        requires { n ≤ slice_index self.old.funds (place_of at) }
        ensures { Becomes IsSums self.old self.new (paid_at at.process (place_of at) n self.old) }
    {
        take_from(&mut self.funds, at.place(), n);
        add_to(&mut self.spent, at.process as usize, n);
    }

    /// The process of a point gets all that the graft there has.
    pub(crate) fn give_back(&mut self, at: GraftPoint)
        ensures { Becomes IsSums self.old self.new (given_back at.process (place_of at) self.old) }
    {
        let n = self.funds(at);
        take_from(&mut self.funds, at.place(), n);
        add_to(&mut self.balances, at.process as usize, n);
    }

    /// Process 0 gets all that process p has and has spent.
    pub(crate) fn close(&mut self, p: u8)
        requires { p < 16 }
        ensures { Becomes IsSums self.old self.new (closed p self.old) }
    {
        let had = self.balances[p as usize];
        let spent = self.spent[p as usize];
        take_from(&mut self.balances, p as usize, had);
        add_to(&mut self.balances, 0, had);
        take_from(&mut self.spent, p as usize, spent);
        add_to(&mut self.spent, 0, spent);
    }
}
