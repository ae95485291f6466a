//! `Accounts`.

ghost use Rattle.std.specs.Prelude.{◌≡◌, ◌↔◌, ◌+◌, ◌*◌, ◌<◌, ◌≤◌, ℕ, None, true, false, replicate};
ghost use Rattle.std.specs.Prelude.{is_some, option_map, nat_le, cond, slice_index, slice_set};
ghost use Rattle.kernel_model.specs.declared.Kind.{Kind};
ghost use Rattle.kernel_model.specs.Charges.{charge, charged_steps, removed, funds};
ghost use Rattle.kernel_model.specs.Levels.{limit_in};
ghost use Rattle.kernel_model.specs.Opening.{opening_accounts};
ghost use Rattle.kernel_model.specs.Pieces.{with_graft, new_graft, without_grafts, account_closed};
ghost use Rattle.kernel_model.specs.Sound.{ledger};

use crate::amounts::Amounts;
use crate::points::GraftPoint;
use crate::rows::{GraftRow, Standing, Standings};
use kernel_model::Kind;
use std::marker::Model;

/// The points of a process.
const EACH: u8 = 16;

/// The accounts of the processes and the grafts at their points.
///
/// Contracts see the arrays, through `accounts_of`: what the kernel's state has of accounts and
/// grafts.
#[derive(Drop)]
pub struct Accounts {
    grafts: Standings,
    steps: Amounts,
    records: Amounts,
    locks: Amounts,
}

impl Model for Accounts {
    ghost use Rattle.graft_accounts.specs.Table.{Table, IsTable, table_with};

    ghost Value = { Table };

    ghost view = { λ a. table_with a.grafts a.steps a.records a.locks };

    ghost invariant = { λ a. IsTable (table_with a.grafts a.steps a.records a.locks) };
}

impl Accounts {
    ghost use Rattle.kernel_model.specs.declared.Kind.TheVariants.{Steps};
    ghost use Rattle.graft_accounts.specs.Points.{place_of};
    ghost use Rattle.graft_accounts.specs.Sums.{Becomes, given, funded_at, paid, paid_at};
    ghost use Rattle.graft_accounts.specs.Table.{IsTable, Balanced, sums_of, within, standing_at};
    ghost use Rattle.graft_accounts.specs.Table.{put_at, taken_out, closed_all, accounts_of, total};
    ghost use Rattle.graft_accounts.specs.Table.{row_of, short_of, after_give, after_fund};
    ghost use Rattle.graft_accounts.specs.Table.{after_bill};

    /// Process 0 has the whole grant of each kind. Nothing is spent, and no graft stands.
    pub fn new(grant: u32) -> Accounts
        ensures value { accounts_of result ≡ opening_accounts grant }
        ensures sums { (j : Kind) → total (accounts_of result) j ≡ grant }
    {
        Accounts {
            grafts: Standings::new(),
            steps: Amounts::new(grant),
            records: Amounts::new(grant),
            locks: Amounts::new(grant),
        }
    }

    /// What process p has: nothing where p is no process.
    pub fn balance(&self, p: u8, k: Kind) -> u64
        ensures value { result ≡ ((accounts_of self.now).acct p).balance k }
        ensures sound { IsTable self.now }
    {
        match k {
            Kind::Steps => self.steps.balance(p),
            Kind::Records => self.records.balance(p),
            Kind::Locks => self.locks.balance(p),
        }
    }

    /// What process p has spent: nothing where p is no process.
    pub fn spent(&self, p: u8, k: Kind) -> u64
        ensures { result ≡ ((accounts_of self.now).acct p).spent k }
    {
        match k {
            Kind::Steps => self.steps.spent(p),
            Kind::Records => self.records.spent(p),
            Kind::Locks => self.locks.spent(p),
        }
    }

    /// What the graft at a point has.
    fn funds_at(&self, at: GraftPoint, k: Kind) -> u64
        ensures value { result ≡ slice_index (sums_of self.now k).funds (place_of at) }
        ensures sound { IsTable self.now }
    {
        match k {
            Kind::Steps => self.steps.funds(at),
            Kind::Records => self.records.funds(at),
            Kind::Locks => self.locks.funds(at),
        }
    }

    /// Moves n from process p to process q.
    fn move_amount(&mut self, p: u8, q: u8, k: Kind, n: u64)
        requires from { p < 16 }
        requires to { q < 16 }
        requires enough { n ≤ slice_index (sums_of self.old k).balances p }
        ensures { Becomes IsTable self.old self.new (within k (given p q n) self.old) }
    {
        match k {
            Kind::Steps => self.steps.give(p, q, n),
            Kind::Records => self.records.give(p, q, n),
            Kind::Locks => self.locks.give(p, q, n),
        }
    }

    /// Moves n from the process of a point to the graft there.
    fn fund_at(&mut self, at: GraftPoint, k: Kind, n: u64)
        requires stands { is_some (standing_at self.old (place_of at)) ≡ true }
        requires enough { n ≤ slice_index (sums_of self.old k).balances at.process }
        ensures { Becomes IsTable self.old self.new
            (within k (funded_at at.process (place_of at) n) self.old) }
    {
        match k {
            Kind::Steps => self.steps.fund(at, n),
            Kind::Records => self.records.fund(at, n),
            Kind::Locks => self.locks.fund(at, n),
        }
    }

    /// The process of a point pays n.
    fn pay(&mut self, at: GraftPoint, k: Kind, n: u64)
        requires { n ≤ slice_index (sums_of self.old k).balances at.process }
        ensures { Becomes IsTable self.old self.new (within k (paid at.process n) self.old) }
    {
        match k {
            Kind::Steps => self.steps.pay(at, n),
            Kind::Records => self.records.pay(at, n),
            Kind::Locks => self.locks.pay(at, n),
        }
    }

    /// The graft at a point pays n.
    fn pay_at(&mut self, at: GraftPoint, k: Kind, n: u64)
        requires { n ≤ slice_index (sums_of self.old k).funds (place_of at) }
        ensures { Becomes IsTable self.old self.new
            (within k (paid_at at.process (place_of at) n) self.old) }
    {
        match k {
            Kind::Steps => self.steps.pay_at(at, n),
            Kind::Records => self.records.pay_at(at, n),
            Kind::Locks => self.locks.pay_at(at, n),
        }
    }

    /// The process of a point pays one, if it has one.
    fn charge_account(&mut self, at: GraftPoint, k: Kind) -> bool
        ensures answer { result ≡ nat_le 1 (slice_index (sums_of self.old k).balances at.process) }
        ensures changed { Becomes IsTable self.old self.new
            (cond result (within k (paid at.process 1) self.old) self.old) }
    {
        if self.balance(at.process, k) == 0 {
            return false;
        }
        self.pay(at, k, 1);
        true
    }

    /// The graft at a point pays one, if it has one.
    fn charge_graft(&mut self, at: GraftPoint, k: Kind) -> bool
        ensures answer { result ≡ nat_le 1 (slice_index (sums_of self.old k).funds (place_of at)) }
        ensures changed { Becomes IsTable self.old self.new
            (cond result (within k (paid_at at.process (place_of at) 1) self.old) self.old) }
    {
        if self.funds_at(at, k) == 0 {
            return false;
        }
        self.pay_at(at, k, 1);
        true
    }

    /// The graft that stands at a place.
    fn standing(&self, i: usize) -> Option<Standing>
        ensures { result ≡ standing_at self.now i }
    {
        self.grafts.get(i)
    }

    /// Puts a graft at a point.
    fn put(&mut self, at: GraftPoint, standing: Standing)
        ensures { Becomes IsTable self.old self.new (put_at (place_of at) standing self.old) }
    {
        self.grafts.set(at.place(), Some(standing));
    }

    /// Takes out the graft at a point, and gives what it has back to its process.
    fn take_out(&mut self, at: GraftPoint)
        ensures { Becomes IsTable self.old self.new (taken_out at.process (place_of at) self.old) }
    {
        self.steps.give_back(at);
        self.records.give_back(at);
        self.locks.give_back(at);
        self.grafts.set(at.place(), None);
    }

    /// Process 0 gets all that process p has and has spent.
    fn close_account(&mut self, p: u8)
        requires { p < 16 }
        ensures { Becomes IsTable self.old self.new (closed_all p self.old) }
    {
        self.steps.close(p);
        self.records.close(p);
        self.locks.close(p);
    }

    /// Moves n from process p to process q. Err has the balance of p, with nothing changed, exactly
    /// where it is smaller.
    pub fn give(&mut self, p: u8, q: u8, k: Kind, n: u32) -> Result<(), u64>
        requires from { p < 16 }
        requires to { q < 16 }
        ensures answer { result ≡ short_of (((accounts_of self.old).acct p).balance k) n }
        ensures changed { Balanced self.old self.new (after_give p q k n (accounts_of self.old)) }
    {
        let has = self.balance(p, k);
        if has < u64::from(n) {
            return Err(has);
        }
        self.move_amount(p, q, k, u64::from(n));
        Ok(())
    }

    /// The graft that stands at a point.
    pub fn graft(&self, at: GraftPoint) -> Option<GraftRow>
        ensures { result ≡ option_map row_of ((accounts_of self.now).graft at.process at.point) }
    {
        let standing = self.standing(at.place())?;
        Some(GraftRow {
            image: standing.image,
            limit: standing.limit,
            billed: standing.billed,
            steps: self.funds_at(at, Kind::Steps),
            records: self.funds_at(at, Kind::Records),
            locks: self.funds_at(at, Kind::Locks),
        })
    }

    /// The image of the graft that stands at a point.
    pub fn image(&self, at: GraftPoint) -> Option<u8>
        ensures { result ≡ option_map (λ g. g.image)
            ((accounts_of self.now).graft at.process at.point) }
    {
        let standing = self.standing(at.place())?;
        Some(standing.image)
    }

    /// The limit of the graft that stands at a point: 0 where none does.
    pub fn limit(&self, at: GraftPoint) -> u32
        ensures { result ≡ limit_in ((accounts_of self.now).graft at.process at.point) }
    {
        match self.standing(at.place()) {
            None => 0,
            Some(standing) => standing.limit,
        }
    }

    /// What whoever pays for the graft at a point has: nothing where none stands.
    pub fn funds(&self, at: GraftPoint, k: Kind) -> u64
        ensures { result ≡ funds (accounts_of self.now) at.process at.point k }
    {
        match self.standing(at.place()) {
            None => 0,
            Some(standing) if standing.billed => self.balance(at.process, k),
            Some(_) => self.funds_at(at, k),
        }
    }

    /// Whether a graft stands at point pt of process p: none does where p is no process.
    pub fn stands(&self, p: u8, pt: u8) -> bool
        requires { pt < 16 }
        ensures { result ≡ is_some ((accounts_of self.now).graft p pt) }
    {
        self.standing(16 * p as usize + pt as usize).is_some()
    }

    /// Whether any graft stands. Looks at no point.
    pub fn any_stands(&self) -> bool
        ensures exact { (result ≡ false) ↔ ((i : ℕ) → standing_at self.now i ≡ None) }
        ensures none { result ≡ false → (q pt : ℕ) → (accounts_of self.now).graft q pt ≡ None }
    {
        self.grafts.any()
    }

    /// Puts a graft at a point where none stands. It has nothing, and isn't billed.
    pub fn install(&mut self, at: GraftPoint, image: u8, limit: u32)
        requires image { image < 32 }
        requires some { 1 ≤ limit }
        requires most { limit ≤ 65536 }
        requires free { (accounts_of self.old).graft at.process at.point ≡ None }
        ensures { Balanced self.old self.new
            (with_graft at.process at.point (new_graft image limit) (accounts_of self.old)) }
    {
        let standing = Standing {
            image,
            limit,
            billed: false,
        };
        self.put(at, standing);
    }

    /// Moves n from the process of a point to its graft there, where one stands. Err has the balance
    /// of the process, with nothing changed, exactly where it is smaller.
    pub fn fund(&mut self, at: GraftPoint, k: Kind, n: u32) -> Result<(), u64>
        requires stands { is_some ((accounts_of self.old).graft at.process at.point) ≡ true }
        ensures answer { result ≡ short_of (((accounts_of self.old).acct at.process).balance k) n }
        ensures changed { Balanced self.old self.new
            (after_fund at.process at.point k n
            ((accounts_of self.old).graft at.process at.point) (accounts_of self.old)) }
    {
        let has = self.balance(at.process, k);
        if has < u64::from(n) {
            return Err(has);
        }
        self.fund_at(at, k, u64::from(n));
        Ok(())
    }

    /// From here on the process of a point pays for its graft there, where one stands.
    pub fn bill(&mut self, at: GraftPoint)
        requires stands { is_some ((accounts_of self.old).graft at.process at.point) ≡ true }
        ensures { Balanced self.old self.new
            (after_bill at.process at.point
            ((accounts_of self.old).graft at.process at.point) (accounts_of self.old)) }
    {
        if let Some(standing) = self.standing(at.place()) {
            let billed = Standing {
                billed: true,
                ..standing
            };
            self.put(at, billed);
        }
    }

    /// Moves one from whoever pays for the graft at a point to what its process has spent.
    /// False, with nothing changed, exactly where the payer has none.
    pub fn charge(&mut self, at: GraftPoint, k: Kind) -> bool
        ensures answer { result ≡ nat_le 1 (funds (accounts_of self.old) at.process at.point k) }
        ensures changed { Balanced self.old self.new
            (cond result (charge k at.process at.point (accounts_of self.old))
            (accounts_of self.old)) }
        ensures ledgers { (j : Kind) (r : ℕ) →
            ledger (accounts_of self.new) j r ≡ ledger (accounts_of self.old) j r }
    {
        match self.standing(at.place()) {
            None => false,
            Some(standing) if standing.billed => self.charge_account(at, k),
            Some(_) => self.charge_graft(at, k),
        }
    }

    /// Moves n steps at once from whoever pays for the graft at a point to what its process has
    /// spent: the books are as if the steps had been charged one after another.
    pub fn charge_steps(&mut self, at: GraftPoint, n: u32)
        requires enough { n ≤ funds (accounts_of self.old) at.process at.point Steps }
        ensures { Balanced self.old self.new
            (charged_steps n at.process at.point (accounts_of self.old)) }
    {
        match self.standing(at.place()) {
            None => {}
            Some(standing) if standing.billed => self.pay(at, Kind::Steps, u64::from(n)),
            Some(_) => self.pay_at(at, Kind::Steps, u64::from(n)),
        }
    }

    /// Takes out the graft at a point, if one stands, and gives what it has back to its process.
    pub fn remove(&mut self, at: GraftPoint)
        ensures { Balanced self.old self.new (removed at.process at.point (accounts_of self.old)) }
    {
        if self.standing(at.place()).is_some() {
            self.take_out(at);
        }
    }

    /// Takes out the grafts of process p at its first points, so many.
    fn remove_first(&mut self, p: u8, points: u8)
        requires process { p < 16 }
        requires points { points ≤ 16 }
        ensures { Balanced self.old self.new (without_grafts p points (accounts_of self.old)) }
    {
        let mut left = points;
        while left > 0 {
            left -= 1;
            let at = GraftPoint {
                process: p,
                point: left,
            };
            self.remove(at);
        }
    }

    /// Takes out all grafts of process p, which isn't 0, and gives all that p has and has spent to
    /// process 0.
    pub fn close(&mut self, p: u8)
        requires process { p < 16 }
        requires not_root { 0 < p }
        ensures { Balanced self.old self.new
            (account_closed p (without_grafts p 16 (accounts_of self.old))) }
    {
        self.remove_first(p, EACH);
        self.close_account(p);
    }
}
