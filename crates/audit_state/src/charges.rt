//! What grafts are charged, and what becomes of balances.

ghost use Rattle.std.specs.Prelude.{◌≡◌, ◌+◌, ◌-◌, ℕ, OnOk, IfOk, Option, Some, None, true};
ghost use Rattle.kernel_model.specs.Objects.{at, at2};
ghost use Rattle.kernel_model.specs.Charges as model;
ghost use Rattle.kernel_model.specs.Pieces as pieces;
ghost use Rattle.audit_state.specs.Accounts.{accounts_of, account_of, graft_of, standing};
ghost use Rattle.audit_state.specs.Accounts.{amount_of, no_amounts, no_account};

use crate::{Account, Accounts, Amounts, Graft};
use audit_table::{get, get_one, put, put_one};
use kernel_model::{Kind, NoMemory};

/// The points of a process.
const POINTS: u8 = 16;

impl Accounts {
    /// The account of a process.
    pub fn account(&self, q: u8) -> Account
        ensures { account_of result ≡ (accounts_of self.now).acct q }
    {
        get_one(&self.accounts, u32::from(q), Account::none())
    }

    /// The graft at a point, if one stands there.
    pub fn graft(&self, q: u8, pt: u8) -> Option<Graft>
        ensures { standing result ≡ (accounts_of self.now).graft q pt }
    {
        get(&self.grafts, u32::from(q), u32::from(pt), None)
    }

    /// A process gets this account.
    fn put_account(&mut self, q: u8, account: Account) -> Result<(), NoMemory>
        ensures { OnOk result (accounts_of self.new ≡ record (accounts_of self.old) {
          acct = at q (account_of account) (accounts_of self.old).acct;
        }) }
    {
        put_one(&mut self.accounts, u32::from(q), account)?;
        Ok(())
    }

    /// A point gets this graft, or none.
    fn put_graft(&mut self, q: u8, pt: u8, graft: Option<Graft>) -> Result<(), NoMemory>
        ensures { OnOk result (accounts_of self.new ≡ record (accounts_of self.old) {
          graft = at2 q pt (standing graft) (accounts_of self.old).graft;
        }) }
    {
        put(&mut self.grafts, u32::from(q), u32::from(pt), graft)?;
        Ok(())
    }
}

/// An account for which one of a kind was spent.
fn spend(kind: Kind, a: &Account) -> Result<Account, NoMemory>
    ensures { IfOk result (λ r. account_of r ≡ model.spend kind (account_of a.now)) }
{
    let spent = a.spent.plus(kind, 1)?;
    Ok(Account {
        balance: a.balance,
        spent,
    })
}

/// An account that pays one of a kind.
fn pay(kind: Kind, a: &Account) -> Result<Account, NoMemory>
    ensures { IfOk result (λ r. account_of r ≡ model.pay kind (account_of a.now)) }
{
    let spent = a.spent.plus(kind, 1)?;
    Ok(Account {
        balance: a.balance.minus(kind, 1),
        spent,
    })
}

/// A graft that pays one of a kind.
fn taken_from(kind: Kind, g: &Graft) -> Graft
    ensures { graft_of result ≡ model.taken_from kind (graft_of g.now) }
{
    Graft {
        balance: g.balance.minus(kind, 1),
        ..*g
    }
}

/// An account that gets a graft's balances back.
fn returned(g: &Graft, a: &Account) -> Result<Account, NoMemory>
    ensures { IfOk result (λ r. account_of r ≡ model.returned (graft_of g.now) (account_of a.now)) }
{
    let balance = a.balance.and(&g.balance)?;
    Ok(Account {
        balance,
        spent: a.spent,
    })
}

/// An account with so much less of a kind, or none of it.
fn less(kind: Kind, n: u64, a: &Account) -> Account
    ensures { account_of result ≡ pieces.less kind n (account_of a.now) }
{
    Account {
        balance: a.balance.minus(kind, n),
        spent: a.spent,
    }
}

/// An account with so much more of a kind.
fn more(kind: Kind, n: u64, a: &Account) -> Result<Account, NoMemory>
    ensures { IfOk result (λ r. account_of r ≡ pieces.more kind n (account_of a.now)) }
{
    let balance = a.balance.plus(kind, n)?;
    Ok(Account {
        balance,
        spent: a.spent,
    })
}

/// A graft with so much more of a kind.
fn funded(kind: Kind, n: u64, g: &Graft) -> Result<Graft, NoMemory>
    ensures { IfOk result (λ r. graft_of r ≡ pieces.funded kind n (graft_of g.now)) }
{
    let balance = g.balance.plus(kind, n)?;
    Ok(Graft { balance, ..*g })
}

/// Two accounts as one.
fn joint(a: &Account, b: &Account) -> Result<Account, NoMemory>
    ensures { IfOk result (λ r.
        account_of r ≡ pieces.joint_account (account_of a.now) (account_of b.now)) }
{
    let balance = a.balance.and(&b.balance)?;
    let spent = a.spent.and(&b.spent)?;
    Ok(Account { balance, spent })
}

/// What a payer has of a kind.
fn payer_balance(kind: Kind, a: &Account, g: &Option<Graft>) -> u64
    ensures { result ≡ model.payer_balance kind (account_of a.now) (standing g.now) }
{
    match g {
        None => 0,
        Some(g) if g.billed => a.balance.of(kind),
        Some(g) => g.balance.of(kind),
    }
}

impl Accounts {
    /// What the graft at a point can still pay of a kind.
    pub fn funds(&self, q: u8, pt: u8, kind: Kind) -> u64
        ensures { result ≡ model.funds (accounts_of self.now) q pt kind }
    {
        payer_balance(kind, &self.account(q), &self.graft(q, pt))
    }

    /// The account of the installer pays one of a kind.
    fn charge_account(&mut self, q: u8, kind: Kind) -> Result<(), NoMemory>
        ensures { OnOk result (accounts_of self.new
            ≡ model.charge_account kind q (accounts_of self.old)) }
    {
        let paid = pay(kind, &self.account(q))?;
        self.put_account(q, paid)?;
        Ok(())
    }

    /// The graft itself pays one of a kind, which its installer's account tells as spent.
    fn charge_graft(&mut self, q: u8, pt: u8, g: &Graft, kind: Kind) -> Result<(), NoMemory>
        ensures { OnOk result (accounts_of self.new
            ≡ model.charge_graft kind q pt (graft_of g.now) (accounts_of self.old)) }
    {
        let spent = spend(kind, &self.account(q))?;
        self.put_graft(q, pt, Some(taken_from(kind, g)))?;
        self.put_account(q, spent)?;
        Ok(())
    }

    /// One of a kind is charged to the payer of a graft, if one stands.
    fn charge_by(&mut self, q: u8, pt: u8, g: &Option<Graft>, kind: Kind) -> Result<(), NoMemory>
        ensures { OnOk result (accounts_of self.new
            ≡ model.charge_by kind q pt (standing g.now) (accounts_of self.old)) }
    {
        match g {
            None => Ok(()),
            Some(g) if g.billed => self.charge_account(q, kind),
            Some(g) => self.charge_graft(q, pt, g, kind),
        }
    }

    /// One of a kind is charged to the payer of the graft at a point.
    pub fn charge(&mut self, q: u8, pt: u8, kind: Kind) -> Result<(), NoMemory>
        ensures { OnOk result (accounts_of self.new
            ≡ model.charge kind q pt (accounts_of self.old)) }
    {
        let g = self.graft(q, pt);
        self.charge_by(q, pt, &g, kind)
    }

    /// A graft that stands at a point is taken out, and its balances go back.
    fn take_out(&mut self, q: u8, pt: u8, g: &Graft) -> Result<(), NoMemory>
        ensures { OnOk result (accounts_of self.new
            ≡ model.removed_by q pt (Some (graft_of g.now)) (accounts_of self.old)) }
    {
        let account = returned(g, &self.account(q))?;
        self.put_graft(q, pt, None)?;
        self.put_account(q, account)?;
        Ok(())
    }

    /// A graft is taken out, if one stands, and its balances go back.
    fn removed_by(&mut self, q: u8, pt: u8, g: &Option<Graft>) -> Result<(), NoMemory>
        ensures { OnOk result (accounts_of self.new
            ≡ model.removed_by q pt (standing g.now) (accounts_of self.old)) }
    {
        match g {
            None => Ok(()),
            Some(g) => self.take_out(q, pt, g),
        }
    }

    /// The graft at a point is taken out, if one stands, and its balances go back.
    pub fn remove(&mut self, q: u8, pt: u8) -> Result<(), NoMemory>
        ensures { OnOk result (accounts_of self.new ≡ model.removed q pt (accounts_of self.old)) }
    {
        let g = self.graft(q, pt);
        self.removed_by(q, pt, &g)
    }

    /// An amount goes from one account to another, which may be the same; the first has that much.
    pub fn give(&mut self, p: u8, q: u8, kind: Kind, n: u64) -> Result<(), NoMemory>
        ensures { OnOk result (accounts_of self.new ≡ record (accounts_of self.old) {
          acct = pieces.accounts_after (accounts_of self.old).acct p q kind n;
        }) }
    {
        let lighter = less(kind, n, &self.account(p));
        self.put_account(p, lighter)?;
        let heavier = more(kind, n, &self.account(q))?;
        self.put_account(q, heavier)?;
        Ok(())
    }

    /// An amount goes from the account of a process to its graft at a point, which is this one.
    pub fn fund(&mut self, p: u8, pt: u8, kind: Kind, n: u64, g: &Graft) -> Result<(), NoMemory>
        ensures { OnOk result (accounts_of self.new
            ≡ pieces.accounts_funded p pt kind n (graft_of g.now) (accounts_of self.old)) }
    {
        let fuller = funded(kind, n, g)?;
        let lighter = less(kind, n, &self.account(p));
        self.put_graft(p, pt, Some(fuller))?;
        self.put_account(p, lighter)?;
        Ok(())
    }

    /// The graft at a point, which is this one, is billed to its installer's account from here on.
    pub fn bill(&mut self, p: u8, pt: u8, g: &Graft) -> Result<(), NoMemory>
        ensures { OnOk result (accounts_of self.new
            ≡ pieces.with_graft p pt (record (graft_of g.now) { billed = true })
            (accounts_of self.old)) }
    {
        let billed = Graft { billed: true, ..*g };
        self.put_graft(p, pt, Some(billed))?;
        Ok(())
    }

    /// A graft of this image and limit is put at a point, with balances of 0, not billed.
    pub fn install(&mut self, p: u8, pt: u8, image: u8, limit: u32) -> Result<(), NoMemory>
        ensures { OnOk result (accounts_of self.new
            ≡ pieces.with_graft p pt (pieces.new_graft image limit) (accounts_of self.old)) }
    {
        let g = Graft {
            image,
            limit,
            billed: false,
            balance: Amounts::none(),
        };
        self.put_graft(p, pt, Some(g))?;
        Ok(())
    }

    /// The grafts of a process at the first points are taken out, and their balances go back.
    fn remove_first(&mut self, p: u8, count: u8) -> Result<(), NoMemory>
        ensures { OnOk result (accounts_of self.new
            ≡ pieces.without_grafts p count (accounts_of self.old)) }
    {
        for i in 0..count {
            self.remove(p, count - 1 - i)?;
        }
        Ok(())
    }

    /// The account of a process goes to process 0.
    fn close_account(&mut self, p: u8) -> Result<(), NoMemory>
        ensures { OnOk result (accounts_of self.new
            ≡ pieces.account_closed p (accounts_of self.old)) }
    {
        let both = joint(&self.account(p), &self.account(0))?;
        self.put_account(0, both)?;
        self.put_account(p, Account::none())?;
        Ok(())
    }

    /// A process leaves: its grafts are taken out, and its account goes to process 0.
    pub fn close(&mut self, p: u8) -> Result<(), NoMemory>
        ensures { OnOk result (accounts_of self.new
            ≡ pieces.account_closed p (pieces.without_grafts p 16 (accounts_of self.old))) }
    {
        self.remove_first(p, POINTS)?;
        self.close_account(p)?;
        Ok(())
    }
}
