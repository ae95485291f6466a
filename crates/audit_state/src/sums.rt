//! Amounts by kind.

ghost use Rattle.std.specs.Prelude.{◌≡◌, ◌+◌, ◌-◌, ℕ, IfOk};
ghost use Rattle.kernel_model.specs.Objects.{at_kind};
ghost use Rattle.audit_state.specs.Accounts.{amount_of, no_amounts, no_account};

use crate::{Account, Amounts};
use kernel_model::{Kind, NoMemory};

/// The sum, if it has room.
fn sum(a: u64, b: u64) -> Result<u64, NoMemory>
    ensures { IfOk result (λ s. s ≡ a + b) }
{
    match a.checked_add(b) {
        Some(s) => Ok(s),
        None => Err(NoMemory),
    }
}

impl Amounts {
    /// Nothing of each kind.
    pub fn none() -> Amounts
        ensures { result ≡ no_amounts }
    {
        Amounts {
            steps: 0,
            records: 0,
            locks: 0,
        }
    }

    /// The amount of a kind.
    pub fn of(&self, kind: Kind) -> u64
        ensures { result ≡ amount_of self.now kind }
    {
        match kind {
            Kind::Steps => self.steps,
            Kind::Records => self.records,
            Kind::Locks => self.locks,
        }
    }

    /// With another amount of a kind.
    pub fn with(&self, kind: Kind, amount: u64) -> Amounts
        ensures { amount_of result ≡ at_kind kind amount (amount_of self.now) }
    {
        match kind {
            Kind::Steps => Amounts {
                steps: amount,
                ..*self
            },
            Kind::Records => Amounts {
                records: amount,
                ..*self
            },
            Kind::Locks => Amounts {
                locks: amount,
                ..*self
            },
        }
    }

    /// With so much more of a kind, if it has room.
    pub fn plus(&self, kind: Kind, n: u64) -> Result<Amounts, NoMemory>
        ensures { IfOk result (λ r.
            amount_of r ≡ at_kind kind (amount_of self.now kind + n) (amount_of self.now)) }
    {
        let more = sum(self.of(kind), n)?;
        Ok(self.with(kind, more))
    }

    /// With so much less of a kind, or none.
    pub fn minus(&self, kind: Kind, n: u64) -> Amounts
        ensures { amount_of result
            ≡ at_kind kind (amount_of self.now kind - n) (amount_of self.now) }
    {
        self.with(kind, self.of(kind).saturating_sub(n))
    }

    /// Both together, if they have room.
    pub fn and(&self, other: &Amounts) -> Result<Amounts, NoMemory>
        ensures { IfOk result (λ r.
            amount_of r ≡ (λ k. amount_of self.now k + amount_of other.now k)) }
    {
        let steps = sum(self.steps, other.steps)?;
        let records = sum(self.records, other.records)?;
        let locks = sum(self.locks, other.locks)?;
        Ok(Amounts {
            steps,
            records,
            locks,
        })
    }
}

impl Account {
    /// An account of nothing.
    pub fn none() -> Account
        ensures { result ≡ no_account }
    {
        Account {
            balance: Amounts::none(),
            spent: Amounts::none(),
        }
    }
}
