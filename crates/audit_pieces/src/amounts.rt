//! The pieces of the calls on amounts and grafts.

ghost use Rattle.std.specs.Prelude.{◌≡◌, Some, IfOk, nat_lt};
ghost use Rattle.kernel_model.specs.Pieces as model;
ghost use Rattle.kernel_model.specs.Policies.{lives};
ghost use Rattle.audit_state.specs.Accounts.{graft_of};
ghost use Rattle.audit_pieces.specs.Ends.{left_by, left_of};
ghost use Rattle.audit_pieces.specs.Stores.{objects_of, blocks_of};

use crate::ends::{refuses, well};
use crate::{PieceEnd, Store};
use audit_needs::Stage;
use audit_state::Graft;
use audit_state::policies::byte_of;
use kernel_model::{Kind, NoMemory, Refusal};

impl Store {
    /// An amount goes from one account to another, unless the first has too little.
    fn pay_piece(&mut self, p: u8, q: u8, kind: Kind, n: u32) -> Result<PieceEnd, NoMemory>
        ensures { let s = objects_of self.old in
            IfOk result (λ e. (t : Stage) → left_of self.new t e ≡ left_by
            (model.pay_piece s p q kind n (blocks_of self.old)
            (nat_lt ((s.accounts.acct p).balance kind) n))) }
    {
        let balance = self.balance(p, kind);
        let amount = u64::from(n);
        if balance < amount {
            Ok(refuses(Refusal::Short(balance)))
        } else {
            self.give(p, q, kind, amount)?;
            Ok(well())
        }
    }

    /// An amount goes from one account to another, if the receiver lives.
    pub(crate) fn give_piece(
        &mut self,
        p: u8,
        q: u8,
        kind: Kind,
        n: u32,
    ) -> Result<PieceEnd, NoMemory>
        ensures { let s = objects_of self.old in
            IfOk result (λ e. (t : Stage) → left_of self.new t e ≡ left_by
            (model.give_piece s p q kind n (blocks_of self.old) (lives s.things.queue q))) }
    {
        if self.lives(q) {
            self.pay_piece(p, q, kind, n)
        } else {
            Ok(refuses(Refusal::NoProcess))
        }
    }

    /// A graft is put at a point where none stands.
    pub(crate) fn install_piece(
        &mut self,
        p: u8,
        pt: u8,
        slot: u32,
        limit: u32,
    ) -> Result<PieceEnd, NoMemory>
        ensures { let s = objects_of self.old in
            IfOk result (λ e. (t : Stage) → left_of self.new t e ≡ left_by
            (model.install_piece s p pt (model.new_graft slot limit) (s.accounts.graft p pt)
            (blocks_of self.old))) }
    {
        match self.graft(p, pt) {
            Some(_) => Ok(refuses(Refusal::Taken)),
            None => {
                let image = byte_of(slot)?;
                self.install(p, pt, image, limit)?;
                Ok(well())
            }
        }
    }

    /// A graft is taken out, and its balances go back.
    pub(crate) fn remove_piece(&mut self, p: u8, pt: u8) -> Result<PieceEnd, NoMemory>
        ensures { let s = objects_of self.old in
            IfOk result (λ e. (t : Stage) → left_of self.new t e ≡ left_by
            (model.remove_piece s p pt (s.accounts.graft p pt) (blocks_of self.old))) }
    {
        match self.graft(p, pt) {
            None => Ok(refuses(Refusal::NoGraft)),
            Some(_) => {
                self.remove(p, pt)?;
                Ok(well())
            }
        }
    }

    /// An amount goes from the account to the graft at a point, which is this one, unless the
    /// account has too little.
    fn fund_graft(
        &mut self,
        p: u8,
        pt: u8,
        kind: Kind,
        n: u32,
        g: &Graft,
    ) -> Result<PieceEnd, NoMemory>
        ensures { let s = objects_of self.old in
            IfOk result (λ e. (t : Stage) → left_of self.new t e ≡ left_by
            (model.fund_piece s p pt kind n (Some (graft_of g.now)) (blocks_of self.old))) }
    {
        let balance = self.balance(p, kind);
        let amount = u64::from(n);
        if balance < amount {
            Ok(refuses(Refusal::Short(balance)))
        } else {
            self.fund(p, pt, kind, amount, g)?;
            Ok(well())
        }
    }

    /// An amount goes from the account to the graft at a point.
    pub(crate) fn fund_piece(
        &mut self,
        p: u8,
        pt: u8,
        kind: Kind,
        n: u32,
    ) -> Result<PieceEnd, NoMemory>
        ensures { let s = objects_of self.old in
            IfOk result (λ e. (t : Stage) → left_of self.new t e ≡ left_by
            (model.fund_piece s p pt kind n (s.accounts.graft p pt) (blocks_of self.old))) }
    {
        match self.graft(p, pt) {
            None => Ok(refuses(Refusal::NoGraft)),
            Some(g) => self.fund_graft(p, pt, kind, n, &g),
        }
    }

    /// From here on the installer's account pays for the graft at a point.
    pub(crate) fn bill_piece(&mut self, p: u8, pt: u8) -> Result<PieceEnd, NoMemory>
        ensures { let s = objects_of self.old in
            IfOk result (λ e. (t : Stage) → left_of self.new t e ≡ left_by
            (model.bill_piece s p pt (s.accounts.graft p pt) (blocks_of self.old))) }
    {
        match self.graft(p, pt) {
            None => Ok(refuses(Refusal::NoGraft)),
            Some(g) => {
                self.bill(p, pt, &g)?;
                Ok(well())
            }
        }
    }
}
