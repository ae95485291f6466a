//! The accounts and the grafts of a store.

ghost use Rattle.std.specs.Prelude.{◌≡◌, ◌↔◌, ◌<◌, ◌≤◌, ℕ, true, false, None, is_some};
ghost use Rattle.kernel_model.specs.Charges.{removed};
ghost use Rattle.kernel_data.specs.Objects.{with_accounts};
ghost use Rattle.kernel_data.specs.Policies.{lives};
ghost use Rattle.kernel_model.specs.Pieces.{with_new_graft, new_graft};
ghost use Rattle.graft_accounts.specs.Table.{standing_at, short_of, after_give, after_fund, after_bill};
ghost use Rattle.kernel_state.specs.Changes.{Changes};
ghost use Rattle.kernel_state.specs.Places.{HasPoint};
ghost use Rattle.kernel_state.specs.Stores.{objects_of, queue_of};

use crate::Store;
use graft_accounts::GraftPoint;
use graft_points::Policy;
use kernel_data::Kind;

impl<B: Policy> Store<B> {
    /// Moves n from process p to process q. Err has the balance of p, with nothing changed, exactly
    /// where it is smaller.
    pub fn give(&mut self, p: u8, q: u8, k: Kind, n: u32) -> Result<(), u64>
        requires from { lives (queue_of self.old) p ≡ true }
        requires to { lives (queue_of self.old) q ≡ true }
        ensures answer { result ≡ short_of (((objects_of self.old).accounts.acct p).balance k) n }
        ensures changed { Changes (λ s. with_accounts (after_give p q k n s.accounts) s)
            self.old self.new }
    {
        self.procs.rows();
        self.accounts.give(p, q, k, n)
    }

    /// Whether a graft stands at point pt of process p.
    pub fn has_graft(&self, p: u8, pt: u8) -> bool
        requires { pt < 16 }
        ensures { result ≡ is_some ((objects_of self.now).accounts.graft p pt) }
    {
        self.accounts.stands(p, pt)
    }

    /// Whether any graft stands. Looks at no point.
    pub fn has_grafts(&self) -> bool
        ensures exact { (result ≡ false)
            ↔ ((i : ℕ) → standing_at self.now.accounts i ≡ None) }
        ensures none { result ≡ false →
            (q pt : ℕ) → (objects_of self.now).accounts.graft q pt ≡ None }
    {
        self.accounts.any_stands()
    }

    /// Puts a graft at point pt of process p, where none stands. It has nothing, isn't billed, and
    /// nothing is kept for it.
    pub fn install(&mut self, p: u8, pt: u8, image: u8, limit: u32)
        requires place { HasPoint (queue_of self.old) p pt }
        requires image { image < 32 }
        requires some { 1 ≤ limit }
        requires most { limit ≤ 65536 }
        requires free { (objects_of self.old).accounts.graft p pt ≡ None }
        ensures { Changes (with_new_graft p pt (new_graft image limit)) self.old self.new }
    {
        self.procs.rows();
        let at = GraftPoint {
            process: p,
            point: pt,
        };
        self.accounts.install(at, image, limit);
        self.forget_segment(at);
    }

    /// Takes out the graft at point pt of process p, if one stands, and gives what it has back to
    /// p.
    pub fn remove(&mut self, p: u8, pt: u8)
        requires { HasPoint (queue_of self.old) p pt }
        ensures { Changes (λ s. with_accounts (removed p pt s.accounts) s) self.old self.new }
    {
        self.procs.rows();
        self.accounts.remove(GraftPoint {
            process: p,
            point: pt,
        });
    }

    /// Moves n from process p to its graft at point pt, where one stands. Err has the balance of p,
    /// with nothing changed, exactly where it is smaller.
    pub fn fund(&mut self, p: u8, pt: u8, k: Kind, n: u32) -> Result<(), u64>
        requires place { HasPoint (queue_of self.old) p pt }
        requires stands { is_some ((objects_of self.old).accounts.graft p pt) ≡ true }
        ensures answer { result ≡ short_of (((objects_of self.old).accounts.acct p).balance k) n }
        ensures changed { Changes
            (λ s. with_accounts (after_fund p pt k n (s.accounts.graft p pt) s.accounts) s)
            self.old self.new }
    {
        self.procs.rows();
        self.accounts.fund(
            GraftPoint {
                process: p,
                point: pt,
            },
            k,
            n,
        )
    }

    /// From here on process p pays for its graft at point pt, where one stands.
    pub fn bill(&mut self, p: u8, pt: u8)
        requires place { HasPoint (queue_of self.old) p pt }
        requires stands { is_some ((objects_of self.old).accounts.graft p pt) ≡ true }
        ensures { Changes
            (λ s. with_accounts (after_bill p pt (s.accounts.graft p pt) s.accounts) s)
            self.old self.new }
    {
        self.procs.rows();
        self.accounts.bill(GraftPoint {
            process: p,
            point: pt,
        });
    }
}
