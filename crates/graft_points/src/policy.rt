//! The trait of policies.

use crate::ask::Ask;

/// A stock answer to one kind of question, with parameters that can be tuned.
pub trait Policy: Drop {
    ghost use Rattle.std.specs.Prelude.{◌≡◌, ◌<◌, true, length, slice_index, slice_set};
    ghost use Rattle.kernel_model.specs.Access.{in_range};
    ghost use Rattle.graft_points.specs.Views.{PolicyView, kind_of_code, top_of_code, answer_of};
    ghost use Rattle.graft_points.specs.Views.{asked_kind, has_choice};

    /// What contracts see of it.
    ghost seen: { Self → PolicyView };

    /// Which policy it is.
    fn code(&self) -> u8
        ensures { result ≡ (seen self.now).code };

    /// How many parameters it has.
    fn params(&self) -> u8
        ensures { result ≡ length (seen self.now).params };

    /// Parameter k, which is below their number.
    fn get(&self, k: u8) -> u32
        requires { k < length (seen self.now).params }
        ensures { result ≡ slice_index (seen self.now).params k };

    /// Sets parameter k, which is below their number, to a value in its range.
    fn set(&mut self, k: u8, v: u32)
        requires number { k < length (seen self.old).params }
        requires range { in_range (top_of_code (seen self.old).code) k v ≡ true }
        ensures { seen self.new
            ≡ record (seen self.old) { params = slice_set (seen self.old).params k v } };

    /// The answer to a question of its kind, with at least one to choose.
    fn answer(&self, ask: &Ask) -> u32
        requires kind { asked_kind ask.now ≡ kind_of_code (seen self.now).code }
        requires some { has_choice ask.now ≡ true }
        ensures value { result ≡ answer_of (seen self.now) ask.now }
        // A frame and a process are numbers of one byte.
        ensures byte { 0 < asked_kind ask.now → result < 256 };
}
