//! The codes of faults (docs/FORMATS.md).

ghost use Rattle.std.specs.Prelude.{◌≡◌, ◌≤◌, ◌++◌, length, is_some, true, IfSome, IfNone};
ghost use Rattle.graft_loader.specs.Faults.{refusal_of, fault_text, place_text};

use crate::LoadFault;

/// The code of a fault, and the place of an instruction where one is refused.
#[derive(Clone, Copy)]
pub struct FaultCode {
    pub text: &'static [u8],
    pub place: Option<u32>,
}

impl LoadFault {
    /// The code of the fault, and its place. Want of memory alone has none.
    pub fn code(self) -> Option<FaultCode>
        ensures text { IfSome result (λ c. c.text.now ++ place_text c.place ≡ fault_text self) }
        ensures short { IfSome result (λ c. length c.text.now ≤ 3) }
        ensures some { IfSome result (λ c. is_some (refusal_of self) ≡ true) }
        ensures none { IfNone result (self ≡ LoadFault.NoMemory) }
    {
        let (text, place): (&'static [u8], Option<u32>) = match self {
            LoadFault::Length => (b"L1", None),
            LoadFault::Magic => (b"L2", None),
            LoadFault::Version => (b"L3", None),
            LoadFault::TooLarge => (b"L4", None),
            LoadFault::Seal => (b"L5", None),
            LoadFault::BadOp(pc) => (b"L6", Some(pc)),
            LoadFault::Register(pc) => (b"L7", Some(pc)),
            LoadFault::Jump(pc) => (b"L8", Some(pc)),
            LoadFault::Memory(pc) => (b"L9", Some(pc)),
            LoadFault::Call(pc) => (b"L10", Some(pc)),
            LoadFault::End => (b"L11", None),
            LoadFault::BadFlags => (b"L12", None),
            LoadFault::NoKey => (b"L13", None),
            LoadFault::NoMemory => return None,
        };
        Some(FaultCode { text, place })
    }
}
