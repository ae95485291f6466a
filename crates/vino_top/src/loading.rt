//! The line of an `image` event.

ghost use Rattle.std.specs.Prelude.{◌≡◌, ◌++◌, ◌∷◌, decimal, is_some, true};
ghost use Rattle.script_model.specs.Text.{line};
ghost use Rattle.graft_loader.specs.Faults.{refusal_of, fault_text};
ghost use Rattle.kernel_core.specs.AddedImages.{has_memory, image_said};

use graft_loader::{FaultCode, LoadFault};
use kernel_core::ImageRefusal;
use kernel_data::{BareNote, Refusal};
use line_text::{Text, print_loaded, print_note, print_unloaded, print_unloaded_at};

/// The line of event n about bytes that are refused: the code of the fault, and its place.
fn say_fault(n: u32, fault: LoadFault, text: &mut Text)
    requires { is_some (refusal_of fault) ≡ true }
    ensures { text.new ≡ line (decimal n ++ 32 ∷ fault_text fault) }
{
    match fault.code() {
        None => unreachable!(),
        Some(
            FaultCode {
                text: code,
                place: None,
            },
        ) => print_unloaded(n, code, text),
        Some(
            FaultCode {
                text: code,
                place: Some(pc),
            },
        ) => print_unloaded_at(n, code, pc, text),
    }
}

/// The line of event n about an image: its sizes, or why it isn't added.
pub fn say_image(n: u32, answer: Result<(u32, u32), ImageRefusal>, text: &mut Text)
    requires { has_memory answer ≡ true }
    ensures { text.new ≡ line (decimal n ++ 32 ∷ image_said answer) }
{
    match answer {
        Ok((instructions, data)) => print_loaded(n, instructions, data, text),
        Err(ImageRefusal::BadSlot) => print_note(
            &BareNote::Refused(n, Refusal::BadIndex),
            &[],
            text,
        ),
        Err(ImageRefusal::Taken) => print_note(&BareNote::Refused(n, Refusal::Taken), &[], text),
        Err(ImageRefusal::Unloaded(fault)) => say_fault(n, fault, text),
    }
}
