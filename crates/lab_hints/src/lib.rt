//! What a written line of a run leaves unsaid, in view of the line of the script that asked for it:
//! which word is wrong and what could stand there, which number is out of which range, and why
//! nothing went on.
#![tactic(auto)]

mod asked;
mod calls;
mod causes;
mod forms;
mod hints;
mod numbers;
mod scripts;

pub use crate::causes::{Cause, causes_of, is_spent};
pub use crate::hints::Hints;
pub use crate::scripts::refused_word;
pub use kernel_data::NoMemory;
