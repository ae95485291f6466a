//! A timeline of a run, as an SVG picture: its text and shapes, strips of events beside each other,
//! and the whole.
#![tactic(auto)]

mod below;
mod escape;
pub mod laws;
mod layout;
mod paint;
mod picture;
mod places;
mod records;
mod shapes;
mod style;

pub use crate::picture::draw;
pub use lab_story::{Chosen, MOST_EVENTS, PictureFault, Reader, Story, admitted, slow_script};
