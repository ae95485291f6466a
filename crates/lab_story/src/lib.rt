//! The story of a run: which lines of its script are events, what its written lines come to as bars,
//! marks and arrows; and the script that tells it slowly.
#![tactic(auto)]

mod chosen;
mod event;
mod marks;
mod reading;
mod slow;
mod story;

pub use crate::chosen::{Chosen, MOST_EVENTS, PictureFault, admitted};
pub use crate::event::{count_events, is_event};
pub use crate::reading::Reader;
pub use crate::slow::slow_script;
pub use crate::story::{
    Arrow, Bar, Column, DroppedGraft, End, Kind, NO_TEXT, PutBack, Record, Story, text_of_number,
};
