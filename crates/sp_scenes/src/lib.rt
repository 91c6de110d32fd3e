//! Scene numbers: the labels of headings, and the records that keep them.
#![tactic(auto)]

mod extension;
mod fault;
mod heading;
mod locking;
mod numbering;
mod places;

pub use extension::extend_scenes;
pub use fault::SceneFault;
pub use heading::{HeadingAt, SceneRecord};
pub use locking::lock_scenes;
pub use numbering::{numbers, numbers_of_lines};
pub use sp_labels::LockFault;
