//! What can be seen of an image while it is decoded, for viewers.
#![tactic(auto)]

mod finished_view;
mod laws;
mod looker;
mod partial_view;
mod screen;
mod shown;
mod view;
mod watching;

pub use finished_view::FinishedView;
pub use laws::whole_view_is_picture;
pub use partial_view::PartialView;
pub use screen::Screen;
pub use view::View;
pub use watching::watch;
