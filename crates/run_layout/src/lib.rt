//! What a run decides for the gaps of the items that it sees.
//!
//! A run sees the items of its view, cut into unwrapped lines. [`lay_out_view`] joins short lines and decides the gap
//! before each item as `docs/PROFILE.md` says under "Layout of lines", and notes what came of each line; what was
//! decided before stays. [`views_stay_sound`] carries the law that each of its decisions may stand.
#![tactic(auto)]

mod broken;
mod laid;
mod laws;
mod lines;
mod past_budget;
mod report;
mod roles;
mod rooms;
mod row;
mod short_row;
mod view;

pub use laid::Laid;
pub use laws::{
    lines_decide, lines_keep, lines_stay_sound, one_breaking_is_admissible, views_decide,
    views_keep, views_stay_sound,
};
pub use lines::lay_out_lines;
pub use report::{Counts, Report, Tally};
pub use view::lay_out_view;
