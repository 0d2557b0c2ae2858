//! The two files of a station: started, opened by the list of their trees, and closed.
#![tactic(auto)]

mod beside;
mod laws;
mod made;
mod opening;
mod own_listing;
mod own_trees;
mod tree_list;
mod trees;

pub use beside::open_beside;
pub use laws::{
    files_lead_on, files_leave_by_list, files_leave_own, new_files_are_settled, openings_find,
    own_files_lead_on, own_files_lie_in_order, own_trees_spare_others,
};
pub use made::{Connected, Shown, ShownFiles, StationFiles, open_made, open_station, open_vacant};
pub use opening::{FileBacked, open_listed, open_new};
pub use own_trees::OwnTrees;
pub use trees::{OLD_TREES, station_trees};
