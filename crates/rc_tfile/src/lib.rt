//! Table files: partitions written as one text, with a directory of their blocks at its end; and files read, their head
//! alone or whole.
#![tactic(auto)]

mod checking;
mod directory;
mod fitting;
mod info;
mod walking;
mod window;
mod writing;

pub use checking::{CheckErr, read_schema};
pub use fitting::part_fits;
pub use info::{PartRef, PartRefs, TableInfo};
pub use rc_items::{Part, behind, read_change, read_part, read_part_key, read_row_item};
pub use walking::check_table;
pub use writing::{WriteErr, plan_table, write_table};
