//! The items of which a table file is a list: the one spelling of each, which of them may come next, and what is known of those
//! so far.
#![tactic(auto)]

mod blocks;
mod outline;
mod reading;
mod spelling;
mod stepping;

pub use blocks::{Block, Listed};
pub use outline::{Outline, further, row_pos, short};
pub use reading::{Part, behind, read_change, read_head, read_part, read_part_key, read_row_item};
pub use spelling::{
    END, STOP, append_block, append_change, append_entry, append_head, append_part, append_row,
    append_tail,
};
pub use stepping::{Next, next_item};
