//! Writes the items of an input or of a stream in blocks, with one line or one JSON object for each
//! item. The counts of the items follow the lines. Called by `logos_show`.

#![tactic(auto)]

mod blocks;
mod inputs;
mod items;
mod lines;
mod records;
mod streams;

pub use items::write_items;
pub use lines::ItemOrder;
pub use records::write_item_records;
pub use streams::write_streamed;
