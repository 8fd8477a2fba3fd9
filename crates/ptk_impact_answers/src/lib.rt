#![tactic(auto)]

//! What the program writes for `impact` over two configurations and their files already read, as lines or as JSON, on
//! any writer.
//!
//! - A fault of `impact_with` or `impact_json_with` names the first missing image, those of the old configuration
//!   first; only if none is missing it names what is no rename or no partition, or is a failed writer (`first`,
//!   `there`).
//! - Before any fault but a failed writer or refused memory nothing is written (`silent`).
//!
//! There is a line or an object for each partition of the new configuration, by name, with what differs, then one for
//! each that is gone, and the counts last. Which differences there are is exact by the contract of `Impact::between`;
//! the words are tested in `ptk_main_tests`. Below are the comparison of two partitions (`ptk_impact`), images
//! (`ptk_image`) and the faults (`ptk_main_tools`); above is the program, which reads the files and lends its standard
//! output.

mod answer;
mod comparison;
mod document;
mod form;
mod lines;
mod matching;
mod refusal;
mod release;
mod renames;
mod sources;
mod tally;

pub use answer::{Question, impact_json_with, impact_with};
pub use release::Release;
pub use sources::{Source, image_for_both, put_image_for_both};
pub use tally::Tally;
