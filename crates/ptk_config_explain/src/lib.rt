#![tactic(auto)]

//! A configuration in words (`explain`): of a refused one where and why (`explain_refusal`), of one with a refused
//! image a line about that image, and else what each partition has.
//!
//! - `explain` and `explain_refusal` return the fault that `read_config` has (`fault`).
//! - If memory is refused, the writer is as it was (`silent`), and for an accepted text `explain_refusal` writes
//!   nothing (`accepted`).
//!
//! The words are tested in `ptk_tools_tests`. Below are the configuration with the places of its faults (`ptk_config`), and
//! images and files (`ptk_image`); above is the program.

mod explanation;
mod images;
mod lookup;
mod nearest;
mod reason;
mod refusal;
mod share;
mod statements;
mod table;
mod target;
mod window_reason;
mod words;

pub use explanation::explain;
pub use refusal::{ExplainFault, explain_refusal};
