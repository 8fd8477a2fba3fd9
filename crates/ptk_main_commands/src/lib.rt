#![tactic(auto)]

//! What the program `ptk` does with the words of its command line, over real files and its own streams: what each
//! request writes, and the number of its status (`answer_words`, `answer_to`, `obey`).
//!
//! - At a usage error nothing is written on the writer (`silent` of `answer_to` and `obey`).
//! - If `trace --decode`, `timeline`, `explain` or `stats` is refused nothing is written, unless memory ran out or the
//!   writer failed (`silent`). Their fault is that no partition has the name, or that there is no tick to show, else the
//!   first missing image (`refused`).
//!
//! Which files are read, what is written, and each status are tested (`ptk_main_tests`). Below are the command line
//! (`ptk_main_line`), the files, faults and tools (`ptk_main_tools`), the answers over files already read
//! (`ptk_main_answers`, `ptk_impact_answers`), the pictures (`ptk_timeline`, `ptk_timeline_formats`), the figures
//! (`ptk_statistics`) and the explanation of a run (`ptk_explanation`); above is the program `ptk_main`.

mod checking;
mod commands;
mod comparing;
mod counting;
mod deadlines;
mod explaining;
mod picture;
mod progress;
mod running;
mod standing;
mod tracing;
mod unlike;

pub use checking::{check_config, refusal_explained};
pub use commands::{answer_to, answer_words, obey};
pub use picture::timeline_answer;
pub use ptk_impact_answers as impacts;
pub use ptk_main_answers as answers;
pub use ptk_main_tools::{
    bytes_in, config_in, disasm_file, put_place, tell, text_in, unread, usage,
};
pub use ptk_statistics as statistics;
