//! Reads scripts of calls to an allocator, plays them, and writes their answers. It touches its sources, its
//! sinks and the allocator that it makes.
#![tactic(auto)]

mod answer_text;
mod answers;
mod buffer;
mod common_lines;
mod devices;
mod faults;
#[doc(hidden)]
pub mod keeper;
pub mod laws;
mod lines;
mod listening;
mod parsing;
mod player;
mod playing;
mod program;
mod running;
mod scripts;
mod sending;
mod tokens;

pub use answers::{Answer, FullRow, full_answer};
pub use buffer::TextBuffer;
pub use devices::{FromRead, IntoWrite, Sink, Source};
pub use faults::{RunFault, ScriptFault};
pub use listening::Listener;
pub use offset_allocator::{json_of, vma_json_of};
pub use parsing::parse;
pub use player::{Player, PlayerOf};
pub use playing::{play, play_of, play_script, play_script_to};
pub use program::{run, run_program, run_program_of};
pub use running::{Rendering, read_script, run_of};
pub use scripts::{Command, IndexWidth, Script};
pub use sending::{send, send_fault};
