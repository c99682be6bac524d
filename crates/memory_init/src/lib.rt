// What the attachments of a pass do to the discards, actions and clears of a command buffer (memory_init.rs), as plans; in `tally` what a
// pass finds in the lists that a caller lends, counted before anything is written. What it then leaves in them is `recording`'s.
#![tactic(auto)]

pub mod tally;

use definition::{MemoryInitKind, Range};

// What an attachment does to the lists: of its surfaces, the action that it registers, if any, and whether it lists a discard.
#[derive(Clone, Copy)]
pub struct Planned {
    pub range: Range,
    pub kind: Option<MemoryInitKind>,
    pub discards: bool,
}
