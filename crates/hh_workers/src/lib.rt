//! What an analysis by threads is made of, whatever it counts: pieces of any kind, plans to merge
//! by, and workers that claim pieces and share sums.
#![tactic(auto)]

mod gate;
mod gathering;
mod parsing;
mod pass;
mod pieces;
mod plan;
mod workers;

pub use gate::{Gate, OpenGate};
pub use gathering::gather_pieces;
pub use pass::{Pass, add_numbers, run_sequentially, run_worker};
pub use pieces::{CutStream, Pieces, only_memory};
pub use plan::{Plan, Tree};
pub use workers::{MAX_WORKERS, found_or_made, share_work};
