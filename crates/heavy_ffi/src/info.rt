//! What is in a value, as numbers.

ghost use Rattle.std.specs.Prelude.{◌≡◌, ◌≢◌, ◌∷◌, []};
ghost use Rattle.hh_faults.specs.declared.error.ToolError.TheVariants as tool;
ghost use Rattle.heavy_ffi.specs.Infos.{info_of};
ghost use Rattle.heavy_ffi.specs.Outcomes.{AnswersOn};

use crate::fault::{Fault, tell};
use crate::handle::Heavy;
use crate::room::{DONE, USAGE};
use hh_saved::Saved;
use std::alloc::Global;

/// What is in a value. What the other kind has is 0.
#[derive(Clone, Copy)]
#[repr(C)]
pub struct Info {
    pub kind: u64,
    pub total: u64,
    pub k: u64,
    pub keys: u64,
    pub counters: u64,
    pub slack: u64,
    pub width: u64,
    pub depth: u64,
}

/// The numbers of a value.
fn info_of(saved: &Saved) -> Info
    ensures { result ≡ info_of saved.now }
{
    match saved {
        Saved::Counters(summary) => Info {
            kind: 1,
            total: summary.total(),
            k: summary.k(),
            keys: summary.len() as u64,
            counters: summary.sum(),
            slack: summary.slack(),
            width: 0,
            depth: 0,
        },
        Saved::Cells(table) => Info {
            kind: 2,
            total: table.total(),
            k: 0,
            keys: 0,
            counters: 0,
            slack: 0,
            width: table.width(),
            depth: table.family().depth(),
        },
    }
}

/// Tells what is in the value that `heavy` has. After a refusal `info` is as it was.
#[unsafe(no_mangle)]
pub extern "C" fn proved_info(
    alloc: Global,
    heavy: &mut Heavy,
    info: &mut Info,
    fault: &mut Fault,
) -> u32
    ensures answers { AnswersOn heavy.old.place.value
        (λ value infos. infos ≡ info_of value ∷ []) (λ value refusal. refusal ≡ tool.Memory)
        result (info.old ∷ []) (info.new ∷ []) 1 fault.new }
    ensures kept { heavy.new.place.value ≡ heavy.old.place.value }
    ensures no_room { result ≢ 5 }
{
    let Some(mut value) = heavy.take(alloc) else {
        *fault = Fault::no_value();
        return USAGE;
    };
    let copied = value.copied(alloc);
    heavy.put(value);
    match copied {
        Ok(saved) => {
            *fault = Fault::none();
            *info = info_of(&saved);
            DONE
        }
        Err(refusal) => tell(&refusal, fault),
    }
}
