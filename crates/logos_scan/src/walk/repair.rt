//! Repairs a walk that began in a wrong row: steps over the bytes again, from the right row on.
//! Called by `blocks` and `run`.

ghost use Rattle.std.specs.Prelude.{◌≡◌, ◌<◌, ◌≤◌, length};
ghost use Rattle.logos_scan.specs.walk.Views.{IsClosed, IsRowStart, IsSameBeside, Walked, HoldsStretch, IsRepaired};

use crate::walk::{OFFSET_MASK, step};

/// A walk that is stored in a trace: over the bytes from `from` up to but not including `to`, from
/// the row `begin` to the row `end`.
#[derive(Clone, Copy, Drop)]
pub struct Stretch {
    pub from: usize,
    pub to: usize,
    pub begin: usize,
    pub end: usize,
}

/// The result of `repair`: the row after the stretch, and the extent of the repair.
#[derive(Clone, Copy, Drop)]
pub struct Repaired {
    /// The row after the last byte of the stretch.
    pub row_start: usize,
    /// The index of the first byte whose entry was not written again.
    pub stop: usize,
}

/// Steps again over the bytes of a stretch, from the row `row_start` on, until a byte leads to the
/// same row as in the trace. Writes the entries of these bytes into `trace`.
pub fn repair(
    rows: &[u32],
    text: &[u8],
    row_start: usize,
    trace: &mut [u32],
    stretch: Stretch,
) -> Repaired
    requires closed { IsClosed rows.now }
    requires row_start { IsRowStart rows.now row_start }
    requires holds { HoldsStretch rows.now text.now trace.old stretch }
    ensures { IsRepaired rows.now text.now row_start stretch trace.old trace.new result }
{
    let mut now = row_start;
    for at in stretch.from..stretch.to {
        let before = (trace[at] & OFFSET_MASK) as usize;
        now = step(rows, text, now, trace, at);
        if before == now {
            return Repaired {
                row_start: stretch.end,
                stop: at + 1,
            };
        }
    }
    Repaired {
        row_start: now,
        stop: stretch.to,
    }
}
