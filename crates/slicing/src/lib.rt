// A slice of a row that was read (document 01, "What the broker calls", slice): the saved bench is loaded, the row's changes are laid out, at most
// so many steps are taken, and the bench that they leave is written. A bench that is not in form is left as it is.
#![tactic(auto)]

ghost use Rattle.std.specs.Prelude.{◌≡◌, ◌+◌, ◌*◌, ◌≤◌, cond, length, get_or, ◌-◌};
ghost use Rattle.rules.specs.Row.{Row};
ghost use Rattle.rules.specs.Steps.{Bench as Meant};
ghost use Rattle.rules.specs.Bench.{bench_bytes};
ghost use Rattle.changes.specs.Columns.{cells_of, edges_of};
ghost use Rattle.reading.specs.Reads.{Holds};
ghost use Rattle.engine.specs.Laid.{seen};
ghost use Rattle.engine.specs.Stands.{lists_of, Numbers};
ghost use Rattle.slicing.specs.Sliced.{SlicedAs, Advanced};
ghost use Rattle.slicing.specs.Begun.{begun, Begins, Lent, Saves};

use benches::{Saved, load, store};
use changes::{Clump, Kept};
use engine::{Bench, resume};
use layout::{Layout, Place, lay_out, lay_starts};
use reading::Sheet;
use rules::{BENCH_SIZE, Change, Refusal, Steps};

// What a slice answers: how many steps it took and whether all is done. Both are told in any case: the one does not depend on the other.
#[derive(Clone, Copy)]
pub struct Sliced {
    pub steps: Steps,
    pub finished: bool,
}

// The work so far, by the numbers that were saved: with a clump in hand, the last one is it, and its cells are the last that were opened. Nothing is
// kept of its changes yet.
fn begin(saved: Saved, clumps: &[Clump]) -> Bench
    requires { (saved.clumps ≤ length clumps.now) × (cond saved.held 1 0 ≤ saved.clumps) × (cond saved.held (get_or (cells_of clumps.now) (saved.clumps - 1) 0) 0 ≤ saved.opened) }
    ensures { result ≡ begun saved (cells_of clumps.now) }
{
    let settled = saved.settled();
    let cells = if saved.held {
        usize::from(clumps[settled].cells)
    } else {
        0
    };
    Bench {
        opened: saved.opened,
        first: saved.opened - cells,
        settled,
        hand: Kept {
            size: 0,
            sum: 0,
            cap: 0,
        },
        carried: saved.carried,
    }
}

// The work as it was left, as bytes: the clump in hand, if there is one, goes after the settled ones, at edge 0.
fn save(left: Bench, clumps: &mut [Clump], bench: &mut [u8; BENCH_SIZE])
    requires { (R : Row) × ((b : Meant) × (Numbers R left (cells_of clumps.old) (edges_of clumps.old) b × Saves R clumps.old)) }
    ensures { (R : Row) (b : Meant) → Numbers R left (cells_of clumps.old) (edges_of clumps.old) b → Saves R clumps.old → bench.new ≡ bench_bytes b }
{
    let held = left.first != left.opened;
    let settled = left.settled;
    if held {
        let clump = &mut clumps[settled];
        clump.cells = (left.opened - left.first) as u16;
        clump.edge = 0;
    }
    store(
        bench,
        left.opened,
        held,
        left.carried,
        &clumps[..settled + usize::from(held)],
    );
}

// From a bench that was loaded, with the row's changes laid out: steps are taken, and what they leave is written.
fn advance(
    saved: Saved,
    budget: u32,
    row: Layout<'_>,
    clumps: &mut [Clump],
    keys: &mut [u32],
    bench: &mut [u8; BENCH_SIZE],
) -> Sliced
    requires { (R : Row) × Begins R bench.old saved row.width (seen row) (lists_of clumps.old keys.old) }
    ensures { (R : Row) → Begins R bench.old saved row.entry.width (seen row.entry) (lists_of clumps.old keys.old) → Advanced R budget bench.old bench.new result }
{
    let from = begin(saved, clumps);
    let ran = resume(from, budget, row, clumps, keys);
    let left = ran.bench;
    save(left, clumps, bench);
    Sliced {
        steps: ran.steps,
        finished: left.finished(row.cells()),
    }
}

// Of a row that was read. The other lists are lent to work in: of `places` each bound and each need is 0.
pub fn slice(
    sheet: Sheet<'_>,
    bench: &mut [u8; BENCH_SIZE],
    budget: u32,
    places: &mut [Place],
    changes: &mut [Change],
    clumps: &mut [Clump],
    keys: &mut [u32],
) -> Result<Sliced, Refusal>
    requires holds { (R : Row) × Holds sheet.width sheet.widths.now sheet.nets.now R }
    requires lent { Lent (length sheet.widths.now) (length sheet.nets.now) places.old changes.old clumps.old keys.old }
    ensures { (R : Row) → Holds sheet.entry.width sheet.entry.widths.now sheet.entry.nets.now R → SlicedAs R budget bench.old bench.new result }
{
    let places = &mut places[..sheet.widths.len() + 1];
    lay_starts(sheet.widths, places);
    let Some(saved) = load(bench, sheet.width, places, clumps) else {
        return Err(Refusal::WrongBench);
    };
    lay_out(sheet.nets, places, changes);
    let row = Layout {
        width: sheet.width,
        places,
        changes,
    };
    Ok(advance(saved, budget, row, clumps, keys, bench))
}
