// Placement (document 01, "What the broker calls"): the positions of a finished bench as bytes, and their netlength, for a row that was read.
// A bench that is not in form or not finished leaves every byte of the placement as it is.
#![tactic(auto)]

ghost use Rattle.std.specs.Prelude.{◌≡◌, not, ◌&&◌, List, ℕ, ◌+◌, ◌-◌, ◌*◌, ◌≤◌, leb, length, drop};
ghost use Rattle.rules.specs.Row.{Row};
ghost use Rattle.rules.specs.Bench.{bench_of};
ghost use Rattle.rules.specs.Calls.{packed, positions, site_bytes};
ghost use Rattle.reading.specs.Reads.{Holds};
ghost use Rattle.changes.specs.Columns.{cells_of, edges_of, sizes_of, sums_of};
ghost use Rattle.layout.specs.Columns.{bounds_of, slots_of, needs_of};
ghost use Rattle.placing.specs.Sites.{over};
ghost use Rattle.placing.specs.Puts.{Fits, Ready};
ghost use Rattle.placing.specs.PlacedAs.{PlacedAs};

use changes::Clump;
use layout::Place;
use reading::Sheet;
use rules::{BENCH_SIZE, Refusal};

// Nothing in hand, all cells opened.
fn is_finished(held: bool, opened: usize, cells: usize) -> bool
    ensures { result ≡ (not held && leb cells opened) }
{
    !held && cells <= opened
}

// The cells of one clump, side by side from its edge.
fn put_clump(widths: &[u32], placement: &mut [u8], first: usize, end: usize, edge: u32)
    requires { Fits widths.now placement.old first end edge }
    ensures { placement.new ≡ over placement.old first (packed edge (end - first) (drop first widths.now)) }
{
    let mut x = edge;
    for i in first..end {
        numbers::put_u32(placement, 4 * i, x);
        x += widths[i];
    }
}

// The clumps of a finished bench, from left to right.
fn put_clumps(clumps: &[Clump], widths: &[u32], placement: &mut [u8])
    requires { (R : Row) × ((s : List ℕ) × Ready R s (cells_of clumps.now) (edges_of clumps.now) widths.now placement.old) }
    ensures { (R : Row) (s : List ℕ) → Ready R s (cells_of clumps.now) (edges_of clumps.now) widths.now placement.old → placement.new ≡ site_bytes (positions R (bench_of R s)) }
{
    let mut first = 0;
    for clump in clumps {
        let end = first + usize::from(clump.cells);
        put_clump(widths, placement, first, end, clump.edge);
        first = end;
    }
}

// The positions that a bench gives, for a row that was read, or why there are none. Two lists are lent to work in.
pub fn place(
    sheet: Sheet<'_>,
    bench: &[u8; BENCH_SIZE],
    placement: &mut [u8],
    places: &mut [Place],
    clumps: &mut [Clump],
) -> Result<u64, Refusal>
    requires lent { (length sheet.widths.now + 1 ≤ length places.old) × (length sheet.widths.now ≤ length clumps.old) × (length placement.old ≡ 4 * length sheet.widths.now) }
    requires holds { (R : Row) × Holds sheet.width sheet.widths.now sheet.nets.now R }
    ensures placed { (R : Row) → Holds sheet.entry.width sheet.entry.widths.now sheet.entry.nets.now R → PlacedAs R bench.now placement.old placement.new result }
    ensures other_places { (bounds_of places.new ≡ bounds_of places.old) × (slots_of places.new ≡ slots_of places.old) × (needs_of places.new ≡ needs_of places.old) }
    ensures other_clumps { (sizes_of clumps.new ≡ sizes_of clumps.old) × (sums_of clumps.new ≡ sums_of clumps.old) }
{
    let cells = sheet.widths.len();
    let places = &mut places[..cells + 1];
    layout::lay_starts(sheet.widths, places);
    let Some(saved) = benches::load(bench, sheet.width, places, clumps) else {
        return Err(Refusal::WrongBench);
    };
    if !is_finished(saved.held, saved.opened, cells) {
        return Err(Refusal::Unfinished);
    }
    put_clumps(&clumps[..saved.clumps], sheet.widths, placement);
    Ok(measuring::netlength(sheet.nets, placement))
}
