// The bench as bytes (document 01, "The bench"): saved bytes taken apart and told in form or not, and a bench written as bytes.
// Any 1,547 bytes may come in: every number is read as it stands, and no place past the buffer or past the lists is touched.
#![tactic(auto)]

ghost use Rattle.std.specs.Prelude.{◌≡◌, ◌++◌, cond, ◌-◌, ◌*◌, ◌+◌, ◌≤◌, ◌<◌, length, drop, replicate};
ghost use Rattle.rules.specs.Sizes.{most_cells, part_size};
ghost use Rattle.rules.specs.Row.{Row};
ghost use Rattle.rules.specs.Steps.{Bench};
ghost use Rattle.rules.specs.Bench.{all_zero, bench_bytes, fresh};
ghost use Rattle.changes.specs.Columns.{cells_of, edges_of, sizes_of, sums_of};
ghost use Rattle.layout.specs.Columns.{starts_of};
ghost use Rattle.benches.specs.Fits.{has_mark, counts_fit, head_fits, ends_by, cells_fit, edge_fits};
ghost use Rattle.benches.specs.Saved.{head_of, settled_of, Parted, Told, Loaded, Written, head_bytes};

use changes::Clump;
use layout::Place;
use rules::{BENCH_SIZE, Carried};

// What saved bytes in form say: how many cells are opened, whether a clump is in hand, how many clumps there are, and the changes carried. The cells and
// left edge of each clump, the one in hand last, go to a lent list. `held` is a byte of the bench, and stands for itself.
#[derive(Clone, Copy)]
pub struct Saved {
    pub opened: usize,
    pub held: bool,
    pub clumps: usize,
    pub carried: Carried,
}

impl Saved {
    // The numbers of the head.
    fn read(bench: &[u8; BENCH_SIZE]) -> Self
        ensures { result ≡ head_of bench.now }
    {
        Saved {
            opened: usize::from(numbers::u16_at(bench, 2)),
            held: bench[4] == 1,
            clumps: usize::from(numbers::u16_at(bench, 5)),
            carried: Carried(numbers::u32_at(bench, 7)),
        }
    }

    // How many of the clumps are settled.
    pub fn settled(self) -> usize
        requires { cond self.held 1 0 ≤ self.clumps }
        ensures { result ≡ settled_of self }
    {
        self.clumps - usize::from(self.held)
    }
}

// The two bytes that a bench begins with.
fn has_mark(bench: &[u8; BENCH_SIZE]) -> bool
    ensures { result ≡ has_mark bench.now }
{
    bench[0] == b'B' && bench[1] == b'N'
}

// Each number of the head within its limit.
#[tactic(auto, unfolding(crate::specs::Fits::counts_fit))]
fn counts_fit(count: usize, opened: usize, hand: u8, clumps: usize, carried: u32) -> bool
    ensures { result ≡ counts_fit count opened hand clumps carried }
{
    clumps <= rules::MOST_CELLS
        && opened <= count
        && hand <= 1
        && usize::from(hand) <= clumps
        && carried <= rules::MOST_CARRIED
}

#[tactic(auto, unfolding(crate::specs::Fits::head_fits))]
fn head_fits(bench: &[u8; BENCH_SIZE], count: usize) -> bool
    ensures { result ≡ head_fits count bench.now }
{
    has_mark(bench)
        && counts_fit(
            count,
            usize::from(numbers::u16_at(bench, 2)),
            bench[4],
            usize::from(numbers::u16_at(bench, 5)),
            numbers::u32_at(bench, 7),
        )
}

// Are all bytes from a place on 0? The largest of them tells, without a test at each.
fn zero_from(bench: &[u8; BENCH_SIZE], from: usize) -> bool
    requires { from ≤ length bench.now }
    ensures { result ≡ all_zero (drop from bench.now) }
{
    let mut most = 0;
    for &byte in &bench[from..] {
        most = byte.max(most);
    }
    most == 0
}

// Does a clump at `edge` end by `limit`, where the cells left of it are `from` wide and with its own they are `to`? In 64 bits nothing wraps.
fn ends_by(edge: u32, limit: u32, from: u32, to: u32) -> bool
    ensures { result ≡ ends_by edge limit from to }
{
    u64::from(edge) + u64::from(to) <= u64::from(limit) + u64::from(from)
}

// A clump has a cell, and none that is not opened.
fn cells_fit(first: usize, next: usize, opened: usize) -> bool
    ensures { result ≡ cells_fit first next opened }
{
    first < next && next <= opened
}

// A settled clump begins at or right of the end of the one before it and ends by the row's width; the edge in hand is 0.
fn edge_fits(settled: bool, edge: u32, after: bool, within: bool) -> bool
    ensures { result ≡ edge_fits settled edge after within }
{
    if settled { after && within } else { edge == 0 }
}

// The clumps, one after the other: in form where all fit and their cells add to those opened.
fn parts_fit(
    head: Saved,
    bench: &[u8; BENCH_SIZE],
    width: u32,
    places: &[Place],
    clumps: &mut [Clump],
) -> bool
    requires clumps_le_most_cells { (head.clumps ≤ most_cells) × (cond head.held 1 0 ≤ head.clumps) }
    requires opened_le_most_cells { (head.opened ≤ most_cells) × (head.opened + 1 ≤ length places.now) × (head.opened ≤ length clumps.old) }
    ensures parted { Parted head bench.now width (starts_of places.now) (cells_of clumps.new) (edges_of clumps.new) result }
    ensures clumps_len_unchanged { length clumps.new ≡ length clumps.old }
    ensures others { (sizes_of clumps.new ≡ sizes_of clumps.old) × (sums_of clumps.new ≡ sums_of clumps.old) }
{
    let settled = head.settled();
    let mut last = 0;
    let mut left = 0;
    let mut first = 0;
    for k in 0..head.clumps {
        let at = rules::HEAD_SIZE + rules::PART_SIZE * k;
        let cells = numbers::u16_at(bench, at);
        let edge = numbers::u32_at(bench, at + 2);
        let next = first + usize::from(cells);
        if !cells_fit(first, next, head.opened) {
            return false;
        }
        let start = places[first].start;
        let after = ends_by(left, edge, places[last].start, start);
        let within = ends_by(edge, width, start, places[next].start);
        if !edge_fits(k < settled, edge, after, within) {
            return false;
        }
        let clump = &mut clumps[k];
        clump.cells = cells;
        clump.edge = edge;
        last = first;
        left = edge;
        first = next;
    }
    first == head.opened
}

// The bench that saved bytes say, where they are in form, for a row of this width with a place for each cell and one past the last.
pub fn load(
    bench: &[u8; BENCH_SIZE],
    width: u32,
    places: &[Place],
    clumps: &mut [Clump],
) -> Option<Saved>
    requires places_in_bounds { (1 ≤ length places.now) × (length places.now ≤ most_cells + 1) × (length places.now ≤ length clumps.old + 1) }
    ensures loaded { (R : Row) → Told R width (starts_of places.now) → Loaded R bench.now (cells_of clumps.new) (edges_of clumps.new) result }
    ensures clumps_len_unchanged { length clumps.new ≡ length clumps.old }
    ensures others { (sizes_of clumps.new ≡ sizes_of clumps.old) × (sums_of clumps.new ≡ sums_of clumps.old) }
{
    let head = Saved::read(bench);
    if head_fits(bench, places.len() - 1)
        && zero_from(bench, rules::HEAD_SIZE + rules::PART_SIZE * head.clumps)
        && parts_fit(head, bench, width, places, clumps)
    {
        return Some(head);
    }
    None
}

// The mark and the numbers of a bench, and every byte after them 0.
fn store_head(
    bench: &mut [u8; BENCH_SIZE],
    opened: usize,
    held: bool,
    clumps: usize,
    carried: Carried,
)
    requires { (opened ≤ most_cells) × (clumps ≤ most_cells) }
    ensures { bench.new ≡ head_bytes opened (cond held 1 0) clumps carried.0 ++ replicate (part_size * most_cells) 0 }
{
    bench.fill(0);
    bench[0] = b'B';
    bench[1] = b'N';
    numbers::put_u16(bench, 2, opened as u16);
    bench[4] = u8::from(held);
    numbers::put_u16(bench, 5, clumps as u16);
    numbers::put_u32(bench, 7, carried.0);
}

// A bench as bytes: its head, then the cells and left edge of each clump.
pub fn store(
    bench: &mut [u8; BENCH_SIZE],
    opened: usize,
    held: bool,
    carried: Carried,
    clumps: &[Clump],
)
    requires { (opened ≤ most_cells) × (length clumps.now ≤ most_cells) }
    ensures { (b : Bench) → Written opened held (length clumps.now) carried.0 (cells_of clumps.now) (edges_of clumps.now) b → bench.new ≡ bench_bytes b }
{
    store_head(bench, opened, held, clumps.len(), carried);
    for (k, clump) in clumps.iter().enumerate() {
        let at = rules::HEAD_SIZE + rules::PART_SIZE * k;
        numbers::put_u16(bench, at, clump.cells);
        numbers::put_u32(bench, at + 2, clump.edge);
    }
}

// A fresh bench: every number 0.
pub fn store_fresh(bench: &mut [u8; BENCH_SIZE])
    ensures { bench.new ≡ bench_bytes fresh }
{
    store_head(bench, 0, false, 0, Carried(0));
}
