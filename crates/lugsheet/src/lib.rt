// The calls that the broker makes; lugsheet_c exports them for C. Each promises, for every input, its one u64 and every byte of the buffer that it was lent,
// by the definitions of the crate `rules` (specs/Calls.antt). No call has a `requires`: no caller is trusted.
#![tactic(auto)]

ghost use Rattle.std.specs.Prelude.{◌≡◌, true, ◌+◌, ◌*◌, ◌≤◌, length};
ghost use Rattle.numbers.specs.Bytes.{u16_at};
ghost use Rattle.rules.specs.Sizes.{few_cells, few_nets};
ghost use Rattle.rules.specs.Refusals.{refusal};
ghost use Rattle.rules.specs.Steps.{carried_bound};
ghost use Rattle.rules.specs.Calls.{bit, check_call, fresh_call, slice_call, placement_call, measure_call};
ghost use Rattle.lugsheet.specs.Answers.{answered, Enough};

use changes::Clump;
use layout::Place;
use nets::Net;
use reading::read_row;
use rules::{
    BENCH_SIZE, Change, ENDS, FEW_CELLS, FEW_CHANGES, FEW_ENDS, FEW_NETS, MOST_CELLS, MOST_CHANGES,
    MOST_NETS, Refusal, Refused,
};
use slicing::Sliced;

// A refusal and its place as one u64, as C takes it: the only place where that number is made.
fn refused(refused: Refused) -> u64
    ensures { result ≡ refusal refused.refusal refused.place }
{
    9223372036854775808 + refused.refusal as u64 * 4294967296 + u64::from(refused.place)
}

// What a call answers as one u64.
fn answer_of(answer: Result<u64, Refused>) -> u64
    ensures { result ≡ answered answer }
{
    match answer {
        Ok(number) => number,
        Err(refusal) => refused(refusal),
    }
}

// A refusal of the call itself, and not of a record of the row.
fn unmet<T>(refusal: Refusal) -> Result<T, Refused>
    ensures { result ≡ Err (record { refusal = refusal; place = 0 }) }
{
    Err(Refused { refusal, place: 0 })
}

// The bound on the changes that a run carries: 2m times the whole part of the logarithm of 2m, found from the bits of 2m.
pub fn carried_bound(nets: u16) -> u64
    ensures { result ≡ carried_bound nets }
{
    let changes = 2 * u32::from(nets);
    u64::from(changes) * u64::from(numbers::whole_log(changes))
}

// Does the row say few cells and few nets, so that short lists are enough? Where it is too short to say, it does not.
fn is_small(row: &[u8]) -> bool
    ensures { result ≡ true → (u16_at row.now 6 ≤ few_cells) × (u16_at row.now 8 ≤ few_nets) }
{
    row.len() >= 10
        && usize::from(numbers::u16_at(row, 6)) <= FEW_CELLS
        && usize::from(numbers::u16_at(row, 8)) <= FEW_NETS
}

// ---- check

fn check<const CELLS: usize, const NETS: usize>(row: &[u8]) -> Result<u64, Refused>
    requires { Enough row.now CELLS NETS }
    ensures { answered result ≡ (check_call row.now).answer }
{
    let mut widths = [0; CELLS];
    let mut nets = [Net::default(); NETS];
    let sheet = read_row(row, &mut widths, &mut nets)?;
    Ok(sheet.widths.len() as u64)
}

// The number of cells of a row.
pub fn lugsheet_check(row: &[u8]) -> u64
    ensures answer { result ≡ (check_call row.now).answer }
{
    answer_of(if is_small(row) {
        check::<FEW_CELLS, FEW_NETS>(row)
    } else {
        check::<MOST_CELLS, MOST_NETS>(row)
    })
}

// ---- measure

fn measure<const CELLS: usize, const NETS: usize>(
    row: &[u8],
    placement: &[u8],
) -> Result<u64, Refused>
    requires { Enough row.now CELLS NETS }
    ensures { answered result ≡ (measure_call row.now placement.now).answer }
{
    let mut widths = [0; CELLS];
    let mut nets = [Net::default(); NETS];
    let sheet = read_row(row, &mut widths, &mut nets)?;
    if placement.len() != 4 * sheet.widths.len() {
        return unmet(Refusal::Room);
    }
    if let Some(cell) = measuring::first_overlap(sheet.widths, sheet.width, placement) {
        return Err(Refused {
            refusal: Refusal::Overlap,
            place: cell as u32,
        });
    }
    Ok(measuring::netlength(sheet.nets, placement))
}

// The netlength of a placement of a row.
pub fn lugsheet_measure(row: &[u8], placement: &[u8]) -> u64
    ensures answer { result ≡ (measure_call row.now placement.now).answer }
{
    answer_of(if is_small(row) {
        measure::<FEW_CELLS, FEW_NETS>(row, placement)
    } else {
        measure::<MOST_CELLS, MOST_NETS>(row, placement)
    })
}

// ---- fresh

// Makes the lent bench a fresh one.
pub fn lugsheet_fresh(bench: &mut [u8]) -> u64
    ensures answer { result ≡ (fresh_call bench.old).answer }
    ensures buffer { bench.new ≡ (fresh_call bench.old).buffer }
{
    let Some(bench) = bench.as_mut_array::<BENCH_SIZE>() else {
        return answer_of(unmet(Refusal::Room));
    };
    benches::store_fresh(bench);
    0
}

// ---- slice

// What a slice answers: twice the steps taken, plus 1 if finished.
fn sliced_answer(sliced: Sliced) -> u64
    ensures { result ≡ 2 * sliced.steps.0 + bit sliced.finished }
{
    2 * u64::from(sliced.steps.0) + u64::from(sliced.finished)
}

fn slice<const CELLS: usize, const NETS: usize, const ENDS: usize, const CHANGES: usize>(
    row: &[u8],
    bench: &mut [u8],
    budget: u32,
) -> Result<u64, Refused>
    requires { Enough row.now CELLS NETS × (ENDS ≡ CELLS + 1) × (CHANGES ≡ 2 * NETS) }
    ensures value { answered result ≡ (slice_call row.now bench.old budget).answer }
    ensures bench_after { bench.new ≡ (slice_call row.now bench.old budget).buffer }
{
    let mut widths = [0; CELLS];
    let mut nets = [Net::default(); NETS];
    let sheet = read_row(row, &mut widths, &mut nets)?;
    let Some(bench) = bench.as_mut_array::<BENCH_SIZE>() else {
        return unmet(Refusal::Room);
    };
    let mut places = [Place::default(); ENDS];
    let mut changes = [Change::default(); CHANGES];
    let mut clumps = [Clump::default(); CELLS];
    let mut keys = [0; CHANGES];
    match slicing::slice(
        sheet,
        bench,
        budget,
        &mut places,
        &mut changes,
        &mut clumps,
        &mut keys,
    ) {
        Ok(sliced) => Ok(sliced_answer(sliced)),
        Err(wrong) => unmet(wrong),
    }
}

// Takes at most `budget` steps on the lent bench.
pub fn lugsheet_slice(row: &[u8], bench: &mut [u8], budget: u32) -> u64
    ensures answer { result ≡ (slice_call row.now bench.old budget).answer }
    ensures buffer { bench.new ≡ (slice_call row.now bench.old budget).buffer }
{
    answer_of(if is_small(row) {
        slice::<FEW_CELLS, FEW_NETS, FEW_ENDS, FEW_CHANGES>(row, bench, budget)
    } else {
        slice::<MOST_CELLS, MOST_NETS, ENDS, MOST_CHANGES>(row, bench, budget)
    })
}

// ---- placement

fn placement_of<const CELLS: usize, const NETS: usize, const ENDS: usize>(
    row: &[u8],
    bench: &[u8],
    placement: &mut [u8],
) -> Result<u64, Refused>
    requires { Enough row.now CELLS NETS × (ENDS ≡ CELLS + 1) }
    ensures value { answered result ≡ (placement_call row.now bench.now placement.old).answer }
    ensures placement_after { placement.new ≡ (placement_call row.now bench.now placement.old).buffer }
{
    let mut widths = [0; CELLS];
    let mut nets = [Net::default(); NETS];
    let sheet = read_row(row, &mut widths, &mut nets)?;
    let Some(bench) = bench.as_array::<BENCH_SIZE>() else {
        return unmet(Refusal::Room);
    };
    if placement.len() != 4 * sheet.widths.len() {
        return unmet(Refusal::Room);
    }
    let mut places = [Place::default(); ENDS];
    let mut clumps = [Clump::default(); CELLS];
    match placing::place(sheet, bench, placement, &mut places, &mut clumps) {
        Ok(length) => Ok(length),
        Err(refusal) => unmet(refusal),
    }
}

// Writes the positions that a finished bench gives.
pub fn lugsheet_placement(row: &[u8], bench: &[u8], placement: &mut [u8]) -> u64
    ensures answer { result ≡ (placement_call row.now bench.now placement.old).answer }
    ensures buffer { placement.new ≡ (placement_call row.now bench.now placement.old).buffer }
{
    answer_of(if is_small(row) {
        placement_of::<FEW_CELLS, FEW_NETS, FEW_ENDS>(row, bench, placement)
    } else {
        placement_of::<MOST_CELLS, MOST_NETS, ENDS>(row, bench, placement)
    })
}
