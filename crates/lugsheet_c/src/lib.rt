// The five calls of the crate `lugsheet`, exported for C under their names and with their promises. No call has a `requires`: no caller is trusted.
#![tactic(auto)]

ghost use Rattle.std.specs.Prelude.{◌≡◌};
ghost use Rattle.rules.specs.Calls.{check_call, fresh_call, slice_call, placement_call, measure_call};

// The number of cells of a row.
#[unsafe(no_mangle)]
pub extern "C" fn lugsheet_check(row: &[u8]) -> u64
    ensures answer { result ≡ (check_call row.now).answer }
{
    lugsheet::lugsheet_check(row)
}

// The netlength of a placement of a row.
#[unsafe(no_mangle)]
pub extern "C" fn lugsheet_measure(row: &[u8], placement: &[u8]) -> u64
    ensures answer { result ≡ (measure_call row.now placement.now).answer }
{
    lugsheet::lugsheet_measure(row, placement)
}

// Makes the lent bench a fresh one.
#[unsafe(no_mangle)]
pub extern "C" fn lugsheet_fresh(bench: &mut [u8]) -> u64
    ensures answer { result ≡ (fresh_call bench.old).answer }
    ensures buffer { bench.new ≡ (fresh_call bench.old).buffer }
{
    lugsheet::lugsheet_fresh(bench)
}

// Takes at most `budget` steps on the lent bench.
#[unsafe(no_mangle)]
pub extern "C" fn lugsheet_slice(row: &[u8], bench: &mut [u8], budget: u32) -> u64
    ensures answer { result ≡ (slice_call row.now bench.old budget).answer }
    ensures buffer { bench.new ≡ (slice_call row.now bench.old budget).buffer }
{
    lugsheet::lugsheet_slice(row, bench, budget)
}

// Writes the positions that a finished bench gives.
#[unsafe(no_mangle)]
pub extern "C" fn lugsheet_placement(row: &[u8], bench: &[u8], placement: &mut [u8]) -> u64
    ensures answer { result ≡ (placement_call row.now bench.now placement.old).answer }
    ensures buffer { placement.new ≡ (placement_call row.now bench.now placement.old).buffer }
{
    lugsheet::lugsheet_placement(row, bench, placement)
}
