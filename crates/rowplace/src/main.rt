// rowplace: reads a row on standard input, runs it to the finish and prints its placement, or the refusal (document 01, "Rows worked by hand").
// A thin program over the library: all that it prints comes from the proved calls. What is read and written is tested, not proved.
#![tactic(auto)]

ghost use Rattle.std.specs.Prelude.{◌*◌, ◌≤◌, length, IfOk};
ghost use Rattle.rules.specs.Sizes.{most_cells};

use rules::{BENCH_SIZE, MOST_CELLS};
use std::io::Read;
use std::{fmt, io};

// No row is longer than this: what comes after is not read.
const MOST_BYTES: usize = 65536;

// From here on a call's answer is a refusal: this, and so many times the second number, and its place.
const REFUSALS: u64 = 1 << 63;

const PLACES: u64 = 1 << 32;

// A refusal by its number, and its place.
#[derive(Clone, Copy)]
struct Refused {
    number: u64,
    place: u64,
}

impl fmt::Display for Refused {
    fn fmt<W: fmt::Write>(&self, f: &mut fmt::Formatter<W>) -> fmt::Result {
        write!(f, "refused {} {}", self.number, self.place)
    }
}

// A call's one u64 taken apart, as C has to.
fn taken(answer: u64) -> Result<u64, Refused> {
    if answer < REFUSALS {
        return Ok(answer);
    }
    Err(Refused {
        number: (answer - REFUSALS) / PLACES,
        place: answer % PLACES,
    })
}

// The netlength, steps, carried and the bound on carried of a finished run.
#[derive(Clone, Copy)]
struct Done {
    netlength: u64,
    steps: u64,
    carried: u32,
    bound: u64,
}

impl fmt::Display for Done {
    fn fmt<W: fmt::Write>(&self, f: &mut fmt::Formatter<W>) -> fmt::Result {
        write!(
            f,
            "done {} {} {} {}",
            self.netlength, self.steps, self.carried, self.bound
        )
    }
}

// Cell and position, a line each.
fn print_cells(rt: &impl Print, sites: &[u8]) -> io::Result<()>
    requires { length sites.now ≤ 4 * most_cells }
{
    for i in 0..sites.len() / 4 {
        println!(rt; "{i} {}", numbers::u32_at(sites, 4 * i))?;
    }
    Ok(())
}

// Runs a row that is not refused to the finish, and writes its positions.
fn run(row: &[u8], sites: &mut [u8]) -> Done
    requires { 10 ≤ length row.now }
{
    let mut bench = [0; BENCH_SIZE];
    lugsheet::lugsheet_fresh(&mut bench);
    let sliced = lugsheet::lugsheet_slice(row, &mut bench, u32::MAX);
    Done {
        netlength: lugsheet::lugsheet_placement(row, &bench, sites),
        steps: sliced / 2,
        carried: numbers::u32_at(&bench, 7),
        bound: lugsheet::carried_bound(numbers::u16_at(row, 8)),
    }
}

// A row that is taken has at least ten bytes and at most so many cells: the second test refuses nothing.
fn place(rt: &impl Print, row: &[u8]) -> io::Result<()> {
    let cells = match taken(lugsheet::lugsheet_check(row)) {
        Ok(cells) => cells,
        Err(refused) => return println!(rt; "{refused}"),
    };
    if cells > MOST_CELLS as u64 || row.len() < 10 {
        return Ok(());
    }
    let cells = cells as usize;
    let mut sites = [0; 4 * MOST_CELLS];
    let sites = &mut sites[..4 * cells];
    let done = run(row, sites);
    println!(rt; "{done}")?;
    print_cells(rt, sites)
}

// Reads until the input ends or the room is full. A `Vec` that grows could run out of memory, and `io::copy` would read into a buffer of its own first.
fn read_row(rt: &impl Input, room: &mut [u8]) -> io::Result<usize>
    ensures { IfOk result (λ n. n ≤ length room.new) }
{
    let mut reader = rt.reader();
    let mut done = 0;
    while done < room.len() {
        let n = reader.read(&mut room[done..])?;
        if n == 0 {
            break;
        }
        done += n;
    }
    Ok(done)
}

fn main(rt: HostRuntime) -> io::Result<()> {
    let mut room = [0; MOST_BYTES];
    let length = read_row(&rt, &mut room)?;
    place(&rt, &room[..length])
}
