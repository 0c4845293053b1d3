// The engine: the published steps open, join and settle on lent lists, and a run of them (document 01, "The steps"). All changes of all cells lie
// in one list, cell after cell, each counted from its cell's packed start, and are only read. So a clump's changes are one stretch of them, a
// join moves none of them left, and what may still be asked for of them lies in a heap in the same stretch of the keys.
#![tactic(auto)]

ghost use Rattle.std.specs.Prelude.{◌≡◌, ◌&&◌, ◌+◌, ◌-◌, ◌≤◌, length, get_or, set, eqb, leb};
ghost use Rattle.changes.specs.Columns.{cells_of, edges_of};
ghost use Rattle.changes.specs.Fills.{Outside};
ghost use Rattle.changes.specs.Steps.{JoinedAs};
ghost use Rattle.engine.specs.Laid.{seen};
ghost use Rattle.engine.specs.Stands.{lists_of};
ghost use Rattle.engine.specs.Taken.{first_of_last, stand_of_last, HasLast, with_hand, with_opened, with_joined, with_settled, settled_clump};
ghost use Rattle.engine.specs.Taken.{Makes, MadeAs, Sure, Seeks, FindsAs, meeting_of, Joins, Settles};
ghost use Rattle.engine.specs.Ready.{Unfinished, StepsAs, Resumes, RemadeAs, Counted, RunsAs, ResumesAs};

use changes::{Clump, Kept, Meeting, Stop, made};
use layout::Layout;
use rules::{Carried, Steps};

// The work so far: how many cells are opened; which cell the clump in hand begins with, none being in hand where that is not opened yet; how many
// clumps are settled; what is kept of the changes in hand; and how many changes were carried.
#[derive(Clone, Copy)]
pub struct Bench {
    pub opened: usize,
    pub first: usize,
    pub settled: usize,
    pub hand: Kept,
    pub carried: Carried,
}

// What the clump in hand does next, with what is kept of its changes: it joins the last settled clump, or settles at the cap.
#[derive(Clone, Copy)]
pub enum Next {
    Joins(Kept),
    Settles(Kept),
}

// The settled clumps are the first `settled` of a lent list: fixed memory, and the work goes by value from step to step.
impl Bench {
    // The clump in hand with its changes, up to its right limit, in a heap.
    fn filled(self, row: Layout<'_>, keys: &mut [u32]) -> Self
        requires { Makes self.first self.opened row.width (seen row) keys.old }
        ensures value { result ≡ with_hand self result.hand }
        ensures made_as { MadeAs self.first self.opened row.entry.width (seen row.entry) keys.old keys.new result.hand }
    {
        let base = usize::from(row.places[self.first].bound);
        let after = row.places[self.opened];
        let end = usize::from(after.bound);
        let limit = row.width - after.start;
        Bench {
            hand: made(keys, row.changes, base, end, limit),
            ..self
        }
    }

    // Open: the next cell is in hand as a clump.
    pub fn open(self, row: Layout<'_>, keys: &mut [u32]) -> Self
        requires { Makes self.first (self.opened + 1) row.width (seen row) keys.old }
        ensures value { result ≡ with_opened self result.hand }
        ensures made_as { MadeAs self.first (self.opened + 1) row.entry.width (seen row.entry) keys.old keys.new result.hand }
    {
        let next = Bench {
            opened: self.opened + 1,
            ..self
        };
        next.filled(row, keys)
    }

    // The first cell of the last settled clump, which ends where the clump in hand begins.
    fn first_of_last(self, clumps: &[Clump]) -> usize
        requires { (1 ≤ self.settled) × (self.settled ≤ length clumps.now) × (get_or (cells_of clumps.now) (self.settled - 1) 0 ≤ self.first) }
        ensures { result ≡ first_of_last self (cells_of clumps.now) }
    {
        self.first - usize::from(clumps[self.settled - 1].cells)
    }

    // Where the last settled clump stands, counted from its packed start; 0 if there is none.
    fn stand(self, row: Layout<'_>, clumps: &[Clump]) -> u32
        requires { HasLast self (seen row).starts (cells_of clumps.now) (edges_of clumps.now) }
        ensures { result ≡ stand_of_last self (seen row.entry).starts (cells_of clumps.now) (edges_of clumps.now) }
    {
        if self.settled == 0 {
            return 0;
        }
        clumps[self.settled - 1].edge - row.places[self.first_of_last(clumps)].start
    }

    // Join: the last settled clump and the one in hand are one clump in hand. The changes of the side that has fewer are put into the other's heap.
    pub fn join(self, row: Layout<'_>, clumps: &[Clump], keys: &mut [u32]) -> Self
        requires { Joins self (seen row) (lists_of clumps.now keys.old) }
        ensures value { result ≡ with_joined self (cells_of clumps.now) (seen row.entry).bounds result.hand }
        ensures joined_as { JoinedAs (meeting_of self (seen row.entry) (lists_of clumps.now keys.old)) keys.old keys.new row.entry.changes.now (record { kept = result.hand; carried = result.carried }) }
    {
        let last = clumps[self.settled - 1];
        let first = self.first_of_last(clumps);
        let place = row.places[first];
        let meeting = Meeting {
            first: usize::from(place.bound),
            bound: usize::from(row.places[self.first].bound),
            end: usize::from(row.places[self.opened].bound),
            left: Kept {
                size: usize::from(last.size),
                sum: last.sum,
                cap: last.edge - place.start,
            },
            right: self.hand,
            carried: self.carried,
        };
        let joined = meeting.join(keys, row.changes);
        Bench {
            opened: self.opened,
            first,
            settled: self.settled - 1,
            hand: joined.kept,
            carried: joined.carried,
        }
    }

    // Settle: the clump in hand stands at the cap of what is kept of it, counted from its packed start.
    pub fn settle(self, row: Layout<'_>, clumps: &mut [Clump]) -> Self
        requires { Settles self (seen row).starts clumps.old }
        ensures value { result ≡ with_settled self }
        ensures clumps_after { clumps.new ≡ set clumps.old self.settled (settled_clump self (seen row.entry).starts) }
    {
        clumps[self.settled] = Clump {
            cells: (self.opened - self.first) as u16,
            edge: self.hand.cap + row.places[self.first].start,
            size: self.hand.size as u16,
            sum: self.hand.sum,
        };
        Bench {
            first: self.opened,
            settled: self.settled + 1,
            ..self
        }
    }

    // Nothing in hand, all cells opened.
    pub fn finished(self, cells: usize) -> bool
        ensures { result ≡ (eqb self.first self.opened && leb cells self.opened) }
    {
        self.first == self.opened && cells <= self.opened
    }

    // Sure of its changes: where what is wanted is not reached up to the cap, and the cap is not yet the limit, they are put into a heap again.
    fn sure(self, want: u32, row: Layout<'_>, keys: &mut [u32]) -> Self
        requires { Makes self.first self.opened row.width (seen row) keys.old }
        ensures { Sure self want row.entry.width (seen row.entry) keys.old keys.new result }
    {
        if want <= self.hand.sum || row.width - row.places[self.opened].start <= self.hand.cap {
            return self;
        }
        self.filled(row, keys)
    }

    // What it does next. It joins where the end of the last settled clump exceeds r, and settles otherwise, at the larger of that end and l: a walk down
    // its heap tells, from the cap to where that clump stands, at `last`.
    fn next(
        self,
        want: u32,
        start: u32,
        last: u32,
        limit: u32,
        base: usize,
        keys: &mut [u32],
    ) -> Next
        requires { Seeks self want start last base keys.old }
        ensures outside { Outside keys.old keys.new base (base + self.hand.size) }
        ensures finds_as { FindsAs self want start last limit base keys.old keys.new result }
    {
        if limit < last {
            return Next::Joins(self.hand);
        }
        if self.hand.sum < want {
            return Next::Settles(self.hand);
        }
        match self.hand.descend(keys, base, want, last) {
            Stop::Reached(kept) => Next::Settles(kept),
            Stop::Passed(kept) => {
                if 0 < last + start && want < kept.sum {
                    return Next::Joins(kept);
                }
                Next::Settles(kept)
            }
        }
    }

    // One step. Nothing in hand: open. In hand: join or settle, as its changes tell.
    pub fn step(self, row: Layout<'_>, clumps: &mut [Clump], keys: &mut [u32]) -> Self
        requires { Unfinished row.width (seen row) self (lists_of clumps.old keys.old) }
        ensures { StepsAs row.entry.width (seen row.entry) self (lists_of clumps.old keys.old) result (lists_of clumps.new keys.new) }
    {
        if self.first == self.opened {
            return self.open(row, keys);
        }
        let place = row.places[self.first];
        let after = row.places[self.opened];
        let want = after.need - place.need;
        let last = self.stand(row, clumps);
        let sure = self.sure(want, row, keys);
        let limit = row.width - after.start;
        let base = usize::from(place.bound);
        match sure.next(want, place.start, last, limit, base, keys) {
            Next::Joins(hand) => Bench { hand, ..sure }.join(row, clumps, keys),
            Next::Settles(hand) => Bench { hand, ..sure }.settle(row, clumps),
        }
    }

    // A bench that was loaded: the changes of each of its clumps are put into a heap again. That carries nothing.
    fn remake(self, row: Layout<'_>, clumps: &mut [Clump], keys: &mut [u32]) -> Self
        requires { Resumes row.width (seen row) self (lists_of clumps.old keys.old) }
        ensures { RemadeAs row.entry.width (seen row.entry) self (lists_of clumps.old keys.old) result (lists_of clumps.new keys.new) }
    {
        let mut first = 0;
        for k in 0..self.settled {
            let clump = &mut clumps[k];
            let place = row.places[first];
            let next = first + usize::from(clump.cells);
            let base = usize::from(place.bound);
            let end = usize::from(row.places[next].bound);
            let kept = made(keys, row.changes, base, end, clump.edge - place.start);
            clump.size = kept.size as u16;
            clump.sum = kept.sum;
            first = next;
        }
        if self.first == self.opened {
            return self;
        }
        self.filled(row, keys)
    }
}

// What a run leaves: the bench, and how many steps it took.
#[derive(Clone, Copy)]
pub struct Ran {
    pub bench: Bench,
    pub steps: Steps,
}

// At most `budget` steps, until the bench is finished.
fn run(from: Bench, budget: u32, row: Layout<'_>, clumps: &mut [Clump], keys: &mut [u32]) -> Ran
    requires { Counted row.width (seen row) from (lists_of clumps.old keys.old) }
    ensures { RunsAs budget row.entry.width (seen row.entry) from (lists_of clumps.old keys.old) result (lists_of clumps.new keys.new) }
{
    let mut bench = from;
    let mut steps = 0;
    for _ in 0..budget {
        if bench.finished(row.cells()) {
            break;
        }
        bench = bench.step(row, clumps, keys);
        steps += 1;
    }
    Ran {
        bench,
        steps: Steps(steps),
    }
}

// A bench that was loaded goes on: its clumps' changes are put into heaps again, and at most `budget` steps are taken.
pub fn resume(
    from: Bench,
    budget: u32,
    row: Layout<'_>,
    clumps: &mut [Clump],
    keys: &mut [u32],
) -> Ran
    requires { Resumes row.width (seen row) from (lists_of clumps.old keys.old) }
    ensures { ResumesAs budget row.entry.width (seen row.entry) from (lists_of clumps.old keys.old) result clumps.new }
{
    let made = from.remake(row, clumps, keys);
    run(made, budget, row, clumps, keys)
}
