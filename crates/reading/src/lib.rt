// Reading a whole row where the broker holds it (document 01, "The row as bytes"): one RW, n CE, then the records of m nets, then EN, the
// tail (3) and the widths (6). Of a net only its summary is kept, and put into a lent list when the next NT or EN closes it.
#![tactic(auto)]

ghost use Rattle.std.specs.Prelude.{IfOk, ◌≡◌, List, ℕ, ◌≤◌, min, length, []};
ghost use Rattle.rules.specs.Sizes.{widest, most_cells, most_nets};
ghost use Rattle.rules.specs.Records.{Reading};
ghost use Rattle.rules.specs.Reading.{read_row};
ghost use Rattle.reading.specs.Reads.{closed_by, placed, Roomy, Reads, Fills};
ghost use Rattle.numbers.specs.Bytes.{u16_at};
ghost use Rattle.reading.specs.Cells.{FillsBy};
ghost use Rattle.nets.specs.Summary.{drafted};
ghost use Rattle.reading.specs.Ending.{Closing, EndsBy};

use nets::{Draft, Net};
use records::Progress;
use rules::{Record, Refusal, Refused};

// A row that was read: its width, the widths of its cells, and what is kept of its nets, in the lists that were lent for them.
#[derive(Clone, Copy)]
pub struct Sheet<'a> {
    pub width: u32,
    pub widths: &'a [u32],
    pub nets: &'a [Net],
}

// The width of a row that was read, and how much of the lent lists its cells and its nets take.
#[derive(Clone, Copy)]
struct Extent {
    pub width: u32,
    pub cells: usize,
    pub nets: usize,
}

// What RW and the CE leave: how far the reading has come, the bytes that follow, and the sum of the widths.
#[derive(Clone, Copy)]
struct Cells<'a> {
    pub progress: Progress,
    pub rest: &'a [u8],
    pub sum: u32,
}

// What a reader of one record answered; a refusal with the place of that record.
fn placed<T>(p: Progress, read: Result<T, Refusal>) -> Result<T, Refused>
    ensures { result ≡ placed p.place read }
{
    match read {
        Ok(x) => Ok(x),
        Err(refusal) => Err(Refused {
            refusal,
            place: p.place,
        }),
    }
}

// One RW and n CE.
fn read_cells<'a>(s: &'a [u8], widths: &mut [u32]) -> Result<Cells<'a>, Refused>
    requires { min (u16_at s.now 6) most_cells ≤ length widths.old }
    ensures { FillsBy s.now widths.new result × (length widths.new ≡ length widths.old) }
{
    let mut p = Progress::start();
    let first = placed(p, records::read_first(s))?;
    let r = Record::Rw(first.width, first.cells, first.nets);
    p = p.after(r);
    let mut t = records::rest(s, r);
    let mut sum = 0;
    for k in 0..p.cells {
        let w = placed(p, records::read_cell(t))?;
        widths[k] = w;
        sum += w;
        p = p.after(Record::Ce(w));
        t = records::rest(t, Record::Ce(w));
    }
    Ok(Cells {
        progress: p,
        rest: t,
        sum,
    })
}

// EN, with the tail (3) and the widths (6).
fn ended(sum: u32, p: Progress, t: &[u8]) -> Result<(), Refused>
    requires { (s : List ℕ) × ((c : Reading) × Closing s sum p t.now c) }
    ensures { (s : List ℕ) (c : Reading) → Closing s sum p t.now c → EndsBy s c result }
{
    if records::rest(t, Record::En).len() != 0 {
        return Err(Refused {
            refusal: Refusal::Tail,
            place: p.place + 1,
        });
    }
    if sum > p.width {
        return Err(Refused {
            refusal: Refusal::Full,
            place: p.place,
        });
    }
    Ok(())
}

// A net is closed: what is kept of it goes to its place in the list. Before the first NT there is none.
fn close(p: Progress, draft: Draft, nets: &mut [Net])
    requires { (p.width ≤ widest) × (p.opened ≤ length nets.old) }
    ensures { nets.new ≡ closed_by p draft nets.old }
{
    if 0 < p.opened {
        nets[p.opened - 1] = draft.closed(p.width);
    }
}

// NT: the net before is closed, and one is open.
fn reopen(weight: u32, p: Progress, draft: Draft, nets: &mut [Net]) -> Draft
    requires { (p.width ≤ widest) × (p.opened ≤ length nets.old) }
    ensures { (nets.new ≡ closed_by p draft nets.old) × (result ≡ drafted (record { weight = weight; pins = [] })) }
{
    close(p, draft, nets);
    Draft::new(weight)
}

// RW and the cells, then the records of the nets up to the one that none follows. It hands no list on, and is called and not put in place: so
// `check`, which asks for the numbers alone, need not clear the list of the nets first.
#[inline(never)]
fn fill(s: &[u8], widths: &mut [u32], nets: &mut [Net]) -> Result<Extent, Refused>
    requires { Roomy s.now (length widths.old) (length nets.old) }
    ensures fills { Fills (read_row s.now) widths.new nets.new result }
    ensures within { IfOk result (λ e. (e.cells ≤ length widths.new) × (e.nets ≤ length nets.new)) }
{
    let cells = read_cells(s, widths)?;
    let mut p = cells.progress;
    let widths = &widths[..p.cells];
    let mut t = cells.rest;
    let mut draft = Draft::new(0);
    loop {
        let r = placed(p, records::read_in_nets(p, widths, t))?;
        match r {
            Record::Nt(weight) => draft = reopen(weight, p, draft, nets),
            Record::Fp(x) => draft = draft.with_fixed(x),
            Record::Mp(cell, offset) => draft = draft.with_pin(cell, offset),
            // EN: RW and CE come before the nets.
            _ => {
                close(p, draft, nets);
                ended(cells.sum, p, t)?;
                return Ok(Extent {
                    width: p.width,
                    cells: cells.progress.cells,
                    nets: p.nets,
                });
            }
        }
        p = p.after(r);
        t = records::rest(t, r);
    }
}

// The row that some bytes are, or why they are none.
#[inline(always)]
pub fn read_row<'a>(
    s: &[u8],
    widths: &'a mut [u32],
    nets: &'a mut [Net],
) -> Result<Sheet<'a>, Refused>
    requires { Roomy s.now (length widths.old) (length nets.old) }
    ensures reads { Reads (read_row s.now) result }
    ensures within { IfOk result (λ h. (length h.widths.now ≤ length widths.old) × (length h.nets.now ≤ length nets.old)) }
{
    let extent = fill(s, widths, nets)?;
    Ok(Sheet {
        width: extent.width,
        widths: &widths[..extent.cells],
        nets: &nets[..extent.nets],
    })
}
