// Reading one record of a row where the broker holds it (document 01, "The row as bytes"), and handing back the rest of its bytes.
// Each part of a row has a reader of its own, for the marks that may stand there: RW, then CE, then NT, FP, MP and EN. Each is called at
// one place, so that a record that was read stays in registers. A small struct says how far the reading has come.
#![tactic(auto)]

ghost use Rattle.std.specs.Prelude.{◌≡◌, List, ◌&&◌, ℕ, ◌≤◌, ltb, leb, pos, neg_ℤ, length, get_or, drop};
ghost use Rattle.std.specs.Int.Signed.{le_z};
ghost use Rattle.rules.specs.Sizes.{widest, most_cells, most_nets, heaviest, most_pins};
ghost use Rattle.rules.specs.Records.{Reading, size_of, ranged, marked, record_at, takes};
ghost use Rattle.rules.specs.Reading.{start};
ghost use Rattle.rules.specs.declared.Mark.TheVariants.{NetMark, FixedMark, PinMark, EndMark};
ghost use Rattle.rules.specs.declared.Record.TheVariants.{Rw, Ce, Nt, Fp, Mp};
ghost use Rattle.records.specs.Shows.{Shows};
ghost use Rattle.records.specs.Progress.{Small, progress_after};
ghost use Rattle.records.specs.Parts.{AtCells, AtNets};
ghost use Rattle.records.specs.Recorded.{recorded, row_record, mark_at, whole};

use rules::{Mark, Record, Refusal};

// No fixed pin lies farther from site 0.
const LEFTMOST: i32 = -(rules::WIDEST as i32);

const RIGHTMOST: i32 = rules::WIDEST as i32;

// How far the reading of a row has come, without the lists: the place of the record that comes next, what RW said, and what was read since.
#[derive(Clone, Copy)]
pub struct Progress {
    pub place: u32,
    pub width: u32,
    pub cells: usize,
    pub nets: usize,
    // widths read, nets opened, and FP and MP read
    pub filled: usize,
    pub opened: usize,
    pub pins: usize,
    // the open net has an MP, or no net is open
    pub pinned: bool,
}

// What RW says: the row's width, and how many cells and nets follow.
#[derive(Clone, Copy)]
pub struct First {
    pub width: u32,
    pub cells: u16,
    pub nets: u16,
}

// The mark of the record at the start of these bytes. Fewer than two bytes come before all else (1), then letters that are no mark (2).
fn mark_at(s: &[u8]) -> Result<Mark, Refusal>
    ensures { result ≡ mark_at s.now }
{
    if s.len() < 2 {
        return Err(Refusal::Cut);
    }
    Mark::try_from(numbers::u16_at(s, 0))
}

// The bytes of a whole record: its mark, and its numbers of 4 or 2 bytes.
fn size_of(m: Mark) -> usize
    ensures { result ≡ size_of m }
{
    match m {
        Mark::RowMark => 10,
        Mark::CellMark => 6,
        Mark::NetMark => 6,
        Mark::FixedMark => 6,
        Mark::PinMark => 8,
        Mark::EndMark => 2,
    }
}

// Is the body of a record there (1)?
fn whole(m: Mark, s: &[u8]) -> Result<(), Refusal>
    ensures { result ≡ whole m s.now }
{
    if s.len() < size_of(m) {
        return Err(Refusal::Cut);
    }
    Ok(())
}

impl Progress {
    // Nothing read yet.
    pub fn start() -> Self
        ensures { (ws : List ℕ) → Shows result ws start }
    {
        Progress {
            place: 0,
            width: 0,
            cells: 0,
            nets: 0,
            filled: 0,
            opened: 0,
            pins: 0,
            pinned: true,
        }
    }

    // How far the reading has come after a record; EN leaves it as it is.
    pub fn after(mut self, r: Record) -> Self
        requires { Small self }
        ensures { result ≡ progress_after self r }
    {
        match r {
            Record::Rw(w, n, m) => {
                self.width = w;
                self.cells = usize::from(n);
                self.nets = usize::from(m);
            }
            Record::Ce(_) => self.filled += 1,
            Record::Nt(_) => {
                self.opened += 1;
                self.pinned = false;
            }
            Record::Fp(_) => self.pins += 1,
            Record::Mp(_, _) => {
                self.pins += 1;
                self.pinned = true;
            }
            Record::En => return self,
        }
        self.place += 1;
        self
    }
}

// The numbers of RW against their ranges.
fn row_of(width: u32, cells: u16, nets: u16) -> Result<First, Refusal>
    ensures { recorded row_record result ≡ ranged (leb width widest && (leb cells most_cells && leb nets most_nets)) (Rw width cells nets) }
{
    if width > rules::WIDEST
        || usize::from(cells) > rules::MOST_CELLS
        || usize::from(nets) > rules::MOST_NETS
    {
        return Err(Refusal::Range);
    }
    Ok(First { width, cells, nets })
}

// The width of a cell or the weight of a net: from 1 to the most that there may be.
fn from_one(x: u32, most: u32) -> Result<u32, Refusal>
    ensures { (f : ℕ → Record) → recorded f result ≡ ranged (leb 1 x && leb x most) (f x) }
{
    if !(1..=most).contains(&x) {
        return Err(Refusal::Range);
    }
    Ok(x)
}

// A fixed pin, after the count of pins.
fn fixed_of(x: i32, pins: usize) -> Result<Record, Refusal>
    ensures { result ≡ ranged (ltb pins most_pins && (le_z (neg_ℤ (pos widest)) x && le_z x (pos widest))) (Fp x) }
{
    if pins >= rules::MOST_PINS || !(LEFTMOST..=RIGHTMOST).contains(&x) {
        return Err(Refusal::Range);
    }
    Ok(Record::Fp(x))
}

// A pin on a cell, after the count of pins. The width of the cell is read only where there is such a cell.
fn pin_of(cell: u16, offset: u32, pins: usize, widths: &[u32]) -> Result<Record, Refusal>
    ensures { result ≡ ranged (ltb pins most_pins && (ltb cell (length widths.now) && leb offset (get_or widths.now cell 0))) (Mp cell offset) }
{
    if pins >= rules::MOST_PINS {
        return Err(Refusal::Range);
    }
    let i = usize::from(cell);
    if i >= widths.len() || offset > widths[i] {
        return Err(Refusal::Range);
    }
    Ok(Record::Mp(cell, offset))
}

// The first record of a row: RW. As in every record, fewer than two bytes (1) come before the mark (2), then body short (1), fields (4).
pub fn read_first(s: &[u8]) -> Result<First, Refusal>
    ensures { recorded row_record result ≡ record_at start s.now }
{
    let Mark::RowMark = mark_at(s)? else {
        return Err(Refusal::WrongMark);
    };
    whole(Mark::RowMark, s)?;
    row_of(
        numbers::u32_at(s, 2),
        numbers::u16_at(s, 6),
        numbers::u16_at(s, 8),
    )
}

// A record while the width of a cell is missing: CE, whose width is answered.
pub fn read_cell(s: &[u8]) -> Result<u32, Refusal>
    ensures { (c : Reading) → AtCells c → recorded Ce result ≡ record_at c s.now }
{
    let Mark::CellMark = mark_at(s)? else {
        return Err(Refusal::WrongMark);
    };
    whole(Mark::CellMark, s)?;
    from_one(numbers::u32_at(s, 2), rules::WIDEST)
}

// NT: one net more, after one that has an MP.
fn read_net(p: Progress, s: &[u8]) -> Result<Record, Refusal>
    ensures { (ws : List ℕ) (c : Reading) → Shows p ws c → AtNets c → result ≡ marked c NetMark s.now }
{
    if p.opened >= p.nets {
        return Err(Refusal::WrongMark);
    }
    if !p.pinned {
        return Err(Refusal::Lonely);
    }
    whole(Mark::NetMark, s)?;
    let weight = from_one(numbers::u32_at(s, 2), rules::HEAVIEST)?;
    Ok(Record::Nt(weight))
}

// FP: a fixed pin of the open net.
fn read_fixed(p: Progress, s: &[u8]) -> Result<Record, Refusal>
    ensures { (ws : List ℕ) (c : Reading) → Shows p ws c → result ≡ marked c FixedMark s.now }
{
    if p.opened == 0 {
        return Err(Refusal::WrongMark);
    }
    whole(Mark::FixedMark, s)?;
    fixed_of(numbers::i32_at(s, 2), p.pins)
}

// MP: a pin of the open net on a cell.
fn read_pin(p: Progress, widths: &[u32], s: &[u8]) -> Result<Record, Refusal>
    requires { p.cells ≤ length widths.now }
    ensures { (c : Reading) → Shows p widths.now c → AtNets c → result ≡ marked c PinMark s.now }
{
    if p.opened == 0 {
        return Err(Refusal::WrongMark);
    }
    whole(Mark::PinMark, s)?;
    let widths = &widths[..p.cells];
    pin_of(numbers::u16_at(s, 2), numbers::u32_at(s, 4), p.pins, widths)
}

// EN: all nets are there, and the last one has an MP.
fn read_end(p: Progress) -> Result<Record, Refusal>
    ensures { (ws : List ℕ) (c : Reading) → Shows p ws c → AtNets c → (s : List ℕ) → 2 ≤ length s → result ≡ marked c EndMark s }
{
    if p.opened != p.nets {
        return Err(Refusal::WrongMark);
    }
    if p.pinned {
        Ok(Record::En)
    } else {
        Err(Refusal::Lonely)
    }
}

// A record once all widths are read: of a net, or EN.
pub fn read_in_nets(p: Progress, widths: &[u32], s: &[u8]) -> Result<Record, Refusal>
    requires { p.cells ≤ length widths.now }
    ensures { (c : Reading) → Shows p widths.now c → AtNets c → result ≡ record_at c s.now }
{
    match mark_at(s)? {
        Mark::RowMark | Mark::CellMark => Err(Refusal::WrongMark),
        Mark::NetMark => read_net(p, s),
        Mark::FixedMark => read_fixed(p, s),
        Mark::PinMark => read_pin(p, widths, s),
        Mark::EndMark => read_end(p),
    }
}

// The mark of a record.
fn mark_of(r: Record) -> Mark
    ensures { size_of result ≡ takes r }
{
    match r {
        Record::Rw(_, _, _) => Mark::RowMark,
        Record::Ce(_) => Mark::CellMark,
        Record::Nt(_) => Mark::NetMark,
        Record::Fp(_) => Mark::FixedMark,
        Record::Mp(_, _) => Mark::PinMark,
        Record::En => Mark::EndMark,
    }
}

// The rest of the caller's bytes, after the record at their start.
pub fn rest(s: &[u8], r: Record) -> &[u8]
    requires { takes r ≤ length s.now }
    ensures { result.now ≡ drop (takes r) s.now }
{
    &s[size_of(mark_of(r))..]
}
