// What is kept of a net while it is read, instead of its list of pins: its leftmost and rightmost cells with the offsets of its pins on
// them, its leftmost and rightmost fixed pins, and its weight (document 01, "Slope changes"). Its span is measured by these alone.
#![tactic(auto)]

ghost use Rattle.std.specs.Prelude.{◌≡◌, [], ℕ, ◌+◌, ◌*◌, ◌≤◌, pos, ◌-ℤ◌};
ghost use Rattle.std.specs.Int.{w32};
ghost use Rattle.std.proofs.Common.{SFits};
ghost use Rattle.numbers.specs.Signed.{above};
ghost use Rattle.rules.specs.Sizes.{widest};
ghost use Rattle.rules.specs.Row.{Net as Listed, fixed, on};
ghost use Rattle.nets.specs.Summary.{drafted, with_pin_of, closed};
ghost use Rattle.nets.specs.Turns.{ends_by, fixed_by};
ghost use Rattle.nets.specs.Span.{low_at, high_at, span_at, Near};

use rules::Weight;

// `left` and `right` are the cells L and R, `onleft` and `onright` the offsets on them; `fl` and `fr` are the fixed pins.
#[derive(Clone, Copy, Default)]
pub struct Net {
    pub weight: Weight,
    pub left: u16,
    pub right: u16,
    pub onleft: u32,
    pub onright: u32,
    pub fl: i32,
    pub fr: i32,
}

// The leftmost and rightmost cells of some pins, and the offsets on them.
#[derive(Clone, Copy, Default)]
pub struct Ends {
    pub left: u16,
    pub right: u16,
    pub onleft: u32,
    pub onright: u32,
}

// The leftmost and rightmost of some fixed pins.
#[derive(Clone, Copy)]
pub struct Fixed {
    pub left: i32,
    pub right: i32,
}

// The net that is being read: what is kept of its pins on cells and of its fixed pins, once it has any.
#[derive(Clone, Copy)]
pub struct Draft {
    pub weight: Weight,
    pub ends: Option<Ends>,
    pub fixed: Option<Fixed>,
}

fn distance(low: i32, high: i32) -> u64
    requires { SFits w32 (high -ℤ low) }
    ensures { result ≡ above (high -ℤ low) }
{
    if high < low {
        return 0;
    }
    (high - low) as u64
}

impl Net {
    // The leftmost pin with L at p, and the rightmost with R at q.
    fn low_end(self, p: u32) -> i32
        requires { p + self.onleft ≤ 2 * widest }
        ensures { result ≡ low_at self p }
    {
        self.fl.min((p + self.onleft) as i32)
    }

    // Not one function with the left end: which side it is would be told by a flag.
    fn high_end(self, q: u32) -> i32
        requires { q + self.onright ≤ 2 * widest }
        ensures { result ≡ high_at self q }
    {
        self.fr.max((q + self.onright) as i32)
    }

    // The net's span with L at p and R at q.
    #[tactic(auto, unfolding(crate::specs::Span::span_at))]
    pub fn span(self, p: u32, q: u32) -> u64
        requires { Near self p q }
        ensures { result ≡ span_at self p q }
    {
        distance(self.low_end(p), self.high_end(q))
    }
}

impl Ends {
    // One pin more. Left of all, or on L itself, it is what counts there: of the pins on a cell the last one does. And so on the right.
    fn with(mut self, cell: u16, offset: u32) -> Self
        ensures { result ≡ ends_by self cell offset }
    {
        if cell <= self.left {
            self.left = cell;
            self.onleft = offset;
        }
        if self.right <= cell {
            self.right = cell;
            self.onright = offset;
        }
        self
    }
}

impl Fixed {
    // One pin more.
    fn with(self, x: i32) -> Self
        ensures { result ≡ fixed_by self x }
    {
        Fixed {
            left: self.left.min(x),
            right: self.right.max(x),
        }
    }
}

impl Draft {
    // A net without pins.
    #[tactic(auto, using(crate::specs::TurnLaws::drafted_none))]
    pub fn new(weight: u32) -> Self
        ensures { result ≡ drafted (record { weight = weight; pins = [] }) }
    {
        Draft {
            weight: Weight(weight),
            ends: None,
            fixed: None,
        }
    }

    // FP: one fixed pin more.
    pub fn with_fixed(mut self, x: i32) -> Self
        ensures { (t : Listed) → self ≡ drafted t → result ≡ drafted (with_pin_of t (fixed x)) }
    {
        self.fixed = Some(match self.fixed {
            Some(fixed) => fixed.with(x),
            None => Fixed { left: x, right: x },
        });
        self
    }

    // MP: one pin on a cell more.
    pub fn with_pin(mut self, cell: u16, offset: u32) -> Self
        ensures { (t : Listed) → self ≡ drafted t → result ≡ drafted (with_pin_of t (on cell offset)) }
    {
        self.ends = Some(match self.ends {
            Some(ends) => ends.with(cell, offset),
            None => Ends {
                left: cell,
                right: cell,
                onleft: offset,
                onright: offset,
            },
        });
        self
    }

    // What is kept of the net once it is read, in a row of this width: without fixed pins it spans from the row's right end to its left.
    pub fn closed(self, width: u32) -> Net
        requires { width ≤ widest }
        ensures { result ≡ closed width self }
    {
        let ends = self.ends.unwrap_or_default();
        let fixed = self.fixed.unwrap_or(Fixed {
            left: width as i32,
            right: 0,
        });
        Net {
            weight: self.weight,
            left: ends.left,
            right: ends.right,
            onleft: ends.onleft,
            onright: ends.onright,
            fl: fixed.left,
            fr: fixed.right,
        }
    }
}
