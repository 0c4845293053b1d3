// Measuring a placement (document 01, "Legal, and how long", and refusal 10): the first cell that overlaps, and the netlength by what is kept
// of each net. A placement is the caller's own 4n bytes, read where they lie.
#![tactic(auto)]

ghost use Rattle.std.specs.Prelude.{◌≡◌, List, ℕ, ◌*◌, ◌≤◌, ◌<◌, length, unwrap_or, IfSome};
ghost use Rattle.rules.specs.Sizes.{most_cells};
ghost use Rattle.rules.specs.Length.{overlap_from};
ghost use Rattle.rules.specs.Calls.{sites_from};
ghost use Rattle.nets.specs.Span.{length_by};
ghost use Rattle.measuring.specs.Measures.{Measurable};

use nets::Net;

// The first cell that starts before its left neighbour's end or ends past W, if there is one.
#[tactic(auto, using(crate::specs::Overlaps::cell_by_cell))]
pub fn first_overlap(widths: &[u32], width: u32, placement: &[u8]) -> Option<usize>
    requires { (length widths.now ≤ most_cells) × (4 * length widths.now ≤ length placement.now) }
    ensures first { unwrap_or result (length widths.now) ≡ overlap_from width 0 0 widths.now (sites_from placement.now 0 (length widths.now)) }
    ensures within { IfSome result (λ i. i < length widths.now) }
{
    let mut end = 0;
    for (i, w) in widths.iter().enumerate() {
        let p = u64::from(numbers::u32_at(placement, 4 * i));
        if p < end {
            return Some(i);
        }
        end = p + u64::from(*w);
        if u64::from(width) < end {
            return Some(i);
        }
    }
    None
}

// The netlength: the sum of weight times span.
#[tactic(auto, using(crate::specs::Lengths::length_next), unfolding(nets::specs::Span::length_by))]
pub fn netlength(nets: &[Net], placement: &[u8]) -> u64
    requires { (ws : List ℕ) × Measurable nets.now ws placement.now }
    ensures { (ws : List ℕ) → Measurable nets.now ws placement.now → result ≡ length_by (sites_from placement.now 0 (length ws)) nets.now }
{
    let mut sum = 0;
    for net in nets {
        let p = numbers::u32_at(placement, 4 * usize::from(net.left));
        let q = numbers::u32_at(placement, 4 * usize::from(net.right));
        sum += u64::from(net.weight.0) * net.span(p, q);
    }
    sum
}
