// What a MUF is worked out of: numbers in their domain, lists that reach, and how many Es rows.
ghost use Rattle.std.specs.Prelude.{◌≡◌};
ghost use Rattle.muf.specs.Domain.{within_of, in_domain, lists_reach, taken_rows, row_count_of};

use layer_mufs::PathNumbers;

// Stays: a range's `contains` answers by the library's partial order of floats, and needs a lemma of our own that this is `<=`; two
// comparisons are as short.
fn within(x: f32, top: f32) -> bool
    ensures { result ≡ within_of x top }
{
    0.0 <= x && x <= top
}

// gcdkm 0 to 40,100, gcd 0 to 6.3, amind not above 90.
#[tactic(auto, unfolding(crate::specs::Domain::in_domain))]
pub fn in_domain(c: PathNumbers) -> bool
    ensures { result ≡ in_domain c }
{
    within(c.gcdkm, 40100.0) && within(c.gcd, 6.3) && !(c.amind > 90.0)
}

// Whether the deciles are 576, and clat and clck reach to slot ks; the lists by their lengths.
#[tactic(auto, unfolding(crate::specs::Domain::lists_reach))]
pub fn lists_reach(ks: usize, deciles: usize, lats: usize, clocks: usize) -> bool
    ensures { result ≡ lists_reach ks deciles lats clocks }
{
    deciles == 576 && ks < lats && ks < clocks
}

// The rows that there are, at most km.
pub fn rows_taken(there: usize, km: usize) -> usize
    ensures { result ≡ taken_rows there km }
{
    there.min(km)
}

// The same of flat rows, by how many numbers there are.
pub fn row_count(numbers: usize, km: usize) -> usize
    ensures { result ≡ row_count_of numbers km }
{
    rows_taken(numbers / 4, km)
}
