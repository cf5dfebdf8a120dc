// States as words, so that any language can call the port: a float is its bits, an i32 its two's complement.
// Stays: words `w` of any length are lent, as callers in C have them, so a function asks that a state's words are there, and takes the state `s` beside them; and the place `from`, so that what is written is one equation over the whole list.
#![tactic(auto)]

pub mod line_words;

ghost use Rattle.std.specs.Prelude.{◌≡◌, ℕ, ◌+◌, ◌*◌, ◌≤◌, ◌<◌, length};
ghost use Rattle.port_state.specs.Words.{floats_of, floats_into, signed_of, word_of, count_word};
ghost use Rattle.port_state.specs.State.{state_words, state_of, state_into};
ghost use Rattle.port_state.specs.Owners.{owner_of_word, word_of_owner};
ghost use Rattle.port_state.specs.Ports.{point_of, points_of, five_rows_of};

use layers::{IonoState, LayerParams, Owner};

// How many words a state takes: specs/State.antt says which.
pub const STATE_WORDS: usize = 155;

// The floats of the words from `from` on.
pub fn floats_of(w: &[u32], from: usize, x: &mut [f32])
    requires { from + length x.old ≤ length w.now }
    ensures { x.new ≡ floats_of w.now from (length x.old) }
{
    for (i, v) in x.iter_mut().enumerate() {
        *v = scalar::number(w[from + i]);
    }
}

pub fn floats<const N: usize>(w: &[u32], from: usize) -> [f32; N]
    requires { from + N ≤ length w.now }
    ensures { result ≡ floats_of w.now from N }
{
    std::array::from_fn(|i| scalar::number(w[from + i]))
}

// The floats written into the words from `from` on.
pub fn floats_into(x: &[f32], w: &mut [u32], from: usize)
    requires { from + length x.now ≤ length w.old }
    ensures { w.new ≡ floats_into w.old from x.now }
{
    for (i, v) in x.iter().enumerate() {
        w[from + i] = scalar::bits(*v);
    }
}

#[tactic(auto, using(crate::proofs::Signs::signed_is))]
pub fn signed(w: u32) -> i32
    ensures { result ≡ signed_of w }
{
    w.cast_signed()
}

#[tactic(auto, using(crate::proofs::Signs::word_is, crate::proofs::Signs::read_back))]
pub fn word_of(n: i32) -> u32
    ensures { result ≡ word_of n }
{
    n.cast_unsigned()
}

// A word that is no owner counts as none.
// Stays: an owner is another crate's type, so no `From` can stand here; 0 to 4 are the layout that callers in C have, as below.
#[tactic(auto, unfolding(crate::specs::Owners::owner_of_word))]
fn owner_of_word(w: u32) -> Owner
    ensures { result ≡ owner_of_word w }
{
    match w {
        4 => Owner::Supplied,
        1..=3 => Owner::Slot(w as usize - 1),
        _ => Owner::None,
    }
}

// A slot above 2 has no word.
// Stays: `u32::from` of an owner is 0, 1 or 2, for nobody, a slot, a supplied profile, and leaves the slot's number out; 0 to 4 are an
// owner's words in the layout that callers in C have.
fn owner_word(o: Owner) -> u32
    ensures { result ≡ word_of_owner o }
{
    match o {
        Owner::Slot(k) if k < 3 => k as u32 + 1,
        Owner::None | Owner::Slot(_) => 0,
        Owner::Supplied => 4,
    }
}

// Inlined, so that an export makes its state in its place, with no copy.
#[inline(always)]
#[tactic(auto, unfolding(crate::specs::State::state_of, crate::specs::Words::yes_of))]
pub fn state_of(w: &[u32]) -> IonoState
    requires { state_words ≤ length w.now }
    ensures { result ≡ state_of w.now }
{
    IonoState {
        fi: floats(w, 0),
        yi: floats(w, 15),
        hi: floats(w, 30),
        km: w[45] as usize,
        kfx: w[46] as usize,
        htr: floats(w, 47),
        fnsq: floats(w, 97),
        htr_rises: w[147] != 0,
        fsecv: floats(w, 148),
        iedp: signed(w[151]),
        ielect: w[152] != 0,
        owner: owner_of_word(w[153]),
        exact_virtual_height: w[154] != 0,
    }
}

pub fn count(n: usize) -> u32
    ensures { result ≡ count_word n }
{
    (n % 0x1_0000_0000) as u32
}

#[tactic(auto, unfolding(crate::specs::State::state_into, crate::specs::State::tables_into, crate::specs::State::profile_into, crate::specs::State::counts_into, crate::specs::State::flags_into, crate::specs::State::owner_into, crate::specs::State::exact_into, crate::specs::Words::flag_of))]
pub fn state_into(s: IonoState, w: &mut [u32])
    requires { state_words ≤ length w.old }
    ensures { w.new ≡ state_into s w.old }
{
    floats_into(&s.fi, w, 0);
    floats_into(&s.yi, w, 15);
    floats_into(&s.hi, w, 30);
    floats_into(&s.htr, w, 47);
    floats_into(&s.fnsq, w, 97);
    floats_into(&s.fsecv, w, 148);
    w[45] = count(s.km);
    w[46] = count(s.kfx);
    w[147] = u32::from(s.htr_rises);
    w[151] = word_of(s.iedp);
    w[152] = u32::from(s.ielect);
    w[153] = owner_word(s.owner);
    w[154] = u32::from(s.exact_virtual_height);
}

// The first n of five rows, the rest as `zero`.
// Stays: five places and a count, here and at `points_of`, as `from_layers` and `nommuf` take them. That n is 5 at most is asked,
// since the exports have just tested it, and refuse more by their numbers. And the rows are made and written over, since
// `std::array::from_fn` asks that the array takes fewer than 2^63 bytes, which of any `T` nothing tells.
pub fn five_rows_of<T: Copy, F: Fn(usize) -> T>(n: usize, zero: T, row: F) -> [T; 5]
    requires count { n ≤ 5 }
    requires called { (k : ℕ) → k < n → F.pre row k }
    ensures { (of : ℕ → T) → ((k : ℕ) (r : T) → F.post row k r → r ≡ of k) → result ≡ five_rows_of of zero n }
{
    let mut l = [zero; 5];
    for (k, r) in l[..n].iter_mut().enumerate() {
        *r = row(k);
    }
    l
}

#[tactic(auto, unfolding(crate::specs::Ports::point_of))]
fn point_of(points: &[u32], k: usize) -> LayerParams
    requires { 9 * k + 9 ≤ length points.now }
    ensures { result ≡ point_of points.now k }
{
    let at = 9 * k;
    LayerParams {
        fi: floats(points, at),
        yi: floats(points, at + 3),
        hi: floats(points, at + 6),
    }
}

pub fn points_of(points: &[u32], n: usize) -> [LayerParams; 5]
    requires { (n ≤ 5) × (9 * n ≤ length points.now) }
    ensures { result ≡ points_of points.now n }
{
    let zero = LayerParams {
        fi: [0.0; 3],
        yi: [0.0; 3],
        hi: [0.0; 3],
    };
    five_rows_of(n, zero, |k| point_of(points, k))
}
