// The words of a MUF: those it is called with, read as floats, and its answer's: the hour, and the word of an Es row that is
// rewritten.
// Stays: out with from, and out of 54 words, are the words that callers in C lend; the exports test
// their lengths once, before all else.
ghost use Rattle.std.specs.Prelude.{◌≡◌, ◌+◌, ◌≤◌, length};
ghost use Rattle.port_muf.specs.Floats.{floats};
ghost use Rattle.port_muf.specs.HourWords.{ten_into, line_into, head_into, hour_into, WordThere, words_by};

use layers::LayerMuf;
use muf::MufHour;
use muf::lent::Numbers;
use muf::sporadic::Rewrite;

// Lent words, read as floats.
#[derive(Clone, Copy)]
pub struct Words<'a>(pub &'a [u32]);

impl<'a> Numbers for Words<'a> {
    ghost floats = { λ w. floats w.0.now };

    fn count(self) -> usize {
        self.0.len()
    }

    fn number(self, k: usize) -> f32 {
        scalar::number(self.0[k])
    }
}

// All of a line but its hop count, which stands at word 7.
fn ten_into(l: LayerMuf, out: &mut [u32], from: usize)
    requires { from + 11 ≤ length out.old }
    ensures { out.new ≡ ten_into l from out.old }
{
    let x = [l.sigl, l.sigu, l.delmuf, l.hpmuf, l.htmuf, l.fvmuf, l.afmuf];
    let y = [l.yfot, l.ymuf, l.yhpf];
    let deciles = from + 8;
    port_state::floats_into(&x, out, from);
    port_state::floats_into(&y, out, deciles);
}

fn line_into(l: LayerMuf, out: &mut [u32], from: usize)
    requires { from + 11 ≤ length out.old }
    ensures { out.new ≡ line_into l from out.old }
{
    let hops = from + 7;
    let nhopmf = l.nhopmf;
    ten_into(l, out, from);
    out[hops] = port_state::word_of(nhopmf);
}

fn head_into(h: MufHour, out: &mut [u32])
    requires { 10 ≤ length out.old }
    ensures { out.new ≡ head_into h out.old }
{
    let x = [
        h.emuf, h.f1muf, h.f2muf, h.esmuf, h.allmuf, h.fot, h.hpf, h.angmuf,
    ];
    port_state::floats_into(&x, out, 0);
    out[8] = port_state::word_of(h.modmuf);
    out[9] = port_state::count(h.ks);
}

pub fn hour_into(h: MufHour, out: &mut [u32])
    requires { 54 ≤ length out.old }
    ensures { out.new ≡ hour_into h out.old }
{
    head_into(h, out);
    for (k, l) in h.layers.iter().enumerate() {
        line_into(*l, out, 10 + 11 * k);
    }
}

// The row that is rewritten is there.
pub fn es_into(w: Option<Rewrite>, es: &mut [u32])
    requires { WordThere w (length es.old) }
    ensures { es.new ≡ words_by w es.old }
{
    if let Some(w) = w {
        es[4 * w.ksx] = scalar::bits(w.lower);
    }
}
