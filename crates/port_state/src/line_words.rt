// The four layer lines read from words.
ghost use Rattle.std.specs.Prelude.{◌≡◌, ◌+◌, ◌≤◌, length};
ghost use Rattle.port_state.specs.Lines.{line_of_words, lines_of_words};

use layers::LayerMuf;

// Stays: words and a place in them, as callers in C lend the four lines.
fn line_of(w: &[u32], i: usize) -> LayerMuf
    requires { i + 11 ≤ length w.now }
    ensures { result ≡ line_of_words w.now i }
{
    LayerMuf {
        sigl: scalar::number(w[i]),
        sigu: scalar::number(w[i + 1]),
        delmuf: scalar::number(w[i + 2]),
        hpmuf: scalar::number(w[i + 3]),
        htmuf: scalar::number(w[i + 4]),
        fvmuf: scalar::number(w[i + 5]),
        afmuf: scalar::number(w[i + 6]),
        nhopmf: crate::signed(w[i + 7]),
        yfot: scalar::number(w[i + 8]),
        ymuf: scalar::number(w[i + 9]),
        yhpf: scalar::number(w[i + 10]),
    }
}

pub fn lines_of(w: &[u32]) -> [LayerMuf; 4]
    requires { 44 ≤ length w.now }
    ensures { result ≡ lines_of_words w.now }
{
    std::array::from_fn(|k| line_of(w, 11 * k))
}
