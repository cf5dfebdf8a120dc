// The numbers that the words of a circuit stand for.
ghost use Rattle.std.specs.Prelude.{◌≡◌, ◌+◌, ◌<◌};
ghost use Rattle.circuit_sheet.specs.Numbers.{three_at, layers_at, params_of, es_of, column_of, shaped_of, path_of};

use layers::{IonoState, LayerParams};

fn three_at(words: &[u32; 75], i: usize, j: usize) -> [f32; 3]
    requires { (i < 5) × (j + 2 < 15) }
    ensures { result ≡ three_at words.now i j }
{
    std::array::from_fn(|n| circuit::point_number(words, i, j + n))
}

fn layers_at(words: &[u32; 75], i: usize) -> LayerParams
    requires { i < 5 }
    ensures { result ≡ layers_at words.now i }
{
    LayerParams {
        fi: three_at(words, i, 0),
        yi: three_at(words, i, 3),
        hi: three_at(words, i, 6),
    }
}

pub fn params(words: &[u32; 75]) -> [LayerParams; 5]
    ensures { result ≡ params_of words.now }
{
    std::array::from_fn(|i| layers_at(words, i))
}

// Of each point Es fs and hs.
pub fn es_rows(words: &[u32; 75]) -> [f32; 20]
    ensures { result ≡ es_of words.now }
{
    std::array::from_fn(|n| circuit::point_number(words, n / 4, 9 + n % 4))
}

// Word j of each point.
pub fn column(words: &[u32; 75], j: usize) -> [f32; 5]
    requires { j < 15 }
    ensures { result ≡ column_of words.now j }
{
    std::array::from_fn(|i| circuit::point_number(words, i, j))
}

pub fn shaped(s: IonoState, shape: usize) -> IonoState
    ensures { result ≡ shaped_of s shape }
{
    if shape == 0 {
        return layers::with_iedp(s, -1);
    }
    layers::with_iedp(s, 0)
}

pub fn path(c: circuit::Circuit) -> layer_mufs::PathNumbers
    ensures { result ≡ path_of c }
{
    layer_mufs::PathNumbers {
        gcd: scalar::number(c.gcd),
        gcdkm: scalar::number(c.gcdkm),
        amind: scalar::number(c.amind),
        ssn: scalar::number(c.ssn),
    }
}
