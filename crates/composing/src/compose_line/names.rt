// The words that begin a line, and the names of fields.
ghost use Rattle.std.specs.Prelude.{◌≡◌, ◌<◌, IfSome};
ghost use Rattle.std.specs.List.{list_any};
ghost use Rattle.composing.specs.Names.{line_kind_of, path_place, point_place, field_place_of, width_of, wanted_of, at_once};

// The kinds of a line.
#[derive(Clone, Copy, Debug, PartialEq, Eq)]
pub enum LineKind {
    Path,
    Point,
    Deciles,
}

#[tactic(auto, using(crate::proofs::compose_line::Spelled::line_kinds), unfolding(crate::specs::Names::line_kind_of))]
pub fn kind(w: &[u8]) -> Option<LineKind>
    ensures { result ≡ line_kind_of w.now }
{
    match w {
        b"path" => Some(LineKind::Path),
        b"point" => Some(LineKind::Point),
        b"deciles" => Some(LineKind::Deciles),
        _ => None,
    }
}

#[tactic(auto, using(crate::proofs::compose_line::Spelled::path_names), unfolding(crate::specs::Names::path_place))]
fn path_place(w: &[u8]) -> Option<usize>
    ensures value { result ≡ path_place w.now }
    ensures below { IfSome result (λ p. p < 15) }
{
    match w {
        b"shape" => Some(0),
        b"gcd" => Some(1),
        b"gcdkm" => Some(2),
        b"amind" => Some(3),
        b"ssn" => Some(4),
        _ => None,
    }
}

#[tactic(auto, using(crate::proofs::compose_line::Spelled::point_names), unfolding(crate::specs::Names::point_place))]
fn point_place(w: &[u8]) -> Option<usize>
    ensures value { result ≡ point_place w.now }
    ensures below { IfSome result (λ p. p < 15) }
{
    match w {
        b"fi" => Some(0),
        b"yi" => Some(3),
        b"hi" => Some(6),
        b"fs" => Some(9),
        b"hs" => Some(12),
        b"clat" => Some(13),
        b"clck" => Some(14),
        _ => None,
    }
}

impl LineKind {
    #[tactic(auto, unfolding(crate::specs::Names::field_place_of))]
    pub fn place(self, w: &[u8]) -> Option<usize>
        ensures value { result ≡ field_place_of self w.now }
        ensures below { IfSome result (λ p. p < 15) }
    {
        match self {
            LineKind::Path => path_place(w),
            LineKind::Point => point_place(w),
            LineKind::Deciles => None,
        }
    }

    #[tactic(auto, unfolding(crate::specs::Names::width_of))]
    pub fn width(self, place: usize) -> usize
        ensures { result ≡ width_of self place }
    {
        match self {
            LineKind::Point => {
                if place < 12 {
                    return 3;
                }
                1
            }
            LineKind::Path | LineKind::Deciles => 1,
        }
    }

    pub fn wanted(self) -> [bool; 15]
        ensures { result ≡ wanted_of self }
    {
        match self {
            LineKind::Path => std::array::from_fn(|i| i < 5),
            LineKind::Point => [true; 15],
            LineKind::Deciles => std::array::from_fn(|i| i < 12),
        }
    }

    #[tactic(auto, unfolding(crate::specs::Names::at_once))]
    pub fn at_once(self) -> usize
        ensures { result ≡ at_once self }
    {
        if self == LineKind::Deciles { 12 } else { 0 }
    }
}

// Whether some number is still to come.
pub fn any(missing: &[bool]) -> bool
    ensures { result ≡ list_any (λ m. m) missing.now }
{
    missing.iter().any(|m| *m)
}
