// The slot that controls a MUF hour.
ghost use Rattle.std.specs.Prelude.{◌≡◌, ◌<◌};
ghost use Rattle.layer_mufs.specs.Controlling.{compare_e, controlling_of};

use layers::IonoState;

// Slot 0 where its E layer is not above that of slot kr.
fn compare_e(s: IonoState, kr: usize) -> usize
    requires { kr < 3 }
    ensures { result ≡ compare_e s kr }
{
    let e = 3 * kr;
    if s.fi[0] - s.fi[e] <= 0.0 {
        return 0;
    }
    kr
}

// The transmitter's slot, 0, or the receiver's, the last: the one with the lower F2, or with the
// lower E where F2 does not tell them apart.
pub fn controlling(s: IonoState) -> usize
    ensures { result ≡ controlling_of s }
{
    let kfx = s.kfx;
    if kfx <= 1 {
        return 0;
    }
    if kfx == 2 {
        return compare_e(s, 1);
    }
    if scalar::abs(s.fi[2] - s.fi[8]) - 0.01 <= 0.0 {
        return compare_e(s, 2);
    }
    if s.fi[2] - s.fi[8] < 0.0 {
        return 0;
    }
    2
}
