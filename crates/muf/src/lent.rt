// Numbers that a caller lends.
ghost use Rattle.std.specs.Prelude.{◌≡◌, ◌<◌, List, Float, length};
ghost use Rattle.scalar.specs.F32.{at};

// Floats, or what is read as floats, one at a time.
pub trait Numbers: Copy {
    ghost floats: { Self → List Float };

    fn count(self) -> usize
        ensures { result ≡ length (floats self) };

    fn number(self, k: usize) -> f32
        requires { k < length (floats self) }
        ensures { result ≡ at (floats self) k };
}

impl Numbers for &[f32] {
    ghost floats = { λ x. x.now };

    fn count(self) -> usize {
        self.len()
    }

    fn number(self, k: usize) -> f32 {
        self[k]
    }
}
