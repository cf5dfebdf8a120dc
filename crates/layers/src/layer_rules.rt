// The rules of `from_layers` and `ionset` that need no state: how many points are taken, a point's row
// in a table, and an F1 that is too close to its neighbours.
ghost use Rattle.std.specs.Prelude.{◌≡◌, ◌<◌};
ghost use Rattle.layers.specs.Rules.{count_taken, row_set, too_close};

#[tactic(auto, unfolding(crate::specs::Rules::count_taken))]
pub fn count_taken(n: usize) -> bool
    ensures { result ≡ count_taken n }
{
    (1..=5).contains(&n)
}

// Stays: that k is below 5 is asked, since the table has five rows. A loop over the points gives the number; a type of it would be made
// at each turn and opened for this index.
pub fn set_row(mut table: [f32; 15], k: usize, row: [f32; 3]) -> [f32; 15]
    requires { k < 5 }
    ensures { result ≡ row_set table k row }
{
    table[3 * k..3 * k + 3].copy_from_slice(&row);
    table
}

#[tactic(auto, unfolding(crate::specs::Rules::too_close))]
pub fn too_close(e: f32, f1: f32, f2: f32) -> bool
    ensures { result ≡ too_close e f1 f2 }
{
    f1 - e - 0.2 <= 0.0 || f2 - f1 - 0.2 <= 0.0
}
