// What the calls on weights and coordinates ask of them beyond the mesh: rows 9 to 12 and 29 of the table of refusals.
#![tactic(auto)]

ghost use Rattle.std.specs.Prelude.{◌≡◌, false, not, List, ℕ, ◌+◌, ◌*◌, ◌≤◌, ◌<◌, length, nat_abs, ◌+ℤ◌};
ghost use Rattle.definitions.specs.Mesh.{coordinates_length};
ghost use Rattle.definitions.specs.Backward.{coordinate};
ghost use Rattle.definitions.specs.Repair.{limit};
ghost use Rattle.definitions.specs.Refusals.{eq_z, has_coordinates, row9, row10, row11, row12, row29};
ghost use Rattle.labels_tables.specs.Peeling.{peeling};
ghost use Rattle.labels_tables.specs.LabelledTables.{Labelled};
ghost use Rattle.maps_limits.specs.Limits.{balanced};

// L, the limit on the sum of the weights' absolute values and on each coordinate
pub const LIMIT: u64 = 1_073_741_823;

// 9: the weights' absolute values sum past the limit
pub fn past_limit(weights: &[i64]) -> bool
    ensures { result ≡ row9 weights.now }
{
    let mut sum = 0;
    for &w in weights {
        sum += w.unsigned_abs();
        if sum > LIMIT {
            return true;
        }
    }
    false
}

// 29: a low above its high
pub fn low_above_high(lows: &[i64], highs: &[i64]) -> bool
    requires { length lows.now ≡ length highs.now }
    ensures { result ≡ row29 lows.now highs.now }
{
    lows.iter().zip(highs).any(|(&low, &high)| high < low)
}

// 10: a coordinate beyond the limit, on either side of 0
pub fn out_of_range(coordinates: &[i64]) -> bool
    ensures { result ≡ row10 coordinates.now }
{
    coordinates.iter().any(|&b| b.unsigned_abs() > LIMIT)
}

// coordinate c of vertex i, which there is
#[tactic(auto, unfolding(definitions::specs::Backward::coordinate))]
pub fn coordinate_at(coordinates: &[i64], c: usize, i: usize) -> i64
    requires { 3 * i + c < length coordinates.now }
    ensures { result ≡ coordinate coordinates.now c i }
{
    coordinates[3 * i + c]
}

// vertex i is at (x, y, z)
#[tactic(auto, using(crate::specs::Limits::same_bits), unfolding(definitions::specs::Refusals::has_coordinates))]
fn has_coordinates(coordinates: &[i64], i: usize, x: i64, y: i64, z: i64) -> bool
    requires { 3 * i + 2 < length coordinates.now }
    ensures { result ≡ has_coordinates coordinates.now i x y z }
{
    coordinate_at(coordinates, 0, i) == x
        && coordinate_at(coordinates, 1, i) == y
        && coordinate_at(coordinates, 2, i) == z
}

// 11: an outer vertex off its corner. What it asks of scratch stays a clause: the promise speaks of the same triangles and labels, so a type would save
// nothing.
pub fn off_corner(coordinates: &[i64], scratch: &[i64]) -> bool
    requires { (n : ℕ) × (ts : List ℕ) × (ls : List ℕ) × Labelled n ts ls scratch.now × (length coordinates.now ≡ coordinates_length n) }
    ensures { (n : ℕ) (ts ls : List ℕ) → Labelled n ts ls scratch.now → result ≡ row11 ts coordinates.now }
{
    let v0 = labels_tables::origin(scratch, 0);
    let v1 = labels_tables::origin(scratch, 2);
    let v2 = labels_tables::origin(scratch, 1);
    let total = coordinate_at(coordinates, 0, v0);
    !(has_coordinates(coordinates, v0, total, 0, 0)
        && has_coordinates(coordinates, v1, 0, total, 0)
        && has_coordinates(coordinates, v2, 0, 0, total))
}

// the sum of a vertex's coordinates
#[tactic(auto, using(std::proofs::lemmas::Int::ints, crate::specs::Limits::coordinate_parts))]
fn sum_of(coordinates: &[i64], i: usize) -> i64
    requires { (3 * i + 2 < length coordinates.now) × (row10 coordinates.now ≡ false) }
    ensures { result ≡ coordinate coordinates.now 0 i +ℤ coordinate coordinates.now 1 i +ℤ coordinate coordinates.now 2 i }
{
    let x = coordinate_at(coordinates, 0, i);
    let y = coordinate_at(coordinates, 1, i);
    let z = coordinate_at(coordinates, 2, i);
    x + y + z
}

// the coordinates of vertex i do not sum to `total`
#[tactic(auto, using(crate::specs::Limits::same_bits), unfolding(crate::specs::Limits::balanced))]
fn unbalanced(coordinates: &[i64], total: i64, i: usize) -> bool
    requires { (3 * i + 2 < length coordinates.now) × (row10 coordinates.now ≡ false) }
    ensures { result ≡ not (balanced coordinates.now total i) }
{
    sum_of(coordinates, i) != total
}

// b0 of v0, which is N where row 11 finds nothing
#[tactic(auto, using(std::proofs::lemmas::Int::ints, crate::specs::Limits::coordinate_parts))]
pub fn total_of(coordinates: &[i64], scratch: &[i64]) -> i64
    requires { ((n : ℕ) × (ts : List ℕ) × (ls : List ℕ) × Labelled n ts ls scratch.now × (length coordinates.now ≡ coordinates_length n))
        × (row10 coordinates.now ≡ false) }
    ensures is { result ≡ coordinate coordinates.now 0 ((peeling scratch.now).origin 0) }
    ensures small { nat_abs result ≤ limit }
{
    coordinate_at(coordinates, 0, labels_tables::origin(scratch, 0))
}

// 12: a vertex's sum is not b0 of v0
pub fn off_sum(n: usize, coordinates: &[i64], scratch: &[i64]) -> bool
    requires { ((ts : List ℕ) × (ls : List ℕ) × Labelled n ts ls scratch.now) × (length coordinates.now ≡ coordinates_length n)
        × (row10 coordinates.now ≡ false) }
    ensures { (ts ls : List ℕ) → Labelled n ts ls scratch.now → result ≡ row12 n ts coordinates.now }
{
    let total = total_of(coordinates, scratch);
    (0..n).any(|i| unbalanced(coordinates, total, i))
}
