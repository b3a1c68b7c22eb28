// The backward map on a labelled mesh, by the eight cases of document 02, C-13. The directions of a triangle's three sides choose the case. Coordinates
// within the limit leave each case room. Each weight is worked out once, and kept in scratch until their sum is known to be within the limit.
#![tactic(auto)]

ghost use Rattle.std.specs.Prelude.{◌≡◌, false, List, ℕ, ◌+◌, ◌*◌, ◌<◌, ◌≤◌, length, ℤ, nat_abs, ◌-ℤ◌};
ghost use Rattle.definitions.specs.Mesh.{coordinates_length};
ghost use Rattle.definitions.specs.Repair.{limit};
ghost use Rattle.definitions.specs.Backward.{coordinate, backward};
ghost use Rattle.definitions.specs.Directions.{eight_cases};
ghost use Rattle.definitions.specs.Refusals.{row9, row10};
ghost use Rattle.scratch_tables.specs.Tables.{past_darts};
ghost use Rattle.labels_tables.specs.Peeling.{peeling};
ghost use Rattle.labels_tables.specs.LabelledTables.{Labelled};
ghost use Rattle.maps_backward.specs.Weights.{LabelledDrawing, InnerTriangle, runs_to, weight_of};
ghost use Rattle.maps_backward.specs.Buffer.{Buffered};

use maps_limits::{LIMIT, coordinate_at};
use scratch_tables::{Column, column_start};

// The side before dart d runs to the origin of d, where its triangle has label c: the triangle across, that of the next dart round, has the same label
// there. (A rim side counts as running the other way: the outer triangle has no labels.)
fn runs_to(scratch: &[i64], d: usize, c: usize) -> bool
    requires { (n : ℕ) × (ts : List ℕ) × (ls : List ℕ) × Labelled n ts ls scratch.now × (d < length ts) }
    ensures { result ≡ runs_to (peeling scratch.now) d c }
{
    labels_tables::label_of(scratch, labels_tables::turn(scratch, d)) == c
}

// coordinate c of vertex i, less that of vertex j
#[tactic(auto, using(std::proofs::lemmas::Int::ints, maps_limits::specs::Limits::coordinate_parts))]
fn difference(coordinates: &[i64], c: usize, i: usize, j: usize) -> i64
    requires { (3 * i + c < length coordinates.now) × (3 * j + c < length coordinates.now) × (row10 coordinates.now ≡ false) }
    ensures { result ≡ coordinate coordinates.now c i -ℤ coordinate coordinates.now c j }
{
    coordinate_at(coordinates, c, i) - coordinate_at(coordinates, c, j)
}

// N, less coordinate 0 of vertex i, coordinate 1 of vertex j and coordinate 2 of vertex k
#[tactic(auto, using(std::proofs::lemmas::Int::ints, maps_limits::specs::Limits::coordinate_parts))]
fn circle(coordinates: &[i64], total: i64, i: usize, j: usize, k: usize) -> i64
    requires { (3 * i + 2 < length coordinates.now) × (3 * j + 2 < length coordinates.now) × (3 * k + 2 < length coordinates.now)
        × (nat_abs total ≤ limit) × (row10 coordinates.now ≡ false) }
    ensures { result ≡ total -ℤ coordinate coordinates.now 0 i
        -ℤ coordinate coordinates.now 1 j -ℤ coordinate coordinates.now 2 k }
{
    let x = coordinate_at(coordinates, 0, i);
    let y = coordinate_at(coordinates, 1, j);
    let z = coordinate_at(coordinates, 2, k);
    total - x - y - z
}

// The eight cases. The corners with labels 0, 1, 2 are at the vertices p, q, r; pq tells whether the side of p and q runs from p to q, and so on.
#[tactic(auto, using(std::proofs::lemmas::Int::ints), unfolding(definitions::specs::Directions::eight_cases))]
fn eight_cases(
    coordinates: &[i64],
    total: i64,
    p: usize,
    q: usize,
    r: usize,
    pq: bool,
    qr: bool,
    rp: bool,
) -> i64
    requires { (3 * p + 2 < length coordinates.now) × (3 * q + 2 < length coordinates.now) × (3 * r + 2 < length coordinates.now)
        × (nat_abs total ≤ limit) × (row10 coordinates.now ≡ false) }
    ensures { result ≡ eight_cases (coordinate coordinates.now) total p q r pq qr rp }
{
    match (pq, qr, rp) {
        (false, false, false) => circle(coordinates, total, r, p, q),
        (false, false, true) => difference(coordinates, 2, r, q),
        (false, true, false) => difference(coordinates, 1, q, p),
        (false, true, true) => difference(coordinates, 1, q, r),
        (true, false, false) => difference(coordinates, 0, p, r),
        (true, false, true) => difference(coordinates, 2, r, p),
        (true, true, false) => difference(coordinates, 0, p, q),
        (true, true, true) => circle(coordinates, total, q, r, p),
    }
}

// the weight of triangle t: its corners with labels 2, 0 and 1 are those of the darts g, d and e
fn weight_of(coordinates: &[i64], scratch: &[i64], total: i64, t: usize) -> i64
    requires { InnerTriangle coordinates.now scratch.now t × (nat_abs total ≤ limit) × (row10 coordinates.now ≡ false) }
    ensures { result ≡ weight_of coordinates.now (peeling scratch.now) total t }
{
    let g = labels_tables::apex_dart(scratch, t);
    let d = scratch_tables::next_dart(g);
    let e = scratch_tables::prev_dart(g);
    let p = labels_tables::origin(scratch, d);
    let q = labels_tables::origin(scratch, e);
    let r = labels_tables::origin(scratch, g);
    let pq = runs_to(scratch, e, 1);
    let qr = runs_to(scratch, g, 2);
    let rp = runs_to(scratch, d, 0);
    eight_cases(coordinates, total, p, q, r, pq, qr, rp)
}

// 9 on the weights that the coordinates give. They are kept in scratch, past the words of the darts.
pub fn weights_past_limit(n: usize, coordinates: &[i64], scratch: &mut [i64]) -> bool
    requires { ((ts : List ℕ) × (ls : List ℕ) × Labelled n ts ls scratch.old) × (length coordinates.now ≡ coordinates_length n)
        × (row10 coordinates.now ≡ false) }
    ensures past { (ts ls : List ℕ) → LabelledDrawing n ts ls coordinates.now scratch.old →
        result ≡ row9 (backward ts ls coordinates.now) }
    ensures kept { result ≡ false → (ts ls : List ℕ) → LabelledDrawing n ts ls coordinates.now scratch.old →
        Buffered (backward ts ls coordinates.now) scratch.new }
{
    let first = column_start(scratch, Column::Head);
    let total = maps_limits::total_of(coordinates, scratch);
    let mut sum = 0;
    for i in 0..2 * n - 5 {
        let w = weight_of(coordinates, scratch, total, i + 1);
        sum += w.unsigned_abs();
        if sum > LIMIT {
            return true;
        }
        scratch[first + i] = w;
    }
    false
}

// The weights kept in scratch, written. One by one: `copy_from_slice` calls C's memcpy, whose first call takes more stack than a call of ours may.
pub fn write_weights(weights: &mut [i64], scratch: &[i64])
    requires { past_darts (length scratch.now) + length weights.old ≤ length scratch.now }
    ensures { (ws : List ℤ) → Buffered ws scratch.now → length weights.old ≡ length ws → weights.new ≡ ws }
{
    let first = column_start(scratch, Column::Head);
    for i in 0..weights.len() {
        weights[i] = scratch[first + i];
    }
}
