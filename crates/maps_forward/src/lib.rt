// The forward map on a peeled mesh, in the lent coordinates alone. Down: vertices leave in their order, and each hands the sums beside it on through
// its fan. Up: in the opposite order each takes b1 from its left neighbour and b0 from its right one. Last, b2 is what is left of N.
#![tactic(auto)]

ghost use Rattle.std.specs.Prelude.{◌≡◌, false, List, ℕ, suc, ◌+◌, ◌-◌, ◌*◌, ◌≤◌, ◌<◌, ◌^◌, length, set, nat_abs, ◌-ℤ◌};
ghost use Rattle.definitions.specs.Mesh.{weights_length, coordinates_length, prev};
ghost use Rattle.definitions.specs.Forward.{forward};
ghost use Rattle.definitions.specs.Backward.{coordinate};
ghost use Rattle.definitions.specs.Repair.{limit};
ghost use Rattle.definitions.specs.Refusals.{row9};
ghost use Rattle.labels_tables.specs.Peeling.{peeling};
ghost use Rattle.labels_tables.specs.LabelledTables.{Peeled};
ghost use Rattle.maps_forward_model.specs.Model.{word_index, copy, add, InnerDart, store_weight, stores, fan_from, accumulate, accumulate_all};
ghost use Rattle.maps_forward_model.specs.Model.{with_corners, propagate, propagate_all};
ghost use Rattle.maps_forward_model.specs.Thirds.{ThirdsPre, ThirdsWritten};
ghost use Rattle.maps_forward_model.specs.RemovalStep.{Room};
ghost use Rattle.maps_forward_model.specs.Propagate.{Ceiling};
ghost use Rattle.maps_forward_model.specs.Result.{Readable, Around};
ghost use Rattle.maps_forward.specs.LoopLaws.{Lent, FanAhead};

use labels_tables::{left_dart, origin, removed_vertex, right_dart};
use scratch_tables::prev_dart;

// coordinate c of vertex i made that of coordinate d of vertex j
#[tactic(auto, unfolding(maps_forward_model::specs::Model::copy))]
fn copy(s: &mut [i64], c: usize, i: usize, d: usize, j: usize)
    requires { (word_index c i < length s.old) × (word_index d j < length s.old) }
    ensures { s.new ≡ copy (word_index c i) (word_index d j) s.old }
{
    s[3 * i + c] = s[3 * j + d];
}

// coordinate d of vertex j added to coordinate c of vertex i
#[tactic(auto, using(std::proofs::lemmas::Int::ints), unfolding(maps_forward_model::specs::Model::add, definitions::specs::Backward::coordinate))]
fn add(s: &mut [i64], c: usize, i: usize, d: usize, j: usize)
    requires { (word_index c i < length s.old) × (word_index d j < length s.old)
        × (nat_abs (coordinate s.old c i) + nat_abs (coordinate s.old d j) < 2 ^ 63) }
    ensures { s.new ≡ add (word_index c i) (word_index d j) s.old }
{
    s[3 * i + c] += s[3 * j + d];
}

// The weight of a fan's dart g, whose previous one is q, stored at the vertex where the new frontier dart starts. Weights stand from triangle 1 on.
fn store_weight(weights: &[i64], coordinates: &mut [i64], scratch: &[i64], g: usize, q: usize)
    requires { ((n : ℕ) × Lent n weights.now coordinates.old scratch.now × InnerDart n g) × (q ≡ prev g) }
    ensures { coordinates.new ≡
        store_weight (peeling scratch.now).origin weights.now g coordinates.old }
{
    let u = origin(scratch, q);
    let w = weights[g / 3 - 1];
    coordinates[3 * u + 1] = w;
}

// all of a fan, from one dart on up to the one whose previous dart is `stop`
fn store_fan(weights: &[i64], coordinates: &mut [i64], scratch: &[i64], stop: usize, from: usize)
    requires { FanAhead weights.now coordinates.old scratch.now stop from }
    ensures { coordinates.new ≡ stores (peeling scratch.now).origin weights.now
        (fan_from (peeling scratch.now) stop (length scratch.now) from) coordinates.old }
{
    let mut g = from;
    let mut q = prev_dart(g);
    while q != stop {
        store_weight(weights, coordinates, scratch, g, q);
        g = labels_tables::turn(scratch, g);
        q = prev_dart(g);
    }
    store_weight(weights, coordinates, scratch, g, q);
}

// a vertex v that leaves keeps the sum on its right, which stands at r, and the weights of its fan are stored
fn keep_and_store(
    weights: &[i64],
    coordinates: &mut [i64],
    scratch: &[i64],
    v: usize,
    left: usize,
    right: usize,
    r: usize,
)
    requires { FanAhead weights.now coordinates.old scratch.now right left × (word_index 0 v < length coordinates.old)
        × (word_index 1 r < length coordinates.old) }
    ensures { coordinates.new ≡ stores (peeling scratch.now).origin weights.now
        (fan_from (peeling scratch.now) right (length scratch.now) left)
        (copy (word_index 0 v) (word_index 1 r) coordinates.old) }
{
    copy(coordinates, 0, v, 1, r);
    store_fan(weights, coordinates, scratch, right, left);
}

// the sums beside a vertex v that leaves, handed on: the one on its left to u, the one on its right to r
fn hand_on(coordinates: &mut [i64], v: usize, u: usize, r: usize)
    requires { (word_index 1 v < length coordinates.old) × (word_index 1 u < length coordinates.old) × (word_index 1 r < length coordinates.old)
        × (nat_abs (coordinate coordinates.old 1 u) + nat_abs (coordinate coordinates.old 1 v) < 2 ^ 63)
        × (nat_abs (coordinate (add (word_index 1 u) (word_index 1 v) coordinates.old) 1 r)
        + nat_abs (coordinate (add (word_index 1 u) (word_index 1 v) coordinates.old) 0 v) < 2 ^ 63) }
    ensures { coordinates.new ≡
        add (word_index 1 r) (word_index 0 v) (add (word_index 1 u) (word_index 1 v) coordinates.old) }
{
    add(coordinates, 1, u, 1, v);
    add(coordinates, 1, r, 0, v);
}

// v leaves: it keeps the sum on its right, the weights of its fan are stored, and the sums beside it go to the first and the last of them
fn accumulate(weights: &[i64], coordinates: &mut [i64], scratch: &[i64], v: usize)
    requires { ((n : ℕ) × Lent n weights.now coordinates.old scratch.now × Around n (length scratch.now) (peeling scratch.now) v)
        × Room (length scratch.now) (peeling scratch.now) weights.now v coordinates.old }
    ensures { coordinates.new ≡
        accumulate (length scratch.now) (peeling scratch.now) weights.now v coordinates.old }
{
    let left = left_dart(scratch, v);
    let right = right_dart(scratch, v);
    let u = origin(scratch, prev_dart(left));
    let r = origin(scratch, right);
    keep_and_store(weights, coordinates, scratch, v, left, right, r);
    hand_on(coordinates, v, u, r);
}

// all vertices leave
#[tactic(auto, unfolding(maps_forward_model::specs::Model::accumulate_all))]
fn accumulate_all(n: usize, weights: &[i64], coordinates: &mut [i64], scratch: &[i64])
    requires { Lent n weights.now coordinates.old scratch.now
        × ((k : ℕ) → k < n - 2 → Around n (length scratch.now) (peeling scratch.now) ((peeling scratch.now).order k))
        × ((k : ℕ) → k < n - 2 → Room (length scratch.now) (peeling scratch.now) weights.now ((peeling scratch.now).order k)
        (accumulate_all (length scratch.now) (peeling scratch.now) weights.now k coordinates.old)) }
    ensures { coordinates.new ≡
        accumulate_all (length scratch.now) (peeling scratch.now) weights.now (n - 2) coordinates.old }
{
    for k in 0..n - 2 {
        let v = removed_vertex(scratch, k);
        accumulate(weights, coordinates, scratch, v);
    }
}

// v0 and v1 at their corners
#[tactic(auto, unfolding(maps_forward_model::specs::Model::with_corners))]
fn place_corners(coordinates: &mut [i64], v0: usize, v1: usize)
    requires { (word_index 1 v0 < length coordinates.old) × (word_index 1 v1 < length coordinates.old) }
    ensures { coordinates.new ≡ with_corners v0 v1 coordinates.old }
{
    coordinates[3 * v0 + 1] = 0;
    coordinates[3 * v1] = 0;
    copy(coordinates, 0, v0, 1, v1);
}

// v comes back: b1 from its left neighbour, b0 from its right one
fn propagate(coordinates: &mut [i64], scratch: &[i64], v: usize)
    requires { ((n : ℕ) × Readable n (length scratch.now) (peeling scratch.now) × (length coordinates.old ≡ coordinates_length n)
        × Around n (length scratch.now) (peeling scratch.now) v) × Ceiling (peeling scratch.now) v coordinates.old }
    ensures { coordinates.new ≡ propagate (peeling scratch.now) v coordinates.old }
{
    let left = left_dart(scratch, v);
    let right = right_dart(scratch, v);
    let l = labels_tables::tip(scratch, left);
    let r = origin(scratch, right);
    add(coordinates, 1, v, 1, l);
    add(coordinates, 0, v, 0, r);
}

// all vertices come back
#[tactic(auto, unfolding(maps_forward_model::specs::Model::propagate_all))]
fn propagate_all(n: usize, coordinates: &mut [i64], scratch: &[i64])
    requires { Readable n (length scratch.now) (peeling scratch.now) × (length coordinates.old ≡ coordinates_length n)
        × ((k : ℕ) → k < n - 2 → Around n (length scratch.now) (peeling scratch.now) ((peeling scratch.now).order k))
        × ((k : ℕ) → k < n - 2 → Ceiling (peeling scratch.now) ((peeling scratch.now).order (n - 2 - suc k))
        (propagate_all (peeling scratch.now) (n - 2) k coordinates.old)) }
    ensures { coordinates.new ≡ propagate_all (peeling scratch.now) (n - 2) (n - 2) coordinates.old }
{
    for k in (0..n - 2).rev() {
        let v = removed_vertex(scratch, k);
        propagate(coordinates, scratch, v);
    }
}

// the third coordinate of vertex v, where the three sum to `total`
#[tactic(auto, using(std::proofs::lemmas::Int::ints), unfolding(definitions::specs::Backward::coordinate))]
fn write_third(coordinates: &mut [i64], total: i64, v: usize)
    requires { (3 * v + 2 < length coordinates.old) × (nat_abs total ≤ limit) × (nat_abs (coordinate coordinates.old 0 v) ≤ limit)
        × (nat_abs (coordinate coordinates.old 1 v) ≤ limit) }
    ensures { coordinates.new ≡
        set coordinates.old (3 * v + 2) (total -ℤ coordinate coordinates.old 0 v -ℤ coordinate coordinates.old 1 v) }
{
    coordinates[3 * v + 2] = total - coordinates[3 * v] - coordinates[3 * v + 1];
}

// The third coordinate of every vertex, from the two others: the three sum to N, which is coordinate 0 of v0.
pub fn write_thirds(n: usize, coordinates: &mut [i64], v0: usize)
    requires { ThirdsPre n v0 coordinates.old }
    ensures { ThirdsWritten n (coordinate coordinates.old 0 v0) coordinates.old coordinates.new }
{
    let total = coordinates[3 * v0];
    for v in 0..n {
        write_third(coordinates, total, v);
    }
}

// The coordinates that the weights give, written. What the lent coordinates hold before does not matter.
pub fn write_coordinates(n: usize, weights: &[i64], coordinates: &mut [i64], scratch: &[i64])
    requires { ((ts : List ℕ) × (ls : List ℕ) × Peeled n ts ls scratch.now) × (length weights.now ≡ weights_length n) × (row9 weights.now ≡ false)
        × (length coordinates.old ≡ coordinates_length n) }
    ensures { (ts ls : List ℕ) → Peeled n ts ls scratch.now → coordinates.new ≡ forward n ts ls weights.now }
{
    scratch_tables::clear(coordinates);
    accumulate_all(n, weights, coordinates, scratch);
    let v0 = origin(scratch, 0);
    let v1 = origin(scratch, 2);
    place_corners(coordinates, v0, v1);
    propagate_all(n, coordinates, scratch);
    write_thirds(n, coordinates, v0);
}
