// Area numbers, the test for a bad triangle, and its raise, from the coordinates at its corners p, q, r with the labels 0, 1, 2.
// Coordinates 0 and 1 tell all of it. Those within the limit leave each number here room in 64 bits.
#![tactic(auto)]

ghost use Rattle.std.specs.Prelude.{◌≡◌, ◌*◌, ◌+◌, ◌<◌, ◌≤◌, false, nat_abs, ◌+ℤ◌, ◌-ℤ◌, ◌*ℤ◌, pos};
ghost use Rattle.definitions.specs.Backward.{coordinate};
ghost use Rattle.definitions.specs.Repair.{limit, max_z};
ghost use Rattle.definitions.specs.Refusals.{row10};
ghost use Rattle.repair_area.specs.Areas.{CoordinatesIn, bad_of, raise_of};

use maps_limits::coordinate_at;

// coordinates 0 and 1 of a vertex
#[derive(Clone, Copy)]
struct Point {
    x: i64,
    y: i64,
    ghost x_within: { nat_abs x ≤ limit },
    ghost y_within: { nat_abs y ≤ limit },
}

impl Point {
    fn sum(self) -> i64
        ensures is { result ≡ self.x +ℤ self.y }
        ensures small { nat_abs result ≤ 2 * limit }
    {
        self.x + self.y
    }
}

fn point_at(coordinates: &[i64], i: usize) -> Point
    requires { CoordinatesIn coordinates.now i × (row10 coordinates.now ≡ false) }
    ensures x { result.x ≡ coordinate coordinates.now 0 i }
    ensures y { result.y ≡ coordinate coordinates.now 1 i }
{
    Point {
        x: coordinate_at(coordinates, 0, i),
        y: coordinate_at(coordinates, 1, i),
    }
}

fn area(p: Point, q: Point, r: Point) -> i64
    ensures { result ≡ (q.x -ℤ p.x) *ℤ (r.y -ℤ p.y) -ℤ (q.y -ℤ p.y) *ℤ (r.x -ℤ p.x) }
{
    (q.x - p.x) * (r.y - p.y) - (q.y - p.y) * (r.x - p.x)
}

// flat or turned
pub fn bad_at(coordinates: &[i64], p: usize, q: usize, r: usize) -> bool
    requires { CoordinatesIn coordinates.now p × CoordinatesIn coordinates.now q × CoordinatesIn coordinates.now r
        × (row10 coordinates.now ≡ false) }
    ensures { result ≡ bad_of coordinates.now p q r }
{
    let p = point_at(coordinates, p);
    let q = point_at(coordinates, q);
    let r = point_at(coordinates, r);
    area(p, q, r) <= 0
}

// what `own` lacks to the greater of the two others
fn deficit(own: i64, one: i64, other: i64) -> i64
    requires { (nat_abs own ≤ limit) × (nat_abs one ≤ limit) × (nat_abs other ≤ limit) }
    ensures is { result ≡ max_z one other -ℤ own }
    ensures small { nat_abs result ≤ 2 * limit }
{
    one.max(other) - own
}

// by how much the two coordinates together are more at `to`
#[tactic(auto, using(crate::specs::Areas::difference_is))]
fn excess(from: Point, to: Point) -> i64
    ensures is { result ≡ (to.x +ℤ to.y) -ℤ (from.x +ℤ from.y) }
    ensures small { nat_abs result ≤ 4 * limit }
{
    to.sum() - from.sum()
}

// the lack of coordinate 2, which the two others tell
fn last_deficit(p: Point, q: Point, r: Point) -> i64
    ensures is { result ≡ max_z ((r.x +ℤ r.y) -ℤ (p.x +ℤ p.y)) ((r.x +ℤ r.y) -ℤ (q.x +ℤ q.y)) }
    ensures small { nat_abs result ≤ 4 * limit }
{
    excess(p, r).max(excess(q, r))
}

// 1 and the greatest lack: of p in coordinate 0, of q in coordinate 1, of r in coordinate 2
fn raise(p: Point, q: Point, r: Point) -> i64
    ensures is { result ≡ pos 1 +ℤ max_z (max_z q.x r.x -ℤ p.x) (max_z (max_z p.y r.y -ℤ q.y)
        (max_z ((r.x +ℤ r.y) -ℤ (p.x +ℤ p.y)) ((r.x +ℤ r.y) -ℤ (q.x +ℤ q.y)))) }
    ensures small { nat_abs result ≤ 4 * limit + 1 }
{
    let a = deficit(p.x, q.x, r.x);
    let b = deficit(q.y, p.y, r.y);
    1 + a.max(b.max(last_deficit(p, q, r)))
}

pub fn raise_of(coordinates: &[i64], p: usize, q: usize, r: usize) -> i64
    requires { CoordinatesIn coordinates.now p × CoordinatesIn coordinates.now q × CoordinatesIn coordinates.now r
        × (row10 coordinates.now ≡ false) }
    ensures is { result ≡ raise_of coordinates.now p q r }
    ensures small { nat_abs result ≤ 4 * limit + 1 }
{
    let p = point_at(coordinates, p);
    let q = point_at(coordinates, q);
    let r = point_at(coordinates, r);
    raise(p, q, r)
}
