// Rows 3 to 6 of the table of refusals. Sides are matched through the lists of darts by origin: the darts that leave a vertex leave their marks at
// the vertices that they lead to, and then each of them finds where the dart before it comes from the opposite of that one. Each dart is met a fixed
// number of times. The triangles are read until the lists are filled; from there on origins stand in scratch.
#![tactic(auto)]

ghost use Rattle.std.specs.Prelude.{◌≡◌, ◌+◌, ◌*◌, ◌≤◌, ◌<◌, length};
ghost use Rattle.definitions.specs.Mesh.{next, prev, org, row3, fronted};
ghost use Rattle.mesh_tables.specs.Incidence.{incidence};
ghost use Rattle.mesh_model.specs.IncidenceLists.{put_first};
ghost use Rattle.mesh_sides.specs.Room.{Pushing, PushingAt, Fillable, Filling, Beside, AtVertex, Ready};
ghost use Rattle.mesh_sides.specs.LoopInvariants.{ThreePushed, FilledTo, AllFilled, Left, Marked, Scanned, Met, Tied, AllMatched};

use mesh_answer::Refusal;
use mesh_rings::has_ring;
use mesh_tables::{
    dart_number, first_dart, mark, origin, set_dart, set_list, set_mark, set_turn, turn,
};
use scratch_tables::{next_dart, prev_dart};

// the vertex at corner d
#[tactic(auto, unfolding(definitions::specs::Mesh::org))]
fn corner(triangles: &[u16], d: usize) -> usize
    requires { d < length triangles.now }
    ensures is { result ≡ org triangles.now d }
    ensures small { result < 65536 }
{
    usize::from(triangles[d])
}

// Row 3: a vertex number n or more. The highest of all is found first, without a test at each of them.
pub fn high_vertex(n: usize, triangles: &[u16]) -> bool
    requires { 0 < n }
    ensures { result ≡ row3 triangles.now n }
{
    let mut highest: u16 = 0;
    for &v in triangles {
        highest = highest.max(v);
    }
    n <= usize::from(highest)
}

// Dart d goes to the front of the list of v, its origin.
fn push_dart(s: &mut [i64], d: usize, v: usize)
    requires { Pushing s.old d v }
    ensures { incidence s.new ≡ put_first d v (incidence s.old) }
{
    let first = first_dart(s, v);
    let number = dart_number(s, v);
    set_dart(s, d, first, v);
    set_list(s, v, d, number + 1);
}

// The darts of the triangle that stands at `place`, from d on, go to the front of their origins' lists, unless a vertex is twice in it: then the answer
// is true.
fn push_triangle(triangles: &[u16], s: &mut [i64], place: usize, d: usize) -> bool
    requires { PushingAt triangles.now s.old place d }
    ensures { (P : PushingAt triangles.now s.old place d) →
        ThreePushed (fronted P.outer_place triangles.now) s.old s.new d result }
{
    let a = corner(triangles, place);
    let b = corner(triangles, place + 1);
    let c = corner(triangles, place + 2);
    if a == b || b == c || c == a {
        return true;
    }
    push_dart(s, d + 2, c);
    push_dart(s, d + 1, b);
    push_dart(s, d, a);
    false
}

// The triangles from number `low` on and before `high`, the last one first: some behind the outer one, which keep their places, or some before it, which
// have each moved by one.
fn fill_between(outer: usize, triangles: &[u16], s: &mut [i64], low: usize, high: usize) -> bool
    requires { Fillable outer triangles.now s.old low high }
    ensures { FilledTo (fronted outer triangles.now) s.old s.new (3 * high) (3 * low) result }
{
    let moved = usize::from(low <= outer);
    for t in (low..high).rev() {
        if push_triangle(triangles, s, 3 * (t - moved), 3 * t) {
            return true;
        }
    }
    false
}

// Row 4, a vertex twice in a triangle; or the lists of darts by origin, each in the order of the darts. The darts are those of the mesh with its outer
// triangle in front: from here on nothing knows of another order.
pub fn fill_incidence_lists(outer: usize, triangles: &[u16], s: &mut [i64]) -> bool
    requires { (3 * outer + 3 ≤ length triangles.now) × Filling (fronted outer triangles.now) s.old }
    ensures { AllFilled (fronted outer triangles.now) s.old s.new result }
{
    if fill_between(outer, triangles, s, outer + 1, triangles.len() / 3) {
        return true;
    }
    if fill_between(outer, triangles, s, 1, outer + 1) {
        return true;
    }
    push_triangle(triangles, s, 3 * outer, 0)
}

// Dart e, which leaves v, leaves its mark where it leads; true, where a mark of v is there already.
fn mark_neighbour(s: &mut [i64], v: usize, e: usize) -> bool
    requires { Beside s.old v e (next e) }
    ensures { Left s.old s.new v e result }
{
    let w = origin(s, next_dart(e));
    let m = mark(s, w);
    if m / 65536 == v + 1 {
        return true;
    }
    set_mark(s, w, 65536 * (v + 1) + e);
    false
}

// The darts that leave v leave their marks; true, where a side is there twice.
fn mark_outgoing(s: &mut [i64], v: usize) -> bool
    requires { AtVertex s.old v }
    ensures { Marked s.old s.new v result }
{
    let k = dart_number(s, v);
    let mut e = first_dart(s, v);
    for _ in 0..k {
        if mark_neighbour(s, v, e) {
            return true;
        }
        e = turn(s, e);
    }
    false
}

// A side of a vertex u or later is there twice.
fn duplicate_side(n: usize, s: &mut [i64], u: usize) -> bool
    requires { Ready n s.old }
    ensures { Scanned u n s.old s.new result }
{
    for v in u..n {
        if mark_outgoing(s, v) {
            return true;
        }
    }
    false
}

// Dart e, which leaves v, finds the mark of its turn where the dart before it comes from, and stores it in place of its link; false, where there is none.
fn match_dart(s: &mut [i64], v: usize, e: usize) -> bool
    requires { Beside s.old v e (prev e) }
    ensures { Met s.old s.new v e result }
{
    let d = prev_dart(e);
    let w = origin(s, d);
    let m = mark(s, w);
    if m / 65536 == v + 1 {
        set_turn(s, e, m % 65536);
        return true;
    }
    false
}

// The darts that leave v find their turns; true, where an opposite is lacking.
fn match_incoming(s: &mut [i64], v: usize) -> bool
    requires { AtVertex s.old v }
    ensures { Tied s.old s.new v result }
{
    let k = dart_number(s, v);
    let mut e = first_dart(s, v);
    for _ in 0..k {
        let link = turn(s, e);
        if !match_dart(s, v, e) {
            return true;
        }
        e = link;
    }
    false
}

// Row 5, a side twice, or row 6, a side lacks its opposite; or the turns are stored, and the answer says whether each vertex has one ring. The ring of a
// vertex is walked right after its darts have found their turns. Where an opposite is lacking the search for a side twice goes on alone.
pub fn match_sides(n: usize, s: &mut [i64]) -> Result<bool, Refusal>
    requires { Ready n s.old }
    ensures { AllMatched n s.old s.new result }
{
    let mut rings = true;
    for v in 0..n {
        if mark_outgoing(s, v) {
            return Err(Refusal::RepeatedSide);
        }
        if match_incoming(s, v) {
            if duplicate_side(n, s, v + 1) {
                return Err(Refusal::RepeatedSide);
            }
            return Err(Refusal::UnpairedSide);
        }
        // `rings &= has_ring(s, v)` was tried: the walk round a vertex was slower.
        if !has_ring(s, v) {
            rings = false;
        }
    }
    Ok(rings)
}
