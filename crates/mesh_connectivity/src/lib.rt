// Row 8: a walk over the triangles from the outer one. A triangle is entered across one of its sides, by a dart of its own, and left by the two others; a
// flag says that it is reached. Those that wait to be left stand in a queue. Where few do, the walk goes on to one just reached, so that it need not
// wait for the queue's words. As many triangles are left as are reached, so the walk ends too soon just where there are several pieces.
#![tactic(auto)]

ghost use Rattle.std.specs.Prelude.{◌≡◌, ◌*◌, ◌≤◌, length};
ghost use Rattle.definitions.specs.Mesh.{tri};
ghost use Rattle.scratch_tables.specs.Tables.{column, mark_in, tables_of, flags_of, queue_of, Flagged};
ghost use Rattle.mesh_tables.specs.Incidence.{incidence};
ghost use Rattle.mesh_model.specs.FloodFill.{is_new, pop, wide, narrow, onward, leave, begin};
ghost use Rattle.mesh_connectivity.specs.FloodFillLoops.{front, Sided, Going, Leaving, Starting, Space, Unflagging, Moved, Explored, Split};

use mesh_tables::turn;
use scratch_tables::{flag, prev_dart, queue_word, set_flag, set_queue};

// Where the walk is: the dart by which the triangle at hand was entered, and the darts of the queue that wait, from `from` on and before `to`. Once `from`
// is past `to` none is at hand.
#[derive(Clone, Copy)]
pub struct Place {
    pub dart: usize,
    pub from: usize,
    pub to: usize,
}

// A side to leave a triangle by: the dart across it, and whether the triangle of that dart was not reached before.
#[derive(Clone, Copy)]
struct Side {
    dart: usize,
    is_new: bool,
}

// Zeros in the flags of m triangles, one by one: only `set_flag` knows where they stand in scratch, so this is no `fill` of a part of it.
fn clear_flags(s: &mut [i64], m: usize)
    requires { m ≤ 2 * column (length s.old) }
    ensures { Unflagging s.old s.new m }
{
    for t in 0..m {
        set_flag(s, t, 0);
    }
}

// The triangle of a dart is reached.
#[tactic(auto, unfolding(definitions::specs::Mesh::tri, mesh_model::specs::FloodFill::is_new))]
fn visit(s: &mut [i64], dart: usize) -> Side
    requires { mark_in (length s.old) (tri dart) }
    ensures flag { Flagged s.old s.new (tri dart) 1 }
    ensures dart { result.dart ≡ dart }
    ensures new { result.is_new ≡ is_new dart (flags_of s.old) }
{
    let t = dart / 3;
    let is_new = flag(s, t) == 0;
    set_flag(s, t, 1);
    Side { dart, is_new }
}

// the first that waits is at hand
#[tactic(auto, unfolding(mesh_model::specs::FloodFill::pop))]
fn pop(s: &[i64], from: usize, to: usize) -> Place
    requires { mark_in (length s.now) from × (from ≤ to) }
    ensures { front s.now result ≡ pop (flags_of s.now) (queue_of s.now) from to }
{
    Place {
        dart: queue_word(s, from),
        from: from + 1,
        to,
    }
}

// Where many wait: a and b join the queue, if their triangles were new. What is stored past the queue's end does no harm.
#[tactic(auto, using(crate::specs::FloodFillLoops::stays), unfolding(mesh_model::specs::FloodFill::wide))]
fn wide(s: &mut [i64], a: Side, b: Side, place: Place) -> Place
    requires { Space (length s.old) a b place }
    ensures { Moved s.old s.new result
        (wide a.dart b.dart a.is_new b.is_new (flags_of s.old) (queue_of s.old) place.from place.to) }
{
    set_queue(s, place.to, a.dart);
    let t = place.to + usize::from(a.is_new);
    set_queue(s, t, b.dart);
    pop(s, place.from, t + usize::from(b.is_new))
}

// Where few do: the walk goes on by a, or else by b. Where both were new, b waits; where neither was, the first that waits is next.
#[tactic(auto, using(crate::specs::FloodFillLoops::stays), unfolding(mesh_model::specs::FloodFill::narrow))]
fn narrow(s: &mut [i64], a: Side, b: Side, place: Place) -> Place
    requires { Space (length s.old) a b place }
    ensures { Moved s.old s.new result
        (narrow a.dart b.dart a.is_new b.is_new (flags_of s.old) (queue_of s.old) place.from place.to) }
{
    if a.is_new {
        set_queue(s, place.to, b.dart);
        let to = place.to + usize::from(b.is_new);
        return Place {
            dart: a.dart,
            to,
            ..place
        };
    }
    if b.is_new {
        return Place {
            dart: b.dart,
            ..place
        };
    }
    pop(s, place.from, place.to)
}

#[tactic(auto, unfolding(mesh_model::specs::FloodFill::onward))]
fn onward(s: &mut [i64], a: Side, b: Side, place: Place) -> Place
    requires { Space (length s.old) a b place }
    ensures { Moved s.old s.new result
        (onward a.dart b.dart a.is_new b.is_new (flags_of s.old) (queue_of s.old) place.from place.to) }
{
    if 8 < place.to - place.from {
        return wide(s, a, b, place);
    }
    narrow(s, a, b, place)
}

// The triangle at hand is left by the two sides other than the one that it was entered by.
fn leave(s: &mut [i64], place: Place) -> Place
    requires { Leaving (length s.old) (incidence s.old).turn (front s.old place) }
    ensures { Moved s.old s.new result (leave (incidence s.old).turn (front s.old place)) }
{
    let a = turn(s, place.dart);
    let b = turn(s, prev_dart(place.dart));
    let first = visit(s, a);
    let second = visit(s, b);
    onward(s, first, second, place)
}

// The outer triangle is reached, and the one across its dart 0. It stays to be left by its two other sides.
fn begin(s: &mut [i64]) -> Place
    requires { Starting (length s.old) (incidence s.old).turn }
    ensures { Moved s.old s.new result
        (begin (incidence s.old).turn (flags_of s.old) (queue_of s.old)) }
{
    set_flag(s, 0, 1);
    let across = turn(s, 1);
    let first = visit(s, across);
    let outer = Side {
        dart: 0,
        is_new: true,
    };
    let place = Place {
        dart: 0,
        from: 0,
        to: 0,
    };
    narrow(s, first, outer, place)
}

// Before m triangles are left none is at hand.
fn explore(s: &mut [i64], m: usize, start: Place) -> bool
    requires { Going m (length s.old) (incidence s.old).turn 0 (front s.old start) }
    ensures { Explored m s.old s.new start result }
{
    let mut place = start;
    for _ in 0..m {
        if place.to < place.from {
            return true;
        }
        place = leave(s, place);
    }
    false
}

// row 8: one of m triangles is not reached from the outer one
pub fn disconnected(s: &mut [i64], m: usize) -> bool
    requires { Sided m (length s.old) (incidence s.old).turn }
    ensures { Split m s.old s.new result }
{
    clear_flags(s, m);
    let start = begin(s);
    explore(s, m, start)
}
