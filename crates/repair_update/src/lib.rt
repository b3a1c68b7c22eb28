// The subtrees that a raise of triangle t by x moves: the colour-2 walk of t goes from word to word, and each names a range of a preorder. That of colour 0
// goes with coordinate 1, that of colour 1 with coordinate 0; v0 and v1 are in no subtree and get theirs in the end.
#![tactic(auto)]

ghost use Rattle.std.specs.Prelude.{◌≡◌, ℕ, ◌+◌, ◌-◌, ◌*◌, ◌≤◌, length};
ghost use Rattle.scratch_tables.specs.Tables.{word_at, tables_of, dart_in};
ghost use Rattle.scratch_tables.specs.Fields.{field0};
ghost use Rattle.repair_update.specs.Increase.{More, Small};
ghost use Rattle.repair_update.specs.RangeLoop.{along, RangePre};
ghost use Rattle.repair_update.specs.WalkLoop.{preorder_at, SubtreePre, SubtreeAdded, WalkPre, Walked, UpdatePre, WalkMoved};

use labels_tables::origin;
use repair_words::walk_at;
use scratch_tables::{Column, column_start, field};

// x more in coordinate c of each vertex that stands at the places from a to before `end`
fn add_to_range(coordinates: &mut [i64], scratch: &[i64], a: usize, end: usize, c: usize, x: i64)
    requires { RangePre scratch.now coordinates.old a end c x }
    ensures more { More (along (word_at scratch.now) a (end - a) c) x coordinates.old coordinates.new }
    ensures small { (k : ℕ) → Small k coordinates.old → Small (k + (end - a)) coordinates.new }
{
    // by place and not over the slice: `load` alone reads a word as a number
    for p in a..end {
        let v = scratch_tables::load(scratch, p);
        coordinates[3 * v + c] += x;
    }
}

// where the preorder of the flag f begins
fn preorder_start(scratch: &[i64], f: usize) -> usize
    ensures is { result ≡ preorder_at (length scratch.now) f }
    ensures small { result ≤ length scratch.now }
{
    if f == 1 {
        column_start(scratch, Column::Count)
    } else {
        column_start(scratch, Column::EvenMark)
    }
}

// The subtree that the word w names, if it names one. Both colours go one way, so that nothing is guessed by the flag.
fn add_to_subtree(coordinates: &mut [i64], scratch: &[i64], w: usize, x: i64)
    requires { SubtreePre scratch.now coordinates.old w x }
    ensures { SubtreeAdded scratch.now w x coordinates.old coordinates.new }
{
    let f = field::<3>(w);
    if f == 0 || f > 2 {
        return;
    }
    let a = preorder_start(scratch, f) + field::<1>(w);
    add_to_range(coordinates, scratch, a, a + field::<2>(w), 2 - f, x);
}

// one step of the walk, to the next triangle
fn step(coordinates: &mut [i64], scratch: &[i64], t: usize, x: i64) -> usize
    requires { dart_in (length scratch.now) (3 * t) × SubtreePre scratch.now coordinates.old ((tables_of scratch.now).op (3 * t)) x }
    ensures next { result ≡ field0 ((tables_of scratch.now).op (3 * t)) }
    ensures moved { SubtreeAdded scratch.now ((tables_of scratch.now).op (3 * t)) x coordinates.old
        coordinates.new }
{
    let w = walk_at(scratch, t);
    add_to_subtree(coordinates, scratch, w, x);
    field::<0>(w)
}

// the walk of triangle t, in `steps` steps at most
fn walk(coordinates: &mut [i64], scratch: &[i64], steps: usize, t: usize, x: i64)
    requires { WalkPre scratch.now coordinates.old steps t x }
    ensures { Walked scratch.now steps t x coordinates.old coordinates.new }
{
    let mut at = t;
    for _ in 0..steps {
        if at == 0 {
            return;
        }
        at = step(coordinates, scratch, at, x);
    }
}

// x more in the coordinates of which the weight of triangle t is part, but for coordinate 2
pub fn add_raise(n: usize, coordinates: &mut [i64], scratch: &[i64], t: usize, x: i64)
    requires { UpdatePre n scratch.now coordinates.old t x }
    ensures { WalkMoved n (tables_of scratch.now) t x coordinates.old coordinates.new }
{
    walk(coordinates, scratch, 2 * n - 4, t, x);
    let v0 = origin(scratch, 0);
    coordinates[3 * v0] += x;
    let v1 = origin(scratch, 2);
    coordinates[3 * v1 + 1] += x;
}
