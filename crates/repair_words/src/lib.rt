// The words that a raise reads, packed into scratch over the tables of the labels stage: one for each vertex that left, and for each inner triangle one for
// its colour-2 walk, one for its corners and one for its two other walks. Four numbers stand in a word, 16 bits for each of the first three.
// A triangle's words take the place of its darts' words, so those of the vertices are packed first, and those of a triangle are made from its own darts.
#![tactic(auto)]

ghost use Rattle.std.specs.Prelude.{◌≡◌, ◌+◌, ◌-◌, ◌*◌, ◌<◌, ◌^◌, length};
ghost use Rattle.scratch_tables.specs.Tables.{dart_in, vertex_in, tables_of, set_mark};
ghost use Rattle.labels_tables.specs.Peeling.{peeling};
ghost use Rattle.repair_model.specs.PackedWords.{with_rim, end_flags, walk_word, corner_word, removed_word, other_walks_word, Packed, WalksPacked};
ghost use Rattle.repair_words.specs.LoopInvariants.{set_words, PackPre, TrianglesPre, TrianglePre, RemovedPre, TrianglesPacked, RemovedPacked};

use labels_tables::{apex_dart, left_dart, origin, right_dart, tip, turn};
use scratch_tables::{Column, pack, prev_dart, set_op, set_word, word};

// The words of triangle t: where its colour-2 walk goes, its corners, and where its other walks go. They stay three functions:
// `corners_at(scratch, t)` says what it reads, `triangle_word(scratch, t, 1)` would not.
pub fn walk_at(scratch: &[i64], t: usize) -> usize
    requires { dart_in (length scratch.now) (3 * t) }
    ensures is { result ≡ (tables_of scratch.now).op (3 * t) }
    ensures small { result < 2 ^ 63 }
{
    scratch_tables::dart_word(scratch, 3 * t)
}

pub fn corners_at(scratch: &[i64], t: usize) -> usize
    requires { dart_in (length scratch.now) (3 * t + 1) }
    ensures is { result ≡ (tables_of scratch.now).op (3 * t + 1) }
    ensures small { result < 2 ^ 63 }
{
    scratch_tables::dart_word(scratch, 3 * t + 1)
}

pub fn other_walks_at(scratch: &[i64], t: usize) -> usize
    requires { dart_in (length scratch.now) (3 * t + 2) }
    ensures is { result ≡ (tables_of scratch.now).op (3 * t + 2) }
    ensures small { result < 2 ^ 63 }
{
    scratch_tables::dart_word(scratch, 3 * t + 2)
}

// the word of the k-th vertex that left
pub fn removed_at(scratch: &[i64], k: usize) -> usize
    requires { vertex_in (length scratch.now) k }
    ensures is { result ≡ (tables_of scratch.now).mark (2 * k + 1) }
    ensures small { result < 2 ^ 63 }
{
    word(scratch, Column::OddMark, k)
}

// 1 if o, from a to b, is the dart to the left of a; and 2 if it is the dart from the right of b
#[tactic(auto, using(crate::specs::LoopInvariants::bit_is), unfolding(repair_model::specs::PackedWords::end_flags))]
fn end_flags(scratch: &[i64], o: usize, a: usize, b: usize) -> usize
    requires { vertex_in (length scratch.now) a × vertex_in (length scratch.now) b }
    ensures is { result ≡ end_flags (peeling scratch.now) o a b }
    ensures small { result < 4 }
{
    let left = left_dart(scratch, a) == o;
    let right = right_dart(scratch, b) == o;
    usize::from(left) + 2 * usize::from(right)
}

// triangle t, whose darts are in scratch
#[derive(Drop)]
struct Triangle<'a> {
    scratch: &'a [i64],
    t: usize,
    ghost there: { TrianglePre (length scratch.now) (peeling scratch.now) t },
}

#[tactic(auto, using(crate::specs::LoopInvariants::darts_in_room))]
impl<'a> Triangle<'a> {
    // The walk leaves the triangle by the side from its corner with label 0 to the one with label 1, and the dart by which it comes into the next one is the
    // opposite of that, from a to b.
    fn walk_word(&self) -> usize
        ensures is { result ≡ walk_word (peeling self.now.scratch.now) self.now.t }
        ensures small { result < 2 ^ 63 }
    {
        let g = apex_dart(self.scratch, self.t);
        let q = prev_dart(g);
        let o = turn(self.scratch, q);
        let a = origin(self.scratch, q);
        let b = tip(self.scratch, g);
        let f = end_flags(self.scratch, o, a, b);
        pack(o / 3, a, b, f)
    }

    #[tactic(auto, using(crate::specs::LoopInvariants::darts_in_room), unfolding(repair_model::specs::PackedWords::corner_word))]
    fn corner_word(&self) -> usize
        ensures is { result ≡ corner_word (peeling self.now.scratch.now) self.now.t }
        ensures small { result < 2 ^ 63 }
    {
        let g = apex_dart(self.scratch, self.t);
        let p = tip(self.scratch, g);
        let q = origin(self.scratch, prev_dart(g));
        let r = origin(self.scratch, g);
        pack(p, q, r, 0)
    }

    fn other_walks_word(&self) -> usize
        ensures is { result ≡ other_walks_word (peeling self.now.scratch.now) self.now.t }
        ensures small { result < 2 ^ 63 }
    {
        let g = apex_dart(self.scratch, self.t);
        let a = turn(self.scratch, g);
        let b = labels_tables::opposite(self.scratch, g);
        pack(a / 3, b / 3, 0, 0)
    }
}

#[tactic(auto, unfolding(repair_model::specs::PackedWords::removed_word))]
fn removed_word(scratch: &[i64], k: usize) -> usize
    requires { RemovedPre (length scratch.now) (peeling scratch.now) k }
    ensures is { result ≡ removed_word (peeling scratch.now) k }
    ensures small { result < 2 ^ 63 }
{
    let v = labels_tables::removed_vertex(scratch, k);
    let left = tip(scratch, left_dart(scratch, v));
    let right = origin(scratch, right_dart(scratch, v));
    pack(v, left, right, 0)
}

// the word of the k-th vertex that left
fn pack_removed(scratch: &mut [i64], k: usize)
    requires { RemovedPre (length scratch.old) (peeling scratch.old) k }
    ensures { tables_of scratch.new ≡
        set_mark (2 * k + 1) (removed_word (peeling scratch.old) k) (tables_of scratch.old) }
{
    let w = removed_word(scratch, k);
    set_word(scratch, Column::OddMark, k, w);
}

fn pack_all_removed(n: usize, scratch: &mut [i64])
    requires { PackPre n scratch.old }
    ensures { RemovedPacked n (tables_of scratch.old) (tables_of scratch.new) (n - 2) }
{
    for k in 0..n - 2 {
        pack_removed(scratch, k);
    }
}

// the three words of triangle t
#[tactic(auto, unfolding(crate::specs::LoopInvariants::set_words))]
fn pack_triangle(scratch: &mut [i64], t: usize)
    requires { TrianglePre (length scratch.old) (peeling scratch.old) t }
    ensures { tables_of scratch.new ≡ set_words t (tables_of scratch.old) }
{
    let triangle = Triangle { scratch, t };
    let w = triangle.walk_word();
    let c = triangle.corner_word();
    let l = triangle.other_walks_word();
    set_op(scratch, 3 * t, w);
    set_op(scratch, 3 * t + 1, c);
    set_op(scratch, 3 * t + 2, l);
}

fn pack_triangles(n: usize, scratch: &mut [i64])
    requires { TrianglesPre n scratch.old }
    ensures { TrianglesPacked n (tables_of scratch.old) (tables_of scratch.new) (2 * n - 4) }
{
    for t in 1..2 * n - 4 {
        pack_triangle(scratch, t);
    }
}

// v0 and v1, which did not leave, get the outer triangle's dart between them
#[tactic(auto, unfolding(repair_model::specs::PackedWords::with_rim))]
fn set_rim(scratch: &mut [i64])
    requires { dart_in (length scratch.old) 2 × vertex_in (length scratch.old) ((peeling scratch.old).origin 0)
        × vertex_in (length scratch.old) ((peeling scratch.old).origin 2) }
    ensures { peeling scratch.new ≡ with_rim (peeling scratch.old) }
{
    let v0 = origin(scratch, 0);
    let v1 = origin(scratch, 2);
    labels_tables::set_right(scratch, v0, 2);
    labels_tables::set_left(scratch, v1, 2);
}

// all of them
pub fn pack_words(n: usize, scratch: &mut [i64])
    requires { PackPre n scratch.old }
    ensures packed { Packed n (with_rim (peeling scratch.old)) (tables_of scratch.new) }
    ensures walks_packed { WalksPacked n (with_rim (peeling scratch.old)) (tables_of scratch.new) }
{
    set_rim(scratch);
    pack_all_removed(n, scratch);
    pack_triangles(n, scratch);
}
