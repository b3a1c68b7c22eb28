// What scratch holds in the labels stage and after it, read and stored one entry at a time. Nothing outside knows which number of a word an entry is.
#![tactic(auto, using(crate::specs::Peeling::stores), unfolding(crate::specs::Peeling::peeling_of))]

ghost use Rattle.std.specs.Prelude.{◌≡◌, ◌+◌, ◌*◌, ◌≤◌, ◌<◌, ◌^◌, length};
ghost use Rattle.definitions.specs.Mesh.{next, tri};
ghost use Rattle.scratch_tables.specs.Tables.{dart_in, vertex_in, tables_of};
ghost use Rattle.labels_tables.specs.Peeling.{peeling_of, peeling, set_apex, set_vertex, set_degree, set_left, set_right};
ghost use Rattle.labels_tables.specs.LabelledTables.{opposite_in, label_in, apex_dart};

use scratch_tables::{Column, dart_word, field, next_dart, pack, set_op, set_word, word};

// of dart d: the next one round its origin, and its origin
pub fn turn(s: &[i64], d: usize) -> usize
    requires { dart_in (length s.now) d }
    ensures is { result ≡ (peeling s.now).turn d }
    ensures small { result < 65536 }
{
    field::<0>(dart_word(s, d))
}

pub fn origin(s: &[i64], d: usize) -> usize
    requires { dart_in (length s.now) d }
    ensures is { result ≡ (peeling s.now).origin d }
    ensures small { result < 65536 }
{
    field::<1>(dart_word(s, d))
}

// the vertex that dart d leads to
pub fn tip(s: &[i64], d: usize) -> usize
    requires { dart_in (length s.now) (next d) × (d < 2 ^ 63) }
    ensures is { result ≡ (peeling s.now).origin (next d) }
    ensures small { result < 65536 }
{
    origin(s, next_dart(d))
}

// the dart of the opposite side
#[tactic(auto, unfolding(crate::specs::LabelledTables::opposite_in))]
pub fn opposite(s: &[i64], d: usize) -> usize
    requires { dart_in (length s.now) (next d) × (d < 2 ^ 63) }
    ensures is { result ≡ opposite_in (peeling s.now) d }
    ensures small { result < 65536 }
{
    turn(s, next_dart(d))
}

// which corner of triangle t has label 2
pub fn apex(s: &[i64], t: usize) -> usize
    requires { dart_in (length s.now) (3 * t) × (t < 65536) }
    ensures is { result ≡ (peeling s.now).apex t }
    ensures small { result < 65536 }
{
    field::<2>(dart_word(s, 3 * t))
}

// the dart at that corner
#[tactic(auto, unfolding(crate::specs::LabelledTables::apex_dart))]
pub fn apex_dart(s: &[i64], t: usize) -> usize
    requires { dart_in (length s.now) (3 * t) × (t < 65536) }
    ensures { result ≡ apex_dart (peeling s.now) t }
{
    3 * t + apex(s, t)
}

// the label of the dart's corner
#[tactic(auto, unfolding(crate::specs::LabelledTables::label_in, definitions::specs::Mesh::tri))]
pub fn label_of(s: &[i64], d: usize) -> usize
    requires { dart_in (length s.now) (3 * tri d) × (d < 65536) × (3 ≤ d → (peeling s.now).apex (tri d) < 3) }
    ensures is { result ≡ label_in (peeling s.now) d }
    ensures small { result < 4 }
{
    if d < 3 {
        return 3;
    }
    let k = apex(s, d / 3);
    let x = d % 3 + 5 - k;
    if x < 6 { x - 3 } else { x - 6 }
}

// of vertex v: its frontier degree, the frontier dart to its left neighbour and the one from its right neighbour
pub fn degree(s: &[i64], v: usize) -> usize
    requires { vertex_in (length s.now) v }
    ensures is { result ≡ (peeling s.now).degree v }
    ensures small { result < 65536 }
{
    field::<0>(word(s, Column::Head, v))
}

pub fn left_dart(s: &[i64], v: usize) -> usize
    requires { vertex_in (length s.now) v }
    ensures is { result ≡ (peeling s.now).left v }
    ensures small { result < 65536 }
{
    field::<1>(word(s, Column::Head, v))
}

pub fn right_dart(s: &[i64], v: usize) -> usize
    requires { vertex_in (length s.now) v }
    ensures is { result ≡ (peeling s.now).right v }
    ensures small { result < 65536 }
{
    field::<2>(word(s, Column::Head, v))
}

// the k-th removed vertex
pub fn removed_vertex(s: &[i64], k: usize) -> usize
    requires { vertex_in (length s.now) k }
    ensures is { result ≡ (peeling s.now).order k }
    ensures small { result < 2 ^ 63 }
{
    word(s, Column::OddMark, k)
}

// stores
pub fn set_apex(s: &mut [i64], t: usize, k: usize)
    requires { dart_in (length s.old) (3 * t) × (t < 65536) × (k < 65536) }
    ensures { peeling s.new ≡ set_apex t k (peeling s.old) }
{
    let w = dart_word(s, 3 * t);
    set_op(s, 3 * t, pack(field::<0>(w), field::<1>(w), k, 0));
}

pub fn set_vertex(s: &mut [i64], v: usize, degree: usize, left: usize, right: usize)
    requires { vertex_in (length s.old) v × (degree < 65536) × (left < 65536) × (right < 65536) }
    ensures { peeling s.new ≡ set_vertex v degree left right (peeling s.old) }
{
    set_word(s, Column::Head, v, pack(degree, left, right, 0));
}

// One number of a vertex's word. Three functions, as the three that read: by a const parameter for the number's place they would lose their names.
pub fn set_degree(s: &mut [i64], v: usize, x: usize)
    requires { vertex_in (length s.old) v × (x < 65536) }
    ensures { peeling s.new ≡ set_degree v x (peeling s.old) }
{
    let l = left_dart(s, v);
    let r = right_dart(s, v);
    set_vertex(s, v, x, l, r);
}

pub fn set_left(s: &mut [i64], v: usize, x: usize)
    requires { vertex_in (length s.old) v × (x < 65536) }
    ensures { peeling s.new ≡ set_left v x (peeling s.old) }
{
    let k = degree(s, v);
    let r = right_dart(s, v);
    set_vertex(s, v, k, x, r);
}

pub fn set_right(s: &mut [i64], v: usize, x: usize)
    requires { vertex_in (length s.old) v × (x < 65536) }
    ensures { peeling s.new ≡ set_right v x (peeling s.old) }
{
    let k = degree(s, v);
    let l = left_dart(s, v);
    set_vertex(s, v, k, l, x);
}
