// What scratch holds in the mesh check, read and stored one entry at a time. Nothing outside knows which number of a word an entry is.
#![tactic(auto, using(crate::specs::Incidence::stores), unfolding(crate::specs::Incidence::incidence_of))]

ghost use Rattle.std.specs.Prelude.{◌≡◌, ◌<◌, ◌^◌, length};
ghost use Rattle.scratch_tables.specs.Tables.{dart_in, vertex_in, tables_of};
ghost use Rattle.mesh_tables.specs.Incidence.{incidence_of, incidence, set_dart, set_turn, set_list, set_mark};

use scratch_tables::{Column, dart_word, field, pack, set_op, set_word, word};

// Each entry has a function of one line that reads it. One function with a const parameter for the place in the word would be no shorter, and would lose
// the entries' names.

// of dart d: the one after it in the list of its origin, or the next one round its origin; and its origin
pub fn turn(s: &[i64], d: usize) -> usize
    requires { dart_in (length s.now) d }
    ensures is { result ≡ (incidence s.now).turn d }
    ensures small { result < 65536 }
{
    field::<0>(dart_word(s, d))
}

pub fn origin(s: &[i64], d: usize) -> usize
    requires { dart_in (length s.now) d }
    ensures is { result ≡ (incidence s.now).origin d }
    ensures small { result < 65536 }
{
    field::<1>(dart_word(s, d))
}

// of vertex v: the first dart that leaves it, and how many do
pub fn first_dart(s: &[i64], v: usize) -> usize
    requires { vertex_in (length s.now) v }
    ensures is { result ≡ (incidence s.now).first v }
    ensures small { result < 65536 }
{
    field::<0>(word(s, Column::Head, v))
}

pub fn dart_number(s: &[i64], v: usize) -> usize
    requires { vertex_in (length s.now) v }
    ensures is { result ≡ (incidence s.now).number v }
    ensures small { result < 65536 }
{
    field::<1>(word(s, Column::Head, v))
}

// the mark at vertex w
pub fn mark(s: &[i64], w: usize) -> usize
    requires { vertex_in (length s.now) w }
    ensures is { result ≡ (incidence s.now).mark w }
    ensures small { result < 2 ^ 63 }
{
    word(s, Column::Count, w)
}

// stores
pub fn set_dart(s: &mut [i64], d: usize, turn: usize, origin: usize)
    requires { dart_in (length s.old) d × (turn < 65536) × (origin < 65536) }
    ensures { incidence s.new ≡ set_dart d turn origin (incidence s.old) }
{
    set_op(s, d, pack(turn, origin, 0, 0));
}

pub fn set_turn(s: &mut [i64], d: usize, x: usize)
    requires { dart_in (length s.old) d × (x < 65536) }
    ensures { incidence s.new ≡ set_turn d x (incidence s.old) }
{
    let w = dart_word(s, d);
    set_op(s, d, pack(x, field::<1>(w), 0, 0));
}

pub fn set_list(s: &mut [i64], v: usize, d: usize, k: usize)
    requires { vertex_in (length s.old) v × (d < 65536) × (k < 65536) }
    ensures { incidence s.new ≡ set_list v d k (incidence s.old) }
{
    set_word(s, Column::Head, v, pack(d, k, 0, 0));
}

pub fn set_mark(s: &mut [i64], w: usize, x: usize)
    requires { vertex_in (length s.old) w × (x < 2 ^ 63) }
    ensures { incidence s.new ≡ set_mark w x (incidence s.old) }
{
    set_word(s, Column::Count, w, x);
}
