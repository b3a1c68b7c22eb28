// The lent scratch as four tables, read and written one word at a time, and up to four numbers in a word. Who reads a word asks that it is there.
// An index stays an argument whose range is asked: a type for it would have to hold the slice as well.
#![tactic(auto)]

ghost use Rattle.std.specs.Prelude.{◌≡◌, map, ◌+◌, ◌*◌, ◌<◌, ◌≤◌, ◌^◌, length, set, pos};
ghost use Rattle.definitions.specs.Mesh.{next, prev};
ghost use Rattle.scratch_tables.specs.Tables.{column_start, entry_of, set_entry, to_natural, word_at};
ghost use Rattle.scratch_tables.specs.Tables.{dart_in, vertex_in, mark_in, tables_of, flags_of, queue_of};
ghost use Rattle.scratch_tables.specs.Fields.{pack, field};
ghost use Rattle.scratch_tables.specs.Tables.{Flagged, Queued, set_op, set_head, set_count, set_mark, Cleared, VerticesCleared};

// The columns past those of the darts, each with a word for every vertex. Document 01 says nothing of them: what they hold is the matter of each stage.
#[derive(Clone, Copy)]
pub enum Column {
    Head,
    Count,
    EvenMark,
    OddMark,
}

// where a column begins
pub fn column_start(s: &[i64], column: Column) -> usize
    ensures is { result ≡ column_start column (length s.now) }
    ensures small { result ≤ length s.now }
{
    let tenth = s.len() / 10;
    match column {
        Column::Head => 6 * tenth,
        Column::Count => 7 * tenth,
        Column::EvenMark => 8 * tenth,
        Column::OddMark => 9 * tenth,
    }
}

// the next and the previous dart of the same triangle
pub fn next_dart(d: usize) -> usize
    requires { d < 2 ^ 63 }
    ensures { result ≡ next d }
{
    if d % 3 == 2 { d - 2 } else { d + 1 }
}

pub fn prev_dart(d: usize) -> usize
    requires { d < 2 ^ 63 }
    ensures { result ≡ prev d }
{
    if d % 3 == 0 { d + 2 } else { d - 1 }
}

// a word of scratch as a natural number
fn to_usize(x: i64) -> usize
    ensures { (result ≡ to_natural x) × (result < 2 ^ 63) }
{
    (x & 0x7fff_ffff_ffff_ffff) as usize
}

pub fn load(s: &[i64], i: usize) -> usize
    requires { i < length s.now }
    ensures { (result ≡ word_at s.now i) × (result < 2 ^ 63) }
{
    to_usize(s[i])
}

fn store(s: &mut [i64], i: usize, x: usize)
    requires { (i < length s.old) × (x < 2 ^ 63) }
    ensures { s.new ≡ set s.old i (pos x) }
{
    s[i] = x as i64;
}

// the number at a place of a word, the first at 0
pub fn field<const PLACE: usize>(w: usize) -> usize
    requires { PLACE < 4 }
    ensures is { result ≡ field PLACE w }
    ensures small { result < 65536 }
{
    (w >> (16 * PLACE)) % 65536
}

// the word of four numbers
pub fn pack(a: usize, b: usize, c: usize, d: usize) -> usize
    requires { (a < 65536) × (b < 65536) × (c < 65536) × (d < 4) }
    ensures is { result ≡ pack a b c d }
    ensures small { result < 2 ^ 63 }
{
    a + 65536 * b + 4_294_967_296 * c + 281_474_976_710_656 * d
}

// the words themselves, of entries that there are
pub fn dart_word(s: &[i64], d: usize) -> usize
    requires { dart_in (length s.now) d }
    ensures is { result ≡ (tables_of s.now).op d }
    ensures small { result < 2 ^ 63 }
{
    load(s, d)
}

// word v of a column of the vertices
pub fn word(s: &[i64], column: Column, v: usize) -> usize
    requires { vertex_in (length s.now) v }
    ensures is { result ≡ entry_of column v (tables_of s.now) }
    ensures small { result < 2 ^ 63 }
{
    load(s, column_start(s, column) + v)
}

pub fn set_word(s: &mut [i64], column: Column, v: usize, x: usize)
    requires { (vertex_in (length s.old) v) × (x < 2 ^ 63) }
    ensures { tables_of s.new ≡ set_entry column v x (tables_of s.old) }
{
    let start = column_start(s, column);
    store(s, start + v, x);
}

// The flags of row 8, in both columns of marks; and further down its queue. They promise different things, so each has functions of its own.
pub fn flag(s: &[i64], t: usize) -> usize
    requires { mark_in (length s.now) t }
    ensures is { result ≡ flags_of s.now t }
    ensures small { result < 2 ^ 63 }
{
    load(s, column_start(s, Column::EvenMark) + t)
}

pub fn set_flag(s: &mut [i64], t: usize, x: usize)
    requires { mark_in (length s.old) t × (x < 2 ^ 63) }
    ensures { Flagged s.old s.new t x }
{
    let start = column_start(s, Column::EvenMark);
    store(s, start + t, x);
}

// the queue of row 8, in the two columns before
pub fn queue_word(s: &[i64], j: usize) -> usize
    requires { mark_in (length s.now) j }
    ensures is { result ≡ queue_of s.now j }
    ensures small { result < 2 ^ 63 }
{
    load(s, column_start(s, Column::Head) + j)
}

pub fn set_queue(s: &mut [i64], j: usize, x: usize)
    requires { mark_in (length s.old) j × (x < 2 ^ 63) }
    ensures { Queued s.old s.new j x }
{
    let start = column_start(s, Column::Head);
    store(s, start + j, x);
}

pub fn set_op(s: &mut [i64], d: usize, x: usize)
    requires { (dart_in (length s.old) d) × (x < 2 ^ 63) }
    ensures { tables_of s.new ≡ set_op d x (tables_of s.old) }
{
    store(s, d, x);
}

// zeros in every word from k on and before e
fn clear_between(s: &mut [i64], k: usize, e: usize)
    requires { (k ≤ e) × (e ≤ length s.old) }
    ensures { Cleared s.old s.new k e }
{
    s[k..e].fill(0);
}

// zeros in every word
pub fn clear(s: &mut [i64])
    ensures { s.new ≡ map (λ _. pos 0) s.old }
{
    clear_between(s, 0, s.len());
}

// zeros in the words of the vertices and in those of their marks
pub fn clear_vertices(s: &mut [i64])
    ensures { VerticesCleared (tables_of s.old) (tables_of s.new) }
{
    let c = s.len() / 10;
    clear_between(s, 6 * c, 8 * c);
}
