// The listing of a repaired job: its length is counted first, and it is written only where the buffer has room for all of it.
#![tactic(auto)]

ghost use Rattle.std.specs.Prelude.{◌+◌, ◌*◌, ◌<◌, ◌≤◌, ◌≡◌, [], ◌∷◌, length, pos};
ghost use Rattle.definitions.specs.Backward.{coordinate};
ghost use Rattle.definitions.specs.Job.{listing};
ghost use Rattle.text_model.specs.Writing.{Wrote, head_of, vertex_line, vertex_lines};
ghost use Rattle.text_write_listing.specs.Answer.{Listing};

// Coordinate c of vertex i, and 0 past the end.
pub fn coordinate_of(bs: &[i64], c: usize, i: usize) -> i64
    requires { (c < 3) × (i < 65536) }
    ensures { result ≡ coordinate bs.now c i }
{
    bs.get(3 * i + c).copied().unwrap_or(0)
}

// The numbers of a vertex's line.
fn vertex_numbers(i: usize, bs: &[i64]) -> [i64; 4]
    requires { i < 65536 }
    ensures { result ≡ pos i ∷ coordinate bs.now 0 i ∷ coordinate bs.now 1 i ∷ coordinate bs.now 2 i ∷ [] }
{
    [
        i as i64,
        coordinate_of(bs, 0, i),
        coordinate_of(bs, 1, i),
        coordinate_of(bs, 2, i),
    ]
}

// The numbers of the first line.
fn head_numbers(n: usize, total: i64, raises: usize) -> [i64; 3]
    requires { (n < 65536) × (raises < 65536) }
    ensures { result ≡ pos n ∷ total ∷ pos raises ∷ [] }
{
    [n as i64, total, raises as i64]
}

fn put_vertex(i: usize, bs: &[i64], out: &mut [u8]) -> usize
    requires { (i < 65536) × (length (vertex_line bs.now i) ≤ length out.old) }
    ensures { Wrote (vertex_line bs.now i) out.old out.new result }
{
    let xs = vertex_numbers(i, bs);
    text_format::put_line(b"v", &xs, out)
}

fn vertex_length(i: usize, bs: &[i64]) -> usize
    requires { i < 65536 }
    ensures { (result ≡ length (vertex_line bs.now i)) × (result ≤ 369) }
{
    let xs = vertex_numbers(i, bs);
    text_format::line_length(b"v", &xs)
}

fn put_head(n: usize, total: i64, raises: usize, out: &mut [u8]) -> usize
    requires { (n < 65536) × (raises < 65536) × (length (head_of n total raises) ≤ length out.old) }
    ensures { Wrote (head_of n total raises) out.old out.new result }
{
    let xs = head_numbers(n, total, raises);
    text_format::put_line(&text_parse::PACK_MAP, &xs, out)
}

fn head_length(n: usize, total: i64, raises: usize) -> usize
    requires { (n < 65536) × (raises < 65536) }
    ensures { (result ≡ length (head_of n total raises)) × (result ≤ 369) }
{
    let xs = head_numbers(n, total, raises);
    text_format::line_length(&text_parse::PACK_MAP, &xs)
}

// The lines of the first n vertices, each written into the rest of the buffer after the one before.
fn put_vertices(n: usize, bs: &[i64], out: &mut [u8]) -> usize
    requires { (n < 65536) × (length (vertex_lines bs.now n) ≤ length out.old) }
    ensures { Wrote (vertex_lines bs.now n) out.old out.new result }
{
    let mut at = 0;
    for i in 0..n {
        at += put_vertex(i, bs, &mut out[at..]);
    }
    at
}

fn vertices_length(n: usize, bs: &[i64]) -> usize
    requires { n < 65536 }
    ensures { (result ≡ length (vertex_lines bs.now n)) × (result ≤ 369 * n) }
{
    let mut at = 0;
    for i in 0..n {
        at += vertex_length(i, bs);
    }
    at
}

// How many bytes the listing has.
pub fn listing_length(n: usize, total: i64, raises: usize, bs: &[i64]) -> usize
    requires { (n < 65536) × (raises < 65536) }
    ensures { result ≡ length (listing n total raises bs.now) }
{
    head_length(n, total, raises) + vertices_length(n, bs)
}

fn put_listing(n: usize, total: i64, raises: usize, bs: &[i64], out: &mut [u8]) -> usize
    requires { (n < 65536) × (raises < 65536) × (length (listing n total raises bs.now) ≤ length out.old) }
    ensures { Wrote (listing n total raises bs.now) out.old out.new result }
{
    let a = put_head(n, total, raises, out);
    a + put_vertices(n, bs, &mut out[a..])
}

// The listing at the front of the buffer, and its length; nothing where the buffer is too short, which keeps its contents.
pub fn write_listing(
    n: usize,
    total: i64,
    raises: usize,
    bs: &[i64],
    out: &mut [u8],
) -> Option<usize>
    requires { (n < 65536) × (raises < 65536) }
    ensures { Listing (listing n total raises bs.now) out.old out.new result }
{
    if out.len() < listing_length(n, total, raises, bs) {
        return None;
    }
    Some(put_listing(n, total, raises, bs, out))
}
