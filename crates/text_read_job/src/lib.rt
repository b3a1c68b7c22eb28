// A job text read into lent slices: the first line, the triangles, the weights, and nothing after them.
#![tactic(auto)]

ghost use Rattle.std.specs.Prelude.{◌+◌, ◌*◌, ◌-◌, ◌<◌, ◌≤◌, ◌≡◌, length, take};
ghost use Rattle.definitions.specs.Mesh.{triangles_length, weights_length};
ghost use Rattle.definitions.specs.Job.{triangle_line, weight_line, read_lines, read_job, most_text_vertices};
ghost use Rattle.text_model.specs.Reading.{flat};
ghost use Rattle.text_read_job.specs.Answer.{left, lines_of, answer_of, Sized};
ghost use Rattle.text_read_job.specs.Parts.{Ends, Comes};

use text_reader::Reader;

// the most bytes of a text, and the most vertices of a mesh in a text
pub const MOST_BYTES: usize = 16_384;

pub const MOST_VERTICES: usize = 256;

// Why a text gives no job: it is too long, its n is refused, or this line breaks the layout.
#[derive(Clone, Copy, Debug, PartialEq, Eq)]
pub enum ReadError {
    TooLong,
    Size,
    Line(usize),
}

// `count` lines of triangles, from line 2; or the line that breaks the layout.
fn read_triangles<'a>(
    start: Reader<'a>,
    count: usize,
    triangles: &mut [u16],
) -> Result<Reader<'a>, usize>
    requires { 3 * count ≤ length triangles.old }
    ensures { lines_of result (take (3 * count) triangles.new) ≡ flat (read_lines triangle_line count 2 (left start.entry)) }
{
    let mut reader = start;
    for i in 0..count {
        let corners = text_parse::triangle_at(reader.rest()).ok_or(2 + i)?;
        triangles[3 * i..3 * (i + 1)].copy_from_slice(&corners);
        reader = reader.next_line();
    }
    Ok(reader)
}

// `count` lines of weights, from line `first`; or the line that breaks the layout. No one function with `read_triangles`: the layout, the store and the first
// line differ, and one line is left in common.
fn read_weights<'a>(
    start: Reader<'a>,
    count: usize,
    first: usize,
    weights: &mut [i64],
) -> Result<Reader<'a>, usize>
    requires { (count ≤ length weights.old) × (first < 65536) }
    ensures { lines_of result (take count weights.new) ≡ read_lines weight_line count first (left start.entry) }
{
    let mut reader = start;
    for i in 0..count {
        weights[i] = text_parse::weight_at(reader.rest()).ok_or(first + i)?;
        reader = reader.next_line();
    }
    Ok(reader)
}

// The weights' lines, and that nothing follows them.
fn read_end(start: Reader, n: usize, weights: &mut [i64]) -> Result<usize, ReadError>
    requires { (3 ≤ n) × (n ≤ most_text_vertices) × (weights_length most_text_vertices ≤ length weights.old) }
    ensures { Ends (left start.entry) n weights.new result }
{
    let end = read_weights(start, 2 * n - 5, 2 * n - 2, weights).map_err(ReadError::Line)?;
    if !end.rest().is_empty() {
        return Err(ReadError::Line(4 * n - 7));
    }
    Ok(n)
}

// The lines after the first.
fn read_body(
    start: Reader,
    n: usize,
    triangles: &mut [u16],
    weights: &mut [i64],
) -> Result<usize, ReadError>
    requires { (3 ≤ n) × (n ≤ most_text_vertices) × (triangles_length most_text_vertices ≤ length triangles.old)
        × (weights_length most_text_vertices ≤ length weights.old) }
    ensures { Comes (left start.entry) n triangles.new weights.new result }
{
    let end = read_triangles(start, 2 * n - 4, triangles).map_err(ReadError::Line)?;
    read_end(end, n, weights)
}

// The whole text: its number of vertices. The slices then begin with its triangles and its weights.
pub fn read_job(text: &[u8], triangles: &mut [u16], weights: &mut [i64]) -> Result<usize, ReadError>
    requires { (triangles_length most_text_vertices ≤ length triangles.old) × (weights_length most_text_vertices ≤ length weights.old) }
    ensures weights_after { answer_of result triangles.new weights.new ≡ read_job text.now }
    ensures sized { Sized result }
{
    if MOST_BYTES < text.len() {
        return Err(ReadError::TooLong);
    }
    let reader = Reader::new(text);
    let n = usize::from(text_parse::head_at(reader.rest()).ok_or(ReadError::Line(1))?);
    if n < 3 || MOST_VERTICES < n {
        return Err(ReadError::Size);
    }
    read_body(reader.next_line(), n, triangles, weights)
}
