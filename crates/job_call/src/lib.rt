// A job from its text to its listing: the text is read, the weights are repaired, and the listing is written. The call for the host service is the last one.
#![tactic(auto)]

ghost use Rattle.std.specs.Prelude.{◌≡◌, ◌<◌};
ghost use Rattle.definitions.specs.Answers.{done, number};
ghost use Rattle.definitions.specs.Mesh.{org};
ghost use Rattle.definitions.specs.Backward.{coordinate};
ghost use Rattle.definitions.specs.Job.{Job, listing as listing_of, read_job, run_job, line_of, host_call};
ghost use Rattle.job_call.specs.Model.{job_of, ran, Fitting, outcome};
ghost use Rattle.job_call.specs.Answer.{Ends, Near, ExactEnd, job_to_answer, job_to_refusal, of_read, of_repair};

use lent_slices::SCRATCH_WORDS;
use mesh_answer::Refusal;
use mesh_check::Mesh;
use text_read_job::{MOST_VERTICES, ReadError};

// Why a job gets no listing: its text gives no job, its repair is refused, or the buffer is too short for the listing.
#[derive(Clone, Copy, Debug, PartialEq, Eq)]
pub enum JobRefusal {
    Text(ReadError),
    Repair(Refusal),
    ListingLength,
}

impl JobRefusal {
    // the number of the row
    pub fn number(self) -> u32
        ensures { result ≡ number (job_to_refusal self) }
    {
        match self {
            JobRefusal::Text(ReadError::TooLong) => 19,
            JobRefusal::Text(ReadError::Size) => 1,
            JobRefusal::Text(ReadError::Line(_)) => 17,
            JobRefusal::Repair(why) => why.number(),
            JobRefusal::ListingLength => 18,
        }
    }

    // the line of 17, and else 0
    #[tactic(auto, unfolding(definitions::specs::Job::line_of))]
    pub fn line(self) -> usize
        ensures { result ≡ line_of (job_to_refusal self) }
    {
        match self {
            JobRefusal::Text(ReadError::Line(line)) => line,
            JobRefusal::Text(ReadError::TooLong | ReadError::Size) => 0,
            JobRefusal::Repair(_) | JobRefusal::ListingLength => 0,
        }
    }
}

impl From<ReadError> for JobRefusal {
    ghost from_gives = { λ read why. why ≡ of_read read };

    fn from(read: ReadError) -> JobRefusal {
        JobRefusal::Text(read)
    }
}

impl From<Refusal> for JobRefusal {
    ghost from_gives = { λ repair why. why ≡ of_repair repair };

    fn from(repair: Refusal) -> JobRefusal {
        JobRefusal::Repair(repair)
    }
}

// the lengths that the largest job wants
const TRIANGLES: usize = 3 * (2 * MOST_VERTICES - 4);

const WEIGHTS: usize = 2 * MOST_VERTICES - 5;

const COORDINATES: usize = 3 * MOST_VERTICES;

const SCRATCH: usize = SCRATCH_WORDS * MOST_VERTICES;

// v0
fn first_corner(triangles: &[u16]) -> usize
    ensures is { result ≡ org triangles.now 0 }
    ensures small { result < 65536 }
{
    usize::from(triangles.first().copied().unwrap_or(0))
}

// The listing of repaired weights, by their coordinates. N is b0 of v0.
fn list(
    n: usize,
    triangles: &[u16],
    raises: usize,
    coordinates: &[i64],
    listing: &mut [u8],
) -> Result<usize, JobRefusal>
    requires { (n < 65536) × (raises < 65536) }
    ensures ends { Ends (done (listing_of n (coordinate coordinates.now 0 (org triangles.now 0)) raises coordinates.now))
        listing.old listing.new result }
    ensures exact { (job : Job) → ExactEnd (done job) result }
{
    let total = text_write_listing::coordinate_of(coordinates, 0, first_corner(triangles));
    text_write_listing::write_listing(n, total, raises, coordinates, listing).ok_or(
        JobRefusal::ListingLength,
    )
}

// A job that is read, over arrays with room for the largest one. Its first triangle is the outer one.
fn finish(
    n: usize,
    triangles: &[u16],
    weights: &mut [i64],
    listing: &mut [u8],
) -> Result<usize, JobRefusal>
    requires { Fitting n triangles.now weights.old }
    ensures ends { Ends (ran n triangles.now weights.old) listing.old listing.new result }
    ensures exact { ExactEnd (done (job_of n triangles.now weights.old)) result }
{
    let mut coordinates = [0; COORDINATES];
    let mut scratch = [0; SCRATCH];
    let mesh = Mesh {
        n,
        outer: 0,
        triangles,
    };
    let places = &mut coordinates[..3 * n];
    let raises = repair_call::repair(&mesh, weights, places, &mut scratch[..SCRATCH_WORDS * n])?;
    list(n, triangles, raises, places, listing)
}

// The whole job: the listing's length. The listing stands at the front of the buffer, and bytes past it keep what they held; a refused call leaves all of it
// as it was. A refusal of the text or of the repair is handed on as it is, with what it carries; where a text is given, only its number and its line are told.
pub fn run(text: &[u8], listing: &mut [u8]) -> Result<usize, JobRefusal>
    ensures answer { job_to_answer result ≡ (outcome (run_job text.now) listing.old).answer }
    ensures listing { listing.new ≡ (outcome (run_job text.now) listing.old).buffer }
    ensures line { Near result }
    ensures exact { ExactEnd (read_job text.now) result }
{
    let mut triangles = [0; TRIANGLES];
    let mut weights = [0; WEIGHTS];
    let n = text_read_job::read_job(text, &mut triangles, &mut weights)?;
    finish(
        n,
        &triangles[..3 * (2 * n - 4)],
        &mut weights[..2 * n - 5],
        listing,
    )
}

// The call for the host service: the listing's length, or 65,536 × (1 + line) plus the number of the refusal, line being 0 unless it is 17.
pub fn packmap_job(text: &[u8], listing: &mut [u8]) -> u64
    ensures number { result ≡ (host_call text.now listing.old).number }
    ensures listing { listing.new ≡ (host_call text.now listing.old).listing }
{
    match run(text, listing) {
        Ok(length) => length as u64,
        Err(why) => 65_536 * (1 + why.line() as u64) + u64::from(why.number()),
    }
}
