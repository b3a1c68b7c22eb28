// The call on a job text as a library for C, beside those of crate `hashcliff_c`: a slice is a pointer and a length. `host/packmap.h` declares it.
#![tactic(auto)]

ghost use Rattle.std.specs.Prelude.{◌≡◌};
ghost use Rattle.definitions.specs.Job.{host_call};

#[unsafe(no_mangle)]
pub extern "C" fn packmap_job(text: &[u8], listing: &mut [u8]) -> u64
    ensures number { result ≡ (host_call text.now listing.old).number }
    ensures listing { listing.new ≡ (host_call text.now listing.old).listing }
{
    job_call::packmap_job(text, listing)
}
