// A whole call list from bytes to bytes, exported for Rust and C.
#![tactic(auto)]

ghost use Rattle.std.specs.Prelude.{◌≡◌};
ghost use Rattle.calls.specs.Runs.{ran_text};

// Runs the lines of a call list from a fresh start, and puts their answers, each with a newline, at the front of out, as far as
// it has room; answers how many bytes of them are there. Where that is all of out, there may be more.
// From C: text and out must not overlap.
#[unsafe(no_mangle)]
pub extern "C" fn gubrestal_run_list(text: &[u8], out: &mut [u8]) -> usize
    ensures { (result, out.new) ≡ ran_text text.now out.old }
{
    calls::list::gubrestal_run_list(text, out)
}
