// What a setting means to the history, the filter hold and a sample's lifespan, in nanoseconds.
ghost use Rattle.std.specs.Prelude.{◌≡◌, ◌*◌, ◌<◌};
ghost use Rattle.refusals.specs.Refusal.{answer_as};
ghost use Rattle.settings.specs.Durations.{durations, separation_from};
ghost use Rattle.settings.specs.Refused.{FifteenIs};

use crate::setting::Setting;
use filter_hold::tbf::Separation;
use refusals::Refusal;

// The history's timeout in nanoseconds, the filter's separation, the lifespan.
#[derive(Clone, Copy)]
pub struct Durations {
    pub timeout: u64,
    pub separation: Separation,
    pub lifespan: Option<u64>,
}

impl Setting {
    // Refused, as packing is, where a value is too wide for its field.
    pub fn durations(self) -> Result<Durations, Refusal>
        ensures is { answer_as result ≡ durations self }
        ensures why { FifteenIs Refusal.TooWide result }
    {
        if !self.fits() {
            return Err(Refusal::TooWide);
        }
        Ok(Durations {
            timeout: self.timeout * 10_000_000,
            separation: separation_from(self.separation),
            lifespan: self.lifespan.map(|seconds| seconds * 1_000_000_000),
        })
    }
}

// From milliseconds of 16 bits.
fn separation_from(ms: u64) -> Separation
    requires { ms < 65536 }
    ensures { result ≡ separation_from (ms * 1000000) }
{
    Separation {
        sec: (ms / 1000) as u32,
        nanosec: (ms % 1000 * 1_000_000) as u32,
    }
}
