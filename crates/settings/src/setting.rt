// A setting's values as packed bits, the highest bit first, in versions.
ghost use Rattle.std.specs.Prelude.{◌≡◌, true, ◌+◌, ◌*◌, ◌<◌, length, take, drop, unwrap_or};
ghost use Rattle.laws.specs.Bytes.{number_of};
ghost use Rattle.refusals.specs.Refusal.{answer_as};
ghost use Rattle.settings.specs.Layout.{joined, shared, size};
ghost use Rattle.settings.specs.Refused.{FifteenIs};
ghost use Rattle.settings.specs.Setting.{value_of, version_of, fits, pack, setting_in, good_length};

use fixed_list::Blank;
use refusals::Refusal;

// A setting's values: timeout in units of 10 ms, marks of readers, separation in ms, lifespan in seconds.
// All are wider than their fields: a value too wide is refused, not cut.
#[derive(Clone, Copy, Default)]
pub struct Setting {
    pub timeout: u64,
    pub coherent: u64,
    pub ordered: u64,
    pub separation: u64,
    pub lifespan: Option<u64>,
}

// What stands in the free places of a store.
impl Blank for Setting {
    ghost use Rattle.std.specs.Prelude.{None};

    ghost blank = { record { timeout = 0; coherent = 0; ordered = 0; separation = 0; lifespan = None } };

    fn blank() -> Setting {
        Setting {
            timeout: 0,
            coherent: 0,
            ordered: 0,
            separation: 0,
            lifespan: None,
        }
    }
}

impl Setting {
    // Writes the packed bytes from the list's start, version 2 with a lifespan, else 1, and answers how many.
    pub fn pack(self, out: &mut [u8]) -> Result<usize, Refusal>
        ensures is { (answer_as result, out.new) ≡ pack self out.old }
        ensures why { FifteenIs Refusal.TooWide result }
    {
        if !self.fits() {
            return Err(Refusal::TooWide);
        }
        let (version, size) = self.version();
        if out.len() < size {
            return Err(Refusal::ListTooShort);
        }
        let bytes = self.bits(version).to_be_bytes();
        out[..size].copy_from_slice(&bytes[..size]);
        Ok(size)
    }

    // The version that it is packed in, and how many bytes that has.
    fn version(self) -> (u64, usize)
        ensures { result ≡ (version_of self, size (version_of self)) }
    {
        match self.lifespan {
            Some(_) => (2, 8),
            None => (1, 6),
        }
    }

    // Every value fits its field.
    pub(crate) fn fits(self) -> bool
        ensures { result ≡ fits self }
    {
        self.timeout < 4096
            && self.coherent < 256
            && self.ordered < 256
            && self.separation < 65536
            && self.lifespan.unwrap_or(0) < 65536
    }

    // The fields that every version has, and the lifespan behind them, 0 where there is none.
    fn bits(self, version: u64) -> u64
        requires self_value { fits self ≡ true }
        requires version_bound { version < 16 }
        ensures { result ≡ joined (λ f. value_of version self f) shared * 65536 + unwrap_or self.lifespan 0 }
    {
        let bits = version << 12 | self.timeout;
        let bits = bits << 8 | self.coherent;
        let bits = bits << 8 | self.ordered;
        let bits = bits << 16 | self.separation;
        bits << 16 | self.lifespan.unwrap_or(0)
    }
}

// The setting that bytes of a good length hold.
pub(crate) fn setting_in(bytes: &[u8], version: u8) -> Setting
    requires { good_length version (length bytes.now) ≡ true }
    ensures { result ≡ setting_in version bytes.now }
{
    Setting {
        timeout: pair(bytes, 0) % 4096,
        coherent: u64::from(bytes[2]),
        ordered: u64::from(bytes[3]),
        separation: pair(bytes, 4),
        lifespan: if version < 2 {
            None
        } else {
            Some(pair(bytes, 6))
        },
    }
}

// The number of two bytes, the first higher.
fn pair(bytes: &[u8], at: usize) -> u64
    requires { at + 1 < length bytes.now }
    ensures { result ≡ number_of (take 2 (drop at bytes.now)) }
{
    u64::from(u16::from_be_bytes([bytes[at], bytes[at + 1]]))
}

// As many bytes as the version has.
pub(crate) fn good_length(version: u8, n: usize) -> bool
    ensures { result ≡ good_length version n }
{
    match version {
        0 | 1 => n == 6,
        2 => n == 8,
        _ => (8..=32).contains(&n),
    }
}
