// From a register's value back to the settings that it can have come from (document 02, CR 12); the Rust has nothing like it. Of the settings that
// `configure` takes: the least and the greatest that convert to the value, or none.
// Proved: each answer is what a search through all settings finds (specs/Search.antt), and so of the accepted settings exactly those between its
// ends convert to the value (specs/Ranges.antt).
#![tactic(auto)]

ghost use Rattle.std.specs.Prelude.{◌≡◌, ◌<◌, ◌+◌, ◌-◌, ◌/◌, min};
ghost use Rattle.ranges.specs.Search as spec;

use config::DrivingMode;

// 10^11 / 133332, which divided by a frequency gives its word.
const CYCLES: u32 = 750007;

#[derive(Debug, Clone, Copy, PartialEq, Eq)]
pub struct Range {
    pub least: u16,
    pub greatest: u16,
}

// In millivolts, nominal or absolute, from the byte of ACTUATOR1 or ACTUATOR2.
#[tactic(auto, using(crate::proofs::Ends::voltage_is))]
pub fn voltage(byte: u8) -> Option<Range>
    ensures { result ≡ spec.voltage_range byte }
{
    let from = 23400 * byte as u32;
    thousandths(from, from + 23400, 5990)
}

// In milliamperes, from IMAX of ACTUATOR3; what does not fit its five bits comes from nothing.
#[tactic(auto, using(crate::proofs::Ends::imax_is))]
pub fn imax(value: u8) -> Option<Range>
    ensures { result ≡ spec.imax_range value }
{
    let from = 7200 * value as u32 + 28600;
    thousandths(from, from + 7200, 252)
}

// In hertz, from the period word of FRQ_LRA_PER_H and FRQ_LRA_PER_L.
#[tactic(auto, using(crate::proofs::Ends::period_is))]
pub fn period(word: u16, mode: DrivingMode) -> Option<Range>
    ensures { result ≡ spec.period_range mode word }
{
    let (bottom, top) = if checks::is_tracking(mode) {
        (50, 300)
    } else {
        (25, 1024)
    };
    let greatest = CYCLES.checked_div(word as u32)?.min(top);
    let least = (CYCLES / (word as u32 + 1) + 1).max(bottom);
    span(least, greatest)
}

// The n up to a greatest with from <= 1000 × n < to.
fn thousandths(from: u32, to: u32, greatest: u32) -> Option<Range>
    requires { (0 < to) × (from < 10000000) × (to < 10000000) × (greatest < 65536) }
    ensures { result ≡ spec.span ((from + 999) / 1000) (min greatest ((to + 999) / 1000 - 1)) }
{
    span(from.div_ceil(1000), (to.div_ceil(1000) - 1).min(greatest))
}

// From one number to another, none where they have crossed.
fn span(least: u32, greatest: u32) -> Option<Range>
    requires { greatest < 65536 }
    ensures { result ≡ spec.span least greatest }
{
    if greatest < least {
        return None;
    }
    Some(Range {
        least: least as u16,
        greatest: greatest as u16,
    })
}
