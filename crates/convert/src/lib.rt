// Settings to register values (lib.rs, `configure`, `set_frequency`, `set_override_value`; document 01, 'Settings to registers').
// Proved: each function equals its definition in specs/ for every argument, a refused setting too. That no accepted setting but a
// PID word's bit 15 is cut by its register's width is in plans/specs/Accepted.antt.
// The Rust matches the rows on mOhm × 1000, which outgrows its type; document 01 has whole ohms.
#![tactic(auto)]

ghost use Rattle.std.specs.Prelude.{◌≡◌};
ghost use Rattle.convert.specs.Convert.{voltage_byte, imax_code, v2i_word, period_word, high_part, low_part, override_byte};
ghost use Rattle.convert.specs.Trim as trim;

use registers_trigger::TRIM4;

mod periods;

// ACTUATOR1 and ACTUATOR2, from millivolts.
pub fn voltage(mV: u16) -> u8
    ensures { result ≡ voltage_byte mV }
{
    (1000 * mV as u32 / 23400 % 256) as u8
}

// IMAX of ACTUATOR3, from milliamperes.
pub fn imax(mA: u16) -> u8
    ensures { result ≡ imax_code mA }
{
    ((1000 * mA as u32).saturating_sub(28600) / 7200 % 256) as u8
}

// CALIB_V2I_H and CALIB_V2I_L, from milliohms and IMAX.
pub fn v2i(mOhm: u16, imax: u8) -> u16
    ensures { result ≡ v2i_word mOhm imax }
{
    (1000 * mOhm as u64 * (imax as u64 + 4) / 1610400) as u16
}

// The period word of FRQ_LRA_PER_H and FRQ_LRA_PER_L, from hertz. No mode takes a frequency below 25 Hz, where it is 0, or above 1024 Hz:
// since `checks::outside_band` has refused these, the compiled operations have the table alone (scripts/no-division).
pub fn period(hz: u16) -> u16
    ensures { result ≡ period_word hz }
{
    match hz {
        0..=24 => 0,
        25..=1024 => periods::words()[hz as usize - 25],
        _ => (100000000000 / (133332 * hz as u64)) as u16,
    }
}

// The eight bits above the lowest seven: the high registers of a period or PID word.
pub fn high_part(w: u16) -> u8
    ensures { result ≡ high_part w }
{
    ((w >> 7) & 0xFF) as u8
}

// The lowest seven bits.
pub fn low_part(w: u16) -> u8
    ensures { result ≡ low_part w }
{
    (w & 0x7F) as u8
}

// An override value in two's complement.
pub fn override_byte(value: i8) -> u8
    ensures { result ≡ override_byte value }
{
    value.cast_unsigned()
}

// LOOP_FILT_CAP_TRIM, from microhenries.
pub fn cap_trim(uH: u16) -> u8
    ensures { result ≡ trim.cap_code uH }
{
    match uH {
        0..=17 => 3,
        18..=27 => 2,
        28..=40 => 1,
        _ => 0,
    }
}

// The column of TRIM4's rows: steps of 25 µH.
pub fn column(uH: u16) -> usize
    ensures { result ≡ trim.column uH }
{
    ((uH as usize).saturating_sub(13) / 25).min(9)
}

// The row of whole ohms: LOOP_FILT_RES_TRIM for each column.
fn row(ohms: u16) -> &'static [u8; 10]
    ensures { result.now ≡ trim.row_at ohms trim.trim_rows }
{
    match ohms {
        0..=5 => &[2, 2, 3, 3, 3, 3, 3, 3, 3, 3],
        6..=7 => &[1, 2, 2, 3, 3, 3, 3, 3, 3, 3],
        8..=9 => &[1, 2, 2, 2, 3, 3, 3, 3, 3, 3],
        10..=11 => &[0, 1, 2, 2, 2, 3, 3, 3, 3, 3],
        12..=13 => &[0, 1, 2, 2, 2, 2, 3, 3, 3, 3],
        14..=15 => &[0, 1, 1, 2, 2, 2, 2, 3, 3, 3],
        16..=17 => &[0, 1, 1, 2, 2, 2, 2, 2, 3, 3],
        18..=19 => &[0, 0, 1, 1, 2, 2, 2, 2, 2, 3],
        20..=21 => &[0, 1, 1, 2, 2, 2, 3, 3, 3, 3],
        22..=23 => &[0, 1, 1, 2, 2, 2, 2, 3, 3, 3],
        24..=25 => &[0, 1, 1, 2, 2, 2, 2, 3, 3, 3],
        26..=27 => &[0, 1, 1, 2, 2, 2, 2, 2, 3, 3],
        28..=31 => &[0, 1, 2, 2, 2, 3, 3, 3, 3, 3],
        32..=33 => &[0, 1, 2, 2, 2, 2, 3, 3, 3, 3],
        34..=35 => &[0, 1, 1, 2, 2, 2, 3, 3, 3, 3],
        36..=41 => &[0, 1, 1, 2, 2, 2, 2, 3, 3, 3],
        42..=45 => &[0, 1, 2, 2, 3, 3, 3, 3, 3, 3],
        _ => &[0, 1, 2, 2, 2, 3, 3, 3, 3, 3],
    }
}

// LOOP_FILT_RES_TRIM, from milliohms and microhenries.
pub fn res_trim(mOhm: u16, uH: u16) -> u8
    ensures { result ≡ trim.resistance_code mOhm uH }
{
    row(mOhm / 1000)[column(uH)]
}

// TRIM4, from milliohms and microhenries.
pub fn trim4(mOhm: u16, uH: u16) -> TRIM4
    ensures { result.0 ≡ trim.trim4_byte mOhm uH }
{
    TRIM4::new()
        .with_LOOP_FILT_CAP_TRIM(cap_trim(uH))
        .with_LOOP_FILT_RES_TRIM(res_trim(mOhm, uH))
}
