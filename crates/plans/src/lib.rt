// The steps of `configure` (lib.rs; document 01, 'Settings to registers' and 'Exchanges'), pushed to a session that was begun.
// Each function pushes one part of the Rust's body, in its order; the register types are those of registers.rs.
// Proved: what is pushed is specs/Configure.antt's list, 14 to 25 steps (proofs/Lengths.antt); of accepted settings no value but a
// PID word, which loses bit 15, is cut by its register (proofs/Accepted.antt); a trigger's byte has its number, polarity and mode, and
// goes to its own register (proofs/Trigger.antt). Left out: the steps where rapid stop is on, which the Rust does not have and `checks` refuses.
#![tactic(auto)]

ghost use Rattle.std.specs.Prelude.{◌≡◌};
ghost use Rattle.exchange.specs.State.{pushed, pushed_all};
ghost use Rattle.exchange.specs.declared.Step.TheVariants.{Write, Read, Update};
ghost use Rattle.plans.specs.Configure.{accelerates, top_cfg1, feature_steps, limit_steps, calibration_steps, pid_steps, frequency_steps, rapid_stop_steps, phase_steps, custom_steps, driving_steps, gpi_steps, trigger_steps, configure_steps};

use config::{ActuatorConfig, DeviceConfig, DrivingMode, TriggerConfig, TriggerMode};
use exchange::Step;
use field::Place;
use registers::Register;
use registers_actuator::{ACTUATOR3, FRQ_LRA_PER_L, TOP_CFG1, TOP_CFG2, TOP_CFG4};
use registers_control::{SEQ_CTL1, TOP_INT_CFG8};
use registers_trigger::{FRQ_PHASE_L, GPI_0_CTL, GPI_1_CTL, GPI_2_CTL, Gpi, TOP_CFG5};

// Everything that `configure` does, once its checks have passed.
#[tactic(auto, using(exchange::proofs::Pushes::push_append))]
pub fn configure(session: &mut [u8], a: ActuatorConfig, d: DeviceConfig)
    ensures { session.new ≡ pushed_all session.old (configure_steps a d) }
{
    features(session, a, d);
    limits(session, a);
    calibration(session, a);
    pid(session, a.pid_Kp_Ki);
    frequency(session, a.frequency_Hz);
    rapid_stop(session);
    driving(session, d.driving_mode);
    triggers(session, d);
}

// The period of a frequency, as `set_frequency` writes it too.
#[tactic(auto, unfolding(crate::specs::Configure::frequency_steps))]
pub fn frequency(session: &mut [u8], hz: u16)
    ensures { session.new ≡ pushed_all session.old (frequency_steps hz) }
{
    let word = convert::period(hz);
    let frq_lra_per_l = FRQ_LRA_PER_L::new().with_LRA_PER_L(convert::low_part(word));
    write(session, Register::FRQ_LRA_PER_H, convert::high_part(word));
    write(session, Register::FRQ_LRA_PER_L, frq_lra_per_l.into());
}

#[tactic(auto, unfolding(crate::specs::Configure::feature_steps))]
fn features(session: &mut [u8], a: ActuatorConfig, d: DeviceConfig)
    ensures { session.new ≡ pushed_all session.old (feature_steps a d) }
{
    let accelerates = accelerates(d);
    let top_cfg5 = TOP_CFG5::new().with_V2I_FACTOR_OFFSET_EN(accelerates);
    write(session, Register::TOP_CFG1, top_cfg1(a, d));
    update(
        session,
        Register::TOP_CFG2,
        TOP_CFG2::MEM_DATA_SIGNED_PLACE,
        !accelerates as u8,
    );
    write(session, Register::TOP_CFG5, top_cfg5.into());
}

fn top_cfg1(a: ActuatorConfig, d: DeviceConfig) -> u8
    ensures { result ≡ top_cfg1 a d }
{
    let tracks = checks::is_tracking(d.driving_mode);
    TOP_CFG1::new()
        .with_ACTUATOR_TYPE(a.actuator_type.into())
        .with_BEMF_SENSE_EN(tracks)
        .with_FREQ_TRACK_EN(tracks)
        .with_ACCELERATION_EN(accelerates(d))
        .with_RAPID_STOP_EN(tracks && d.rapid_stop)
        .with_AMP_PID_EN(false)
        .with_EMBEDDED_MODE(true)
        .into()
}

// Acceleration is for tracking only.
fn accelerates(d: DeviceConfig) -> bool
    ensures { result ≡ accelerates d }
{
    checks::is_tracking(d.driving_mode) && d.acceleration
}

#[tactic(auto, unfolding(crate::specs::Configure::limit_steps))]
fn limits(session: &mut [u8], a: ActuatorConfig)
    ensures { session.new ≡ pushed_all session.old (limit_steps a) }
{
    let actuator3 = ACTUATOR3::new().with_IMAX(convert::imax(a.max_current_mA));
    write(
        session,
        Register::ACTUATOR1,
        convert::voltage(a.nominal_max_mV),
    );
    write(
        session,
        Register::ACTUATOR2,
        convert::voltage(a.absolute_max_mV),
    );
    write(session, Register::ACTUATOR3, actuator3.into());
}

#[tactic(auto, unfolding(crate::specs::Configure::calibration_steps))]
fn calibration(session: &mut [u8], a: ActuatorConfig)
    ensures { session.new ≡ pushed_all session.old (calibration_steps a) }
{
    let v2i = convert::v2i(a.impedance_mOhm, convert::imax(a.max_current_mA));
    let [high, low] = v2i.to_be_bytes();
    let trim4 = convert::trim4(a.impedance_mOhm, a.inductance_uH);
    write(session, Register::CALIB_V2I_H, high);
    write(session, Register::CALIB_V2I_L, low);
    write(session, Register::TRIM4, trim4.into());
}

#[tactic(auto, unfolding(crate::specs::Configure::pid_steps))]
fn pid(session: &mut [u8], pid_Kp_Ki: Option<(u16, u16)>)
    ensures { session.new ≡ pushed_all session.old (pid_steps pid_Kp_Ki) }
{
    if let Some((kp, ki)) = pid_Kp_Ki {
        write(session, Register::TOP_INT_CFG6_H, convert::high_part(kp));
        write(session, Register::TOP_INT_CFG6_L, convert::low_part(kp));
        write(session, Register::TOP_INT_CFG7_H, convert::high_part(ki));
        write(session, Register::TOP_INT_CFG7_L, convert::low_part(ki));
    }
}

// RAPID_STOP_LIM is 7 where rapid stop is off.
#[tactic(auto, unfolding(crate::specs::Configure::rapid_stop_steps))]
fn rapid_stop(session: &mut [u8])
    ensures { session.new ≡ pushed_all session.old rapid_stop_steps }
{
    update(
        session,
        Register::TOP_INT_CFG8,
        TOP_INT_CFG8::RAPID_STOP_LIM_PLACE,
        7,
    );
}

#[tactic(auto, using(exchange::proofs::Pushes::push_append), unfolding(crate::specs::Configure::driving_steps))]
fn driving(session: &mut [u8], driving_mode: DrivingMode)
    ensures { session.new ≡ pushed_all session.old (driving_steps driving_mode) }
{
    match driving_mode {
        DrivingMode::FREQUENCY_TRACK => {}
        DrivingMode::WIDEBAND => phase(session),
        DrivingMode::CUSTOM_WAVEFORM => {
            phase(session);
            custom_waveform(session);
        }
    }
}

#[tactic(auto, unfolding(crate::specs::Configure::custom_steps))]
fn custom_waveform(session: &mut [u8])
    ensures { session.new ≡ pushed_all session.old custom_steps }
{
    let seq_ctl1 = SEQ_CTL1::new().with_WAVEGEN_MODE(true);
    let top_cfg4 = TOP_CFG4::new().with_V2I_FACTOR_FREEZE(true);
    write(session, Register::SEQ_CTL1, seq_ctl1.into());
    write(session, Register::TOP_CFG4, top_cfg4.into());
}

#[tactic(auto, unfolding(crate::specs::Configure::phase_steps))]
fn phase(session: &mut [u8])
    ensures { session.new ≡ pushed_all session.old phase_steps }
{
    let frq_phase_l = FRQ_PHASE_L::new()
        .with_DELAY_SHIFT_L(0)
        .with_DELAY_FREEZE(true);
    write(session, Register::FRQ_PHASE_H, 0);
    write(session, Register::FRQ_PHASE_L, frq_phase_l.into());
}

#[tactic(auto, using(exchange::proofs::Pushes::push_append), unfolding(crate::specs::Configure::trigger_steps, crate::specs::Configure::given_steps))]
fn triggers(session: &mut [u8], d: DeviceConfig)
    ensures { session.new ≡ pushed_all session.old (trigger_steps d) }
{
    // Three calls and no loop: each is at a type of its own.
    if checks::is_etwm(d.operation_mode) {
        gpi::<GPI_0_CTL>(session, d.gpi_trigger_0);
        gpi::<GPI_1_CTL>(session, d.gpi_trigger_1);
        gpi::<GPI_2_CTL>(session, d.gpi_trigger_2);
    }
}

#[tactic(auto, unfolding(crate::specs::Configure::gpi_steps, crate::specs::Configure::gpi_byte))]
fn gpi<G: Gpi>(session: &mut [u8], trigger: Option<TriggerConfig>)
    ensures { session.new ≡ pushed_all session.old (gpi_steps G.digit trigger) }
{
    if let Some(t) = trigger {
        let multi = t.mode == TriggerMode::MultiSequence;
        write(
            session,
            G::register(),
            G::byte(t.polarity.into(), multi, t.sequence_id),
        );
    }
}

// ---- steps on one register

fn write(session: &mut [u8], register: Register, value: u8)
    ensures { session.new ≡ pushed session.old (Write register.0 value) }
{
    exchange::push(session, Step::Write(register.address(), value));
}

// Reads a register, and writes it back with a field replaced.
fn update(session: &mut [u8], register: Register, place: Place, value: u8)
    ensures { session.new ≡ pushed (pushed session.old (Read register.0)) (Update register.0 place.shift place.width value) }
{
    exchange::push_update(session, register.address(), place, value);
}
