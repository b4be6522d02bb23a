// Sessions of one step or two, and the steps of an upload (lib.rs; document 01, 'Exchanges'): what the operations of `driver` begin and
// push. Proved: the session's bytes are those of specs/Sessions.antt. Left out: the steps of `configure`, which are in `plans`.
#![tactic(auto)]

ghost use Rattle.std.specs.Prelude.{◌≡◌, [], ◌∷◌, min};
ghost use Rattle.exchange.specs.declared.Step.TheVariants.{Read, Update};
ghost use Rattle.exchange.specs.State.{begun_with, begun_in, pushed_all};
ghost use Rattle.sessions.specs.Sessions as spec;

use config::OperationMode;
use da728x::DA728x;
use exchange::{Opening, Step};
use field::Place;
use outcome::Purpose;
use registers::Register;
use registers_control::TOP_CTL1;
use registers_trigger::{MEM_CTL2, SEQ_CTL2};

// What a session on the chip's registers alone is begun with; one for a record, an image or a memory read says its own in place of the
// blank. The purpose is any byte here and below, as a session may hold any: `Purpose` would ask more of the caller.
#[inline]
#[tactic(auto, unfolding(crate::specs::Sessions::no_image, crate::specs::Sessions::blank_record))]
pub fn opening<'a>(address: u8, purpose: u8) -> Opening<'a>
    ensures { begun_with result.address result.reads result.room result.purpose result.image.now result.«record».now ≡ spec.blank purpose address }
{
    Opening {
        address,
        reads: 0,
        room: 0,
        purpose,
        image: &[0; 100],
        record: &[0; da728x::RECORD_SIZE],
    }
}

// Begins a session for a record. It gives no `Opening`, which would borrow the record's bytes from here.
#[tactic(auto, unfolding(crate::specs::Sessions::no_image, crate::specs::Sessions::blank_record))]
pub fn begin_with(session: &mut [u8], purpose: u8, next: DA728x)
    ensures { session.new ≡ begun_in session.old (spec.carrying purpose next) [] }
{
    exchange::begin(
        session,
        Opening {
            record: &next.to_bytes(),
            ..opening(next.address, purpose)
        },
    );
}

// Begins a session on the chip's registers alone, with its first step. Over an `Opening` it was tried: the lengths of what that borrows stayed open.
pub fn run(session: &mut [u8], address: u8, purpose: u8, step: Step)
    ensures { session.new ≡ begun_in session.old (spec.blank purpose address) (step ∷ []) }
{
    exchange::begin(session, opening(address, purpose));
    exchange::push(session, step);
}

// Reads a register, and writes it back with a field replaced. Any byte, as in a step: `Register` would ask more of the caller.
pub fn update(session: &mut [u8], address: u8, register: u8, place: Place, value: u8)
    ensures { session.new ≡ begun_in session.old (spec.blank 0 address) (Read register ∷ Update register place.shift place.width value ∷ []) }
{
    exchange::begin(session, opening(address, Purpose::Command.into()));
    exchange::push_update(session, register, place, value);
}

// ---- register values

#[tactic(auto, unfolding(crate::specs::Sessions::enabled))]
pub fn enabled(mode: OperationMode) -> u8
    ensures { result ≡ spec.enabled mode }
{
    let top_ctl1 = TOP_CTL1::new()
        .with_OPERATION_MODE(mode.into())
        .with_STANDBY_EN(false)
        .with_SEQ_START(false);
    top_ctl1.into()
}

// 1 is unlocked.
#[tactic(auto, unfolding(crate::specs::Sessions::mem_ctl2))]
pub fn mem_ctl2(unlocked: bool) -> u8
    ensures { result ≡ spec.mem_ctl2 unlocked }
{
    MEM_CTL2::new().with_WAV_MEM_LOCK(unlocked).into()
}

#[tactic(auto, unfolding(crate::specs::Sessions::seq_ctl2))]
pub fn seq_ctl2(sequence_id: u8, loops: u8) -> u8
    ensures { result ≡ spec.seq_ctl2 sequence_id loops }
{
    SEQ_CTL2::new()
        .with_PS_SEQ_ID(sequence_id)
        .with_PS_SEQ_LOOP(loops)
        .into()
}

// ---- an upload

// Unlocks the memory, sends n bytes of the session's image, and locks it if asked.
pub fn send(session: &mut [u8], n: u8, lock_after: bool)
    ensures { session.new ≡ pushed_all session.old (spec.send_steps n lock_after) }
{
    exchange::push(
        session,
        Step::Write(Register::MEM_CTL2.address(), mem_ctl2(true)),
    );
    chunks(session, n);
    lock(session, lock_after);
}

#[tactic(auto, using(crate::proofs::Parts::all_chunks), unfolding(crate::specs::Sessions::chunk_step))]
fn chunks(session: &mut [u8], n: u8)
    ensures { session.new ≡ pushed_all session.old (spec.chunk_steps n) }
{
    for offset in [0, 32, 64, 96] {
        if offset < n {
            exchange::push(session, Step::Chunk(offset, 32.min(n - offset)));
        }
    }
}

#[tactic(auto, unfolding(crate::specs::Sessions::lock_steps))]
fn lock(session: &mut [u8], lock_after: bool)
    ensures { session.new ≡ pushed_all session.old (spec.lock_steps lock_after) }
{
    if lock_after {
        exchange::push(
            session,
            Step::Write(Register::MEM_CTL2.address(), mem_ctl2(false)),
        );
    }
}

// How many bytes there are to send or read: no more than a hundred.
pub fn shown(len: usize) -> u8
    ensures { result ≡ min len 100 }
{
    len.min(usize::from(exchange::MOST_READS)) as u8
}

// How many bytes are read of a memory into a buffer.
pub fn reads(len: usize, buffer_len: usize) -> u8
    ensures { result ≡ min (min len 100) buffer_len }
{
    shown(len.min(buffer_len))
}
