// Sessions: what lib.rs does over an async bus (document 01, 'Exchanges'). An operation is a list of steps; a session hands out the
// exchange of one step after the other, takes back the bus's answer, and ends. Its state is bytes that the caller lends, so that
// firmware can hold it across an await; the layout stands in specs/State.antt. Left out: the bus itself and its waiting.
//
// Proved: each function equals its definition for every state, answer and buffer. Bytes of another length than 280, or whose stage is not 1
// (not begun, or broken off), have no step left and are not completed. proofs/Session.antt: over every list of answers the
// exchanges are those of the steps, in order, and the count is true.
#![tactic(auto)]

ghost use Rattle.std.specs.Prelude.{◌≡◌, not, ◌&&◌, ◌+◌, ◌*◌, ◌<◌, ◌≤◌, min, [], ◌∷◌, eqb, length, take};
ghost use Rattle.std.specs.Option.{unwrap_or, is_none, option_to_list};
ghost use Rattle.errors.specs.Number.{answer_number};
ghost use Rattle.laws.specs.Copied.{over};
ghost use Rattle.laws.specs.Lists.{at};
ghost use Rattle.exchange.specs.declared.Step.TheVariants.{Read, Update};
ghost use Rattle.exchange.specs.Steps.{exchange, memory_address, chunk, exchange_for, step_bytes, step_of};
ghost use Rattle.exchange.specs.State.{is_unbroken, address_in, count_in, room_in, image_in, step_count, read_count, encoded_step, left, none_left, slot_of, completed, head_of, begun_with, begun_in, pushed};
ghost use Rattle.exchange.specs.Stage.{stage_code, stage_at};
ghost use Rattle.exchange.specs.Turn.{pending_of, fitting_of, resized, fit_of, going, moved, state_after, buffer_after, report_of, turn_report};

use da728x::RECORD_SIZE;
use errors::Error;
use field::Place;
use registers::Register;

// Public functions take bytes of any length and test for this one themselves: an array of it would ask more of their callers.
pub const SESSION_SIZE: usize = 280;

// What stands where in a session.
const ADDRESS: usize = 0;

const STAGE: usize = 1;

const MADE: usize = 2;

pub const LAST: usize = 3;

const STEPS: usize = 6;

pub const READS: usize = 7;

const ROOM: usize = 8;

pub const PURPOSE: usize = 16;

const IMAGE: usize = 17;

pub const RECORD: usize = 117;

pub const PLAN: usize = 155;

const MOST_STEPS: u8 = 25;

pub const MOST_READS: u8 = 100;

// The stage that a session is in.
#[derive(Debug, Clone, Copy, PartialEq, Eq)]
enum Stage {
    NotBegun,
    Begun,
    BrokenOff,
}

// A pair for each choice: the gate refuses an `impl` that a macro here writes, and a trait with each choice's codes would be longer.
impl From<Stage> for u8 {
    ghost from_gives = { λ stage code. code ≡ stage_code stage };

    fn from(stage: Stage) -> u8 {
        stage as u8
    }
}

impl From<u8> for Stage {
    ghost from_gives = { λ code stage. stage ≡ stage_at code };

    fn from(code: u8) -> Stage {
        match code {
            0 => Stage::NotBegun,
            1 => Stage::Begun,
            _ => Stage::BrokenOff,
        }
    }
}

// A register is a byte here: a session's bytes, which C lends, can name any, and crate `registers` alone makes a `Register`.
#[derive(Debug, Clone, Copy, PartialEq, Eq)]
pub enum Step {
    // The register and what is written.
    Write(u8, u8),
    // The register.
    Read(u8),
    // The register, and a field of the byte read last, replaced by a value: shift, width, value. Two numbers and no `Place`: the claims say them
    // so (`Update 0x22 4 1 1`).
    Update(u8, u8, u8, u8),
    // The register, and what it must read.
    Match(u8, u8),
    // A part of the image: offset and length.
    Chunk(u8, u8),
    // A memory read: its index in the lent buffer.
    Store(u8),
}

// What the bus is to do: send the first `len` bytes, and read back `wanted`.
#[derive(Debug, Clone, Copy, PartialEq, Eq)]
pub struct Exchange {
    pub address: u8,
    // An array with its length: no heap, and a slice can't be lent, since the register before the bytes stands nowhere in the session.
    pub bytes: [u8; 33],
    pub len: u8,
    // A number, as document 01 has it ("0 or 1 bytes wanted") and as C gets it.
    pub wanted: u8,
}

impl Exchange {
    // What sends a register and the bytes behind it; inlined, since nearly all of it is known where it is made.
    #[inline]
    fn new(address: u8, register: u8, rest: &[u8], wanted: u8) -> Exchange
        requires { length rest.now ≤ 32 }
        ensures { result ≡ exchange address (register ∷ rest.now) wanted }
    {
        let mut bytes = [0u8; 33];
        bytes[0] = register;
        // `lay`, here and below: its contract says the whole buffer in one word, `over`.
        laws::lay(&mut bytes, 1, rest);
        Exchange {
            address,
            bytes,
            len: rest.len() as u8 + 1,
            wanted,
        }
    }

    // The bytes to send.
    pub fn sent(&self) -> &[u8]
        ensures { result.now ≡ take self.now.len self.now.bytes }
    {
        laws::shown(&self.bytes, self.len)
    }
}

// What the bus answers.
#[derive(Debug, Clone, Copy, PartialEq, Eq)]
pub enum Reply {
    Done,
    Byte(u8),
    Failed(u8),
}

// What a session answers: the refusal, if any, the count of exchanges made, and whether it has ended.
#[derive(Debug, Clone, Copy, PartialEq, Eq)]
pub struct Turn {
    pub answer: Result<(), Error>,
    pub made: u8,
    pub ended: bool,
}

impl Turn {
    // Whether this was the last success.
    pub fn is_last(self) -> bool
        ensures { result ≡ self.ended && eqb (answer_number self.answer) 0 }
    {
        self.ended && self.answer.is_ok()
    }

    // Whether the answer was taken, and not refused out of turn.
    pub fn is_taken(self) -> bool
        ensures { result ≡ not (eqb (answer_number self.answer) 19) }
    {
        self.answer != Err(Error::OutOfTurn)
    }
}

// How an answer fits a step: a failure; a write done; a byte read; one for the buffer's index; not the byte that it must be.
#[derive(Debug, Clone, Copy, PartialEq, Eq)]
enum Fit {
    Broke(u8),
    Went,
    Got(u8),
    Kept(u8, u8),
    Wrong(u8),
}

// What a session is begun with: the chip's address, how many memory reads, the length of the read buffer, what the operation is for, the
// image to upload, and the record that the session carries.
#[derive(Clone, Copy)]
pub struct Opening<'a> {
    pub address: u8,
    pub reads: u8,
    pub room: usize,
    // A byte: `outcome`, which stands above, names the purposes, and a session may hold any.
    pub purpose: u8,
    pub image: &'a [u8; 100],
    pub record: &'a [u8; RECORD_SIZE],
}

// Begins a session without steps; the caller's bytes stay as they are if they are not as many as a session has. Inlined, since each
// caller knows most of what it opens with.
#[inline(always)]
#[tactic(auto, unfolding(crate::specs::State::begun_in))]
pub fn begin(session: &mut [u8], opening: Opening<'_>)
    ensures { session.new
        ≡ begun_in session.old (begun_with opening.entry.address opening.entry.reads opening.entry.room opening.entry.purpose opening.entry.image.now opening.entry.«record».now) [] }
{
    if let Some(session) = session.as_mut_array::<SESSION_SIZE>() {
        let Opening { image, record, .. } = opening;
        laws::lay(session, 0, &heading(opening));
        laws::lay(session, IMAGE, image);
        laws::lay(session, RECORD, record);
        laws::lay(session, PLAN, &[0u8; 125]);
    }
}

// The first seventeen bytes; eight of them are the length of the read buffer, least byte first.
fn heading(opening: Opening<'_>) -> [u8; 17]
    ensures { result ≡ head_of (begun_with opening.entry.address opening.entry.reads opening.entry.room opening.entry.purpose [] []) 0 }
{
    let mut head = [0u8; 17];
    head[ADDRESS] = opening.address;
    head[STAGE] = Stage::Begun.into();
    head[READS] = opening.reads;
    laws::lay(&mut head, ROOM, &opening.room.to_le_bytes());
    head[PURPOSE] = opening.purpose;
    head
}

// A step more, where there is room for it.
#[tactic(auto, unfolding(crate::specs::State::pushed), using(laws::proofs::Copies::over_fits))]
pub fn push(session: &mut [u8], step: Step)
    ensures { session.new ≡ pushed session.old step }
{
    if let Some(session) = session.as_mut_array::<SESSION_SIZE>() {
        let n = session[STEPS];
        if n < MOST_STEPS {
            session[STEPS] = n + 1;
            laws::lay(session, PLAN + 5 * usize::from(n), &<[u8; 5]>::from(step));
        }
    }
}

// Reads a register, and writes it back with a field replaced.
pub fn push_update(session: &mut [u8], register: u8, place: Place, value: u8)
    ensures { session.new ≡ pushed (pushed session.old (Read register)) (Update register place.shift place.width value) }
{
    push(session, Step::Read(register));
    push(
        session,
        Step::Update(register, place.shift, place.width, value),
    );
}

// A step in five bytes.
impl From<Step> for [u8; 5] {
    ghost from_gives = { λ step bytes. bytes ≡ step_bytes step };

    fn from(step: Step) -> [u8; 5] {
        match step {
            Step::Write(register, value) => [0, register, value, 0, 0],
            Step::Read(register) => [1, register, 0, 0, 0],
            Step::Update(register, shift, width, value) => [2, register, value, shift, width],
            Step::Match(register, value) => [3, register, value, 0, 0],
            Step::Chunk(offset, len) => [4, offset, len, 0, 0],
            Step::Store(index) => [5, index, 0, 0, 0],
        }
    }
}

impl From<[u8; 5]> for Step {
    ghost from_gives = { λ bytes step. step ≡ step_of (at bytes 0) (at bytes 1) (at bytes 2) (at bytes 3) (at bytes 4) };

    fn from([kind, a, b, c, d]: [u8; 5]) -> Step {
        match kind {
            0 => Step::Write(a, b),
            1 => Step::Read(a),
            2 => Step::Update(a, c, d, b),
            3 => Step::Match(a, b),
            4 => Step::Chunk(a, b),
            _ => Step::Store(a),
        }
    }
}

// The step that comes next.
#[tactic(auto, using(crate::proofs::Left::left_closed, crate::proofs::Left::left_none, crate::proofs::Left::slot_encoded, crate::proofs::Left::slot_store))]
fn current(session: &[u8; SESSION_SIZE]) -> Option<Step>
    ensures { result ≡ slot_of (left session.now) }
{
    if !is_unbroken(session) {
        return None;
    }
    let made = session[MADE];
    let steps = steps(session);
    let all = steps + reads(session);
    if all <= made {
        None
    } else if made < steps {
        Some(step_at(session, made))
    } else {
        Some(Step::Store(made - steps))
    }
}

// Whether a session was begun, and not broken off.
fn is_unbroken(session: &[u8; SESSION_SIZE]) -> bool
    ensures { result ≡ is_unbroken session.now }
{
    Stage::from(session[STAGE]) == Stage::Begun
}

// How many steps are encoded.
fn steps(session: &[u8; SESSION_SIZE]) -> u8
    ensures { result ≡ step_count session.now }
{
    session[STEPS].min(MOST_STEPS)
}

// How many memory reads stand behind them.
fn reads(session: &[u8; SESSION_SIZE]) -> u8
    ensures { result ≡ read_count session.now }
{
    session[READS].min(MOST_READS)
}

// The i-th encoded step.
fn step_at(session: &[u8; SESSION_SIZE], i: u8) -> Step
    requires { i < 25 }
    ensures { result ≡ encoded_step session.now i }
{
    let at = PLAN + 5 * usize::from(i);
    Step::from(*session[at..].first_chunk().unwrap())
}

// The exchange that is to be made next; none once the session has ended.
#[tactic(auto, using(crate::proofs::Left::left_other, crate::proofs::Left::idle_none))]
pub fn pending(session: &[u8]) -> Option<Exchange>
    ensures value { unwrap_or result (exchange 0 [] 0) ≡ pending_of session.now }
    ensures none { is_none result ≡ none_left (left session.now) }
{
    let session = session.as_array::<SESSION_SIZE>()?;
    let step = current(session)?;
    Some(exchange_for(session, step))
}

fn exchange_for(session: &[u8; SESSION_SIZE], step: Step) -> Exchange
    ensures { result ≡ exchange_for (address_in session.now) (at session.now 3) (image_in session.now) step }
{
    let address = session[ADDRESS];
    match step {
        Step::Write(register, value) => Exchange::new(address, register, &[value], 0),
        Step::Read(register) | Step::Match(register, _) => Exchange::new(address, register, &[], 1),
        Step::Update(register, shift, width, value) => {
            let updated = field::with(session[LAST], shift, width, value);
            Exchange::new(address, register, &[updated], 0)
        }
        Step::Chunk(offset, len) => {
            Exchange::new(
                address,
                memory_address(offset),
                chunk(session, offset, len),
                0,
            )
        }
        Step::Store(index) => Exchange::new(address, memory_address(index), &[], 1),
    }
}

// The part of the image that a chunk is.
fn chunk(session: &[u8; SESSION_SIZE], offset: u8, len: u8) -> &[u8]
    ensures value { result.now ≡ chunk (image_in session.now) offset len }
    ensures length { length result.now ≤ 32 }
{
    let image = &session[IMAGE..RECORD];
    laws::shown(&image[usize::from(offset).min(100)..], len.min(32))
}

fn memory_address(index: u8) -> u8
    ensures { result ≡ memory_address index }
{
    Register::SNP_MEM_0.address().wrapping_add(index)
}

// Takes back what the bus answered, with the buffer that a memory read fills (any, where the operation reads none).
#[tactic(auto, using(crate::proofs::Answers::fits_going), unfolding(crate::specs::Turn::report_of, crate::specs::Turn::state_after, crate::specs::Turn::buffer_after))]
pub fn answer(session: &mut [u8], reply: Reply, buffer: &mut [u8]) -> Turn
    ensures result_value { turn_report result ≡ report_of session.old reply (length buffer.old) }
    ensures session_after { session.new ≡ state_after session.old reply (length buffer.old) }
    ensures buffer_after { buffer.new ≡ buffer_after session.old reply buffer.old }
{
    let answer = match judge(session, reply, buffer.len()) {
        None => Err(Error::OutOfTurn),
        Some(Fit::Broke(code)) => {
            go_on(session, Stage::BrokenOff, None);
            Err(Error::I2c(code))
        }
        Some(Fit::Went) => {
            go_on(session, Stage::Begun, None);
            Ok(())
        }
        Some(Fit::Got(b)) => {
            go_on(session, Stage::Begun, Some(b));
            Ok(())
        }
        Some(Fit::Kept(i, b)) => {
            laws::store(buffer, usize::from(i), b);
            go_on(session, Stage::Begun, Some(b));
            Ok(())
        }
        Some(Fit::Wrong(b)) => {
            go_on(session, Stage::BrokenOff, Some(b));
            Err(Error::VariantMismatch)
        }
    };
    Turn {
        answer,
        made: made(session),
        ended: is_over(session),
    }
}

// An exchange more: the session is in this stage then, and a byte that came is the newest of the last three. Inlined, since each caller
// knows the stage and whether a byte came.
#[inline]
#[tactic(auto, using(laws::proofs::Copies::over_fits))]
fn go_on(session: &mut [u8], stage: Stage, came: Option<u8>)
    requires { going session.old }
    ensures { session.new ≡ moved session.old (stage_code stage) (option_to_list came) }
{
    let made = session[MADE] + 1;
    let [a, b, c] = *session[LAST..].first_chunk::<3>().unwrap();
    let bytes = match came {
        None => [stage.into(), made, a, b, c],
        Some(x) => [stage.into(), made, x, a, b],
    };
    laws::lay(session, STAGE, &bytes);
}

// How many exchanges were made; none of a session that was not begun.
pub fn made(session: &[u8]) -> u8
    ensures { result ≡ count_in session.now }
{
    if session.len() == SESSION_SIZE && Stage::from(session[STAGE]) != Stage::NotBegun {
        session[MADE]
    } else {
        0
    }
}

// Whether no step is left.
#[tactic(auto, using(crate::proofs::Left::left_other))]
pub fn is_over(session: &[u8]) -> bool
    ensures { result ≡ none_left (left session.now) }
{
    session
        .as_array::<SESSION_SIZE>()
        .and_then(current)
        .is_none()
}

// Whether every step was made.
#[tactic(auto, unfolding(crate::specs::State::completed))]
pub fn is_completed(session: &[u8]) -> bool
    ensures { result ≡ completed session.now }
{
    session.as_array::<SESSION_SIZE>().is_some_and(|session| {
        is_unbroken(session) && steps(session) + reads(session) <= session[MADE]
    })
}

// How an answer fits the session, with n bytes lent; `None` where it does not.
#[tactic(auto, using(crate::proofs::Left::left_other, crate::proofs::Left::idle_none, crate::proofs::Answers::unfit_none))]
fn judge(session: &[u8], reply: Reply, n: usize) -> Option<Fit>
    ensures { result ≡ fit_of session.now reply n }
{
    let session = session.as_array::<SESSION_SIZE>()?;
    let step = current(session)?;
    if is_resized(session, n) {
        return None;
    }
    fitting(step, reply)
}

fn fitting(step: Step, reply: Reply) -> Option<Fit>
    ensures { result ≡ fitting_of step reply }
{
    match (reply, step) {
        (Reply::Failed(code), _) => Some(Fit::Broke(code)),
        (Reply::Done, Step::Write(..) | Step::Update(..) | Step::Chunk(..)) => Some(Fit::Went),
        (Reply::Byte(b), Step::Read(_)) => Some(Fit::Got(b)),
        (Reply::Byte(b), Step::Match(_, value)) if b == value => Some(Fit::Got(b)),
        (Reply::Byte(b), Step::Match(..)) => Some(Fit::Wrong(b)),
        (Reply::Byte(b), Step::Store(index)) => Some(Fit::Kept(index, b)),
        _ => None,
    }
}

// Whether the read buffer's length is another than at the start.
fn is_resized(session: &[u8; SESSION_SIZE], n: usize) -> bool
    ensures { result ≡ resized session.now n }
{
    0 < reads(session) && n != room(session)
}

// The length that the read buffer had at the start.
fn room(session: &[u8; SESSION_SIZE]) -> usize
    ensures { result ≡ room_in session.now }
{
    usize::from_le_bytes(*session[ROOM..].first_chunk().unwrap())
}
