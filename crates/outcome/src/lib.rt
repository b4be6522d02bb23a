// What a start and an answer make of the record in force, and what a session came to (lib.rs; document 01, 'Exchanges'; document 02, CR 10):
// what a session is for decides both. Proved: they are those of specs/Outcome.antt, whatever the session's bytes are. Left out: the
// operations, which are in `driver`.
#![tactic(auto)]

ghost use Rattle.std.specs.Prelude.{◌≡◌, cond, ◌&&◌, ◌||◌, eqb};
ghost use Rattle.std.specs.Prelude.{Some, None};
ghost use Rattle.exchange.specs.State.{is_session, completed, purpose_in, record_in};
ghost use Rattle.exchange.specs.Turn.{turn_report};
ghost use Rattle.da728x.specs.Record.{record_at, chip_at};
ghost use Rattle.outcome.specs.Outcome as spec;

use da728x::DA728x;
use exchange::{SESSION_SIZE, Turn};

// What a session is for.
#[derive(Debug, Clone, Copy, PartialEq, Eq)]
pub enum Purpose {
    Command,
    New,
    Settings,
    Byte,
    ThreeBytes,
    Length,
    Upload,
}

// A pair for each choice: the gate refuses an `impl` that a macro here writes, and a trait with each choice's codes would be longer.
impl From<Purpose> for u8 {
    ghost from_gives = { λ purpose code. code ≡ spec.purpose_code purpose };

    fn from(purpose: Purpose) -> u8 {
        purpose as u8
    }
}

impl From<u8> for Purpose {
    ghost from_gives = { λ code purpose. purpose ≡ spec.purpose_at code };

    fn from(code: u8) -> Purpose {
        match code {
            1 => Purpose::New,
            2 => Purpose::Settings,
            3 => Purpose::Byte,
            4 => Purpose::ThreeBytes,
            5 => Purpose::Length,
            6 => Purpose::Upload,
            _ => Purpose::Command,
        }
    }
}

// What a start, or an answer, makes of the record that is lent with it, where it changes it: another record, or another count of sequences.
#[derive(Debug, Clone, Copy, PartialEq, Eq)]
pub enum Change {
    To(DA728x),
    Sequences(u8),
}

// What a session came to: how many exchanges were made, and, once these are all, what the operation answers.
#[derive(Debug, Clone, Copy, PartialEq, Eq)]
pub struct Outcome {
    pub made: u8,
    pub value: Option<u32>,
}

fn purpose_of(session: &[u8; SESSION_SIZE]) -> Purpose
    ensures { result ≡ spec.purpose_at (purpose_in session.now) }
{
    session[exchange::PURPOSE].into()
}

// ---- what an answer makes of the record

// The record after a change.
pub fn changed(driver: DA728x, change: Option<Change>) -> DA728x
    ensures { result ≡ spec.record_by driver change }
{
    match change {
        None => driver,
        Some(Change::To(next)) => next,
        Some(Change::Sequences(sequences)) => DA728x {
            sequences,
            ..driver
        },
    }
}

// Session and turn are lent and copied, here and below: a struct of both would be taken apart at once.

// Whether an answer that gave this turn may change a record, where the session is of no upload; if not, none need be looked at
// (proofs/Changes.antt, `unchanged`).
pub fn may_change(session: &[u8], turn: Turn) -> bool
    ensures { result
        ≡ (turn.ended && (is_session session.now && (eqb (purpose_in session.now) 1 || eqb (purpose_in session.now) 2))) }
{
    turn.ended && session.as_array::<SESSION_SIZE>().is_some_and(has_record)
}

// Whether a session carries a record that its last success gives.
fn has_record(session: &[u8; SESSION_SIZE]) -> bool
    ensures { result ≡ eqb (purpose_in session.now) 1 || eqb (purpose_in session.now) 2 }
{
    matches!(purpose_of(session), Purpose::New | Purpose::Settings)
}

pub fn is_upload(session: &[u8]) -> bool
    ensures { result ≡ is_session session.now && eqb (purpose_in session.now) spec.for_upload }
{
    session
        .as_array::<SESSION_SIZE>()
        .is_some_and(|session| purpose_of(session) == Purpose::Upload)
}

// What the start of an upload makes of the record, in a session of these bytes.
pub fn zeroing(session: &[u8]) -> Option<Change>
    ensures { result ≡ spec.zeroing session.now }
{
    (session.len() == SESSION_SIZE).then_some(Change::Sequences(0))
}

// What an answer that gave this turn makes of the record that was lent with it; the session is as the answer left it.
#[inline]
#[tactic(auto, unfolding(crate::specs::Outcome::change_by))]
pub fn change_by(driver: DA728x, session: &[u8], turn: Turn) -> Option<Change>
    ensures { result ≡ spec.change_by session.now (turn_report turn) driver }
{
    let session = session.as_array::<SESSION_SIZE>()?;
    if turn.is_last() {
        change_for(driver, session)
    } else if turn.is_taken() {
        change_before(driver, session)
    } else {
        None
    }
}

// The last success.
fn change_for(driver: DA728x, session: &[u8; SESSION_SIZE]) -> Option<Change>
    ensures { result ≡ spec.change_for (purpose_in session.now) (record_at (record_in session.now)) driver }
{
    match purpose_of(session) {
        Purpose::New => Some(Change::To(carried(session))),
        Purpose::Settings => settle(carried(session), driver),
        Purpose::Upload => {
            let next = carried_chip(session);
            count(next, next.sequences, driver)
        }
        _ => None,
    }
}

// Any other answer that was taken.
fn change_before(driver: DA728x, session: &[u8; SESSION_SIZE]) -> Option<Change>
    ensures { result ≡ spec.change_before (purpose_in session.now) (record_at (record_in session.now)) driver }
{
    if purpose_of(session) == Purpose::Upload {
        count(carried_chip(session), 0, driver)
    } else {
        None
    }
}

// The record that a session carries.
fn carried(session: &[u8; SESSION_SIZE]) -> DA728x
    ensures { result ≡ record_at (record_in session.now) }
{
    DA728x::from_bytes(&session[exchange::RECORD..exchange::PLAN])
}

// The same without settings, for an upload, which carries none.
#[tactic(auto, unfolding(da728x::specs::Record::record_at))]
fn carried_chip(session: &[u8; SESSION_SIZE]) -> DA728x
    ensures { result ≡ chip_at (record_in session.now) }
{
    DA728x::chip_from_bytes(&session[exchange::RECORD..exchange::PLAN])
}

// The settings of another record of the same chip.
fn settle(next: DA728x, driver: DA728x) -> Option<Change>
    ensures { result ≡ spec.settling next driver }
{
    is_chip_of(next, driver).then_some(Change::To(DA728x {
        settings: next.settings,
        ..driver
    }))
}

// So many sequences, where the upload goes to the record's address.
fn count(next: DA728x, sequences: u8, driver: DA728x) -> Option<Change>
    ensures { result ≡ spec.counting next sequences driver }
{
    (driver.address == next.address).then_some(Change::Sequences(sequences))
}

fn is_chip_of(next: DA728x, driver: DA728x) -> bool
    ensures { result ≡ spec.is_chip_of next driver }
{
    next.address == driver.address && next.variant == driver.variant
}

// ---- what a session came to

#[tactic(auto, unfolding(crate::specs::Outcome::outcome_of))]
pub fn result(session: &[u8]) -> Outcome
    ensures { result ≡ spec.outcome_of session.now }
{
    Outcome {
        made: exchange::made(session),
        value: answer_of(session),
    }
}

// What the operation answers, once every exchange was made.
#[tactic(auto, unfolding(exchange::specs::State::completed))]
fn answer_of(session: &[u8]) -> Option<u32>
    ensures { result ≡ cond (completed session.now) (Some (spec.value_in session.now)) None }
{
    let session = session.as_array::<SESSION_SIZE>()?;
    exchange::is_completed(session).then(|| value(session))
}

fn value(session: &[u8; SESSION_SIZE]) -> u32
    ensures { result ≡ spec.value_in session.now }
{
    let [last, second, third] = *session[exchange::LAST..].first_chunk::<3>().unwrap();
    match purpose_of(session) {
        Purpose::Byte => last.into(),
        Purpose::ThreeBytes => u32::from_be_bytes([0, third, second, last]),
        Purpose::Length => session[exchange::READS].min(exchange::MOST_READS).into(),
        _ => 0,
    }
}
