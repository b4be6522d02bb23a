// Lists of builder calls (added; no Rust file): the form in which whole patterns cross the boundary.
// Document 01, 'The hundred bytes': each call gets what the last handed back; a refused call adds nothing.
// Proved: every function answers what specs/Lists.antt and Items.antt say of the calls, told apart by the builders that they go to, for any
// bytes and any buffers; these are the lists of calls that demand 3 speaks of. specs/Items.antt: an item is all of it; specs/Strict.antt: what
// the two forms that make an image answer; specs/UsedUp.antt: what a call finds. The memory's items are kept in bytes (crate
// `pool`) and not in its builder, which is large: specs/Flat.antt is a run with that builder, Holding.antt what the bytes keep of it.
// Left out: the acceleration flag, which changes nothing.
#![tactic(auto)]

ghost use Rattle.std.specs.Prelude.{◌≡◌, false, length};
ghost use Rattle.laws.specs.Copied.{copied};
ghost use Rattle.laws.specs.Whole.{whole_out};
ghost use Rattle.errors.specs.Number.{answer_number};
ghost use Rattle.errors.specs.Told.{handed};
ghost use Rattle.snippet.specs.Snippet.{built_snippet};
ghost use Rattle.sequence.specs.Sequence.{built_sequence};
ghost use Rattle.memory.specs.Memory.{with_snippet, with_sequence};
ghost use Rattle.calls.specs.Calls.{calls_in, first_record, call_of};
ghost use Rattle.pattern.specs.Calls.{memory_from, with_built};
ghost use Rattle.assemble.specs.Lists.{groups_of, answers_of, builders_of, first_refused};
ghost use Rattle.assemble.specs.Items.{image_item, strict_item, leniently, strictly};
ghost use Rattle.assemble.specs.Holding.{KeepsMemory, StepsSnippets, StepsSequences, StepsMemory};
ghost use Rattle.assemble.specs.Refusal.{refusal_number, first_number, strict_number};

use calls::{Builders, Call};
use errors::Error;
use memory::{MAX_SEQUENCES, MAX_SNIPPETS};
use pool::{Kept, Pool};
use sequence::SequenceBuilder;
use snippet::SnippetBuilder;

// The last place of a call that has room in a number.
const LAST_PLACE: usize = 16777215;

// Why a list of calls makes no image: a refusal, and the place of its call, counted from 1. The build's own has no place.
#[derive(Debug, Clone, Copy, PartialEq, Eq)]
pub struct Refusal {
    pub error: Error,
    pub place: Option<usize>,
}

impl Refusal {
    // The refusal's number and 256 times its place, 0 where it has none; a later place counts as the last that has room. No `From`: the number
    // is C's word, and the error in it has a number of its own.
    pub fn number(self) -> u32
        ensures { result ≡ refusal_number self }
    {
        let place = self.place.map_or(0, |place| place.min(LAST_PLACE));
        u32::from(self.error.number()) + 256 * place as u32
    }
}

// What a run leaves: the builders, the items kept, how many calls there were, and the first refusal.
#[derive(Clone, Copy)]
struct Ran {
    builders: Builders,
    kept: Kept,
    count: usize,
    first: Option<Refusal>,
}

// Gives the answer to each call: they go to the front of `answers`, as many as fit. Builds nothing, and answers how many calls there are.
pub fn answers(calls: &[u8], answers: &mut [u8]) -> usize
    ensures count { result ≡ length (calls_in calls.now) }
    ensures answers { answers.new ≡ copied answers.old (answers_of calls.now) }
{
    run(calls, answers).count
}

// The snippet, the frame and the sequence under construction after the calls.
pub fn builders(calls: &[u8]) -> Builders
    ensures { result ≡ builders_of calls.now }
{
    run(calls, &mut []).builders
}

// Builds the image of what the accepted calls added, whatever other calls were refused; it goes whole to the front of `image`. Answers the
// build's refusal or, where there is none, BufferTooShort; a refusal leaves `image`.
pub fn assemble(calls: &[u8], image: &mut [u8]) -> Result<(), Error>
    ensures answer { answer_number result ≡ leniently image.old calls.now }
    ensures image { image.new ≡ whole_out image.old (image_item calls.now) }
{
    run(calls, &mut []).kept.image(image)
}

// Builds the image only if no call is refused. Answers the first refusal with its place (the build's own and BufferTooShort come without one); a
// refusal leaves `image`.
pub fn assemble_strict(calls: &[u8], image: &mut [u8]) -> Result<(), Refusal>
    ensures answer { strict_number result ≡ strictly image.old calls.now }
    ensures image { image.new ≡ whole_out image.old (strict_item calls.now) }
{
    let ran = run(calls, &mut []);
    match ran.first {
        Some(refusal) => Err(refusal),
        None => ran
            .kept
            .image(image)
            .map_err(|error| Refusal { error, place: None }),
    }
}

// Runs the calls on new builders; the answers go to the front of the buffer, as many as fit.
fn run(calls: &[u8], answers: &mut [u8]) -> Ran
    ensures builders { result.builders ≡ builders_of calls.now }
    ensures count { result.count ≡ length (calls_in calls.now) }
    ensures told { first_number result.first ≡ first_refused 0 (answers_of calls.now) }
    ensures answers { answers.new ≡ copied answers.old (answers_of calls.now) }
    ensures memory { KeepsMemory (memory_from false (groups_of calls.now).memory) result.kept }
{
    let records = calls.chunks(4);
    let mut ran = Ran {
        builders: Builders::new(),
        kept: Kept::new(),
        count: records.len(),
        first: None,
    };
    for (i, record) in records.enumerate() {
        let answer = step(&mut ran.builders, record, &mut ran.kept);
        laws::store(answers, i, errors::number(answer));
        let place = Some(i + 1);
        ran.first = ran
            .first
            .or(answer.err().map(|error| Refusal { error, place }));
    }
    ran
}

// Makes the call that a record says, on the builders or on the items kept. An item that was accepted is used up.
fn step(b: &mut Builders, record: &[u8], kept: &mut Kept) -> Result<(), Error>
    ensures { StepsMemory b.old (call_of (first_record «record».now)) kept.old (handed (answer_number result) b.new) kept.new }
{
    match Call::read(record) {
        Call::AddSnippet => {
            add_snippet(&mut kept.snippets, b.snippet)?;
            b.snippet = SnippetBuilder::new();
            Ok(())
        }
        Call::AddSequence => {
            add_sequence(&mut kept.sequences, b.sequence)?;
            b.sequence = SequenceBuilder::new();
            Ok(())
        }
        call => b.apply(call),
    }
}

// Puts the snippet behind the others, if it can be built. Two functions over `push`, which takes bytes: memory's trait `Item` lends none out, but
// lays an item where it has room. Written out in the arms of `step`, an image took 8,566 instructions for 7,981.
fn add_snippet(pool: &mut Pool<MAX_SNIPPETS>, b: SnippetBuilder) -> Result<(), Error>
    ensures { StepsSnippets (λ m. with_built with_snippet m (built_snippet b)) pool.old (answer_number result) pool.new }
{
    let snippet = b.build()?;
    pool.push(
        &snippet.bytes()[..snippet.byte_len()],
        Error::TooManySnippets,
    )
}

// Puts the sequence behind the others, if it can be built.
fn add_sequence(pool: &mut Pool<MAX_SEQUENCES>, b: SequenceBuilder) -> Result<(), Error>
    ensures { StepsSequences (λ m. with_built with_sequence m (built_sequence b)) pool.old (answer_number result) pool.new }
{
    let sequence = b.build()?;
    pool.push(sequence.as_bytes(), Error::TooManySequences)
}
