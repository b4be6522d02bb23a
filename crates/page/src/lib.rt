// The printed page of an image (document 02, CR 1; no Rust file): a line for each snippet and each frame.
// Proved: `page` hands out the text of specs/Lines.antt whole, or nothing, for any slice and any buffer; specs/Page.antt: images that print alike are
// equal, and the lines are the request's.
#![tactic(auto)]

ghost use Rattle.std.specs.Prelude.{◌≡◌, ◌+◌, ◌*◌, ◌≤◌, ◌++◌, map, length};
ghost use Rattle.errors.specs.Number.{told};
ghost use Rattle.laws.specs.Bytes.{All};
ghost use Rattle.laws.specs.Copied.{placed};
ghost use Rattle.laws.specs.Lists.{joined};
ghost use Rattle.laws.specs.Whole.{whole, whole_out, length_of};
ghost use Rattle.frame.specs.Frame.{bytes_of};
ghost use Rattle.content.specs.ReadImage.{read_image};
ghost use Rattle.readings.specs.InPlace.{items_at, frames_in};
ghost use Rattle.page.specs.Lines.{digit, two_digits, two_capitals, in_capitals, line, snippet_line, frame_line, frame_lines, numbered, page_item};

use errors::Error;
use frame::FrameBuilder;
use reader::ReadFrames;

// 36 characters and a newline.
const LINE_SIZE: usize = 37;

// Room for any page: a hundred bytes have 94 lines at most.
pub const PAGE_SIZE: usize = 3478;

// Prints the page into the front of `out` and answers its length; or NotAnImage, or last BufferTooShort, and `out` stays.
pub fn page(image: &[u8], out: &mut [u8]) -> Result<usize, Error>
    ensures answer { told result ≡ length_of (whole out.old (page_item (read_image image.now))) }
    ensures buffer { out.new ≡ whole_out out.old (page_item (read_image image.now)) }
{
    let (s, q) = readings::header(image)?;
    let size = LINE_SIZE * lines(image, s, q);
    if out.len() < size {
        return Err(Error::BufferTooShort);
    }
    print_snippets(out, image, s);
    print_sequences(out, image, s, q);
    Ok(size)
}

// ---- the lines of an image of s snippets and q sequences

// How many there are: 255 and 255 times 32 at most.
fn lines(image: &[u8], s: u8, q: u8) -> usize
    ensures value { result ≡ s + length (joined (map frames_in (items_at image.now s q))) }
    ensures upper_bound { result ≤ 8415 }
{
    let mut lines = usize::from(s);
    for i in 0..usize::from(q) {
        lines += frames(readings::item(image, usize::from(s) + i));
    }
    lines
}

// How many frames the bytes are, 32 at most.
fn frames(bytes: &[u8]) -> usize
    ensures { result ≡ length (frames_in bytes.now) }
{
    let mut frames = 0;
    for frame in ReadFrames::new(bytes) {
        if frame.is_ok() {
            frames += 1;
        }
    }
    frames
}

// The snippets' lines, at the front.
fn print_snippets(out: &mut [u8], image: &[u8], s: u8)
    requires { All (λ l. length l ≤ 16) (items_at image.now 0 s) }
    ensures { out.new ≡ placed out.old 0 (joined (numbered snippet_line 1 (items_at image.now 0 s))) }
{
    for i in 0..usize::from(s) {
        let line = snippet_line(i + 1, readings::item(image, i));
        laws::copy_at(out, LINE_SIZE * i, &line);
    }
}

// The frames' lines, behind those of the snippets.
fn print_sequences(out: &mut [u8], image: &[u8], s: u8, q: u8)
    requires { 37 * (s + length (joined (map frames_in (items_at image.now s q)))) ≤ length out.old }
    ensures { out.new ≡ placed out.old (37 * s) (joined (joined (numbered frame_lines 0 (map frames_in (items_at image.now s q))))) }
{
    let mut above = usize::from(s);
    for i in 0..usize::from(q) {
        above += print_frames(out, above, i, readings::item(image, usize::from(s) + i));
    }
}

// The lines of the sequence with this number, behind those above; answers how many they are.
fn print_frames(out: &mut [u8], above: usize, sequence: usize, bytes: &[u8]) -> usize
    requires { 37 * (above + length (frames_in bytes.now)) ≤ length out.old }
    ensures value { result ≡ length (frames_in bytes.now) }
    ensures out_after { out.new ≡ placed out.old (37 * above) (joined (frame_lines sequence (frames_in bytes.now))) }
{
    let mut j = 0;
    for frame in ReadFrames::new(bytes) {
        if let Ok(frame) = frame {
            laws::copy_at(
                out,
                LINE_SIZE * (above + j),
                &frame_line(sequence, j + 1, frame),
            );
            j += 1;
        }
    }
    j
}

// ---- a line

fn snippet_line(number: usize, points: &[u8]) -> [u8; LINE_SIZE]
    requires { length points.now ≤ 16 }
    ensures { result ≡ snippet_line number points.now }
{
    let [tens, ones] = two_digits(number);
    line(&[b'S', tens, ones, b' '], points)
}

fn frame_line(sequence: usize, number: usize, frame: FrameBuilder) -> [u8; LINE_SIZE]
    ensures { result ≡ frame_line sequence number (bytes_of frame) }
{
    let [tens, ones] = two_digits(sequence);
    let [frame_tens, frame_ones] = two_digits(number);
    let head = [b'F', tens, ones, b' ', frame_tens, frame_ones, b' '];
    line(&head, frame.build().as_bytes())
}

// A text and behind it bytes in hexadecimal, blanks to 36, a newline.
fn line(head: &[u8], bytes: &[u8]) -> [u8; LINE_SIZE]
    requires { length head.now + 2 * length bytes.now ≤ 36 }
    ensures { result ≡ line (head.now ++ in_capitals bytes.now) }
{
    let mut line = [b' '; LINE_SIZE];
    line[36] = b'\n';
    laws::copy_into(&mut line, head);
    for (k, byte) in bytes.iter().enumerate() {
        let [high, low] = two_capitals(*byte);
        line[head.len() + 2 * k] = high;
        line[head.len() + 2 * k + 1] = low;
    }
    line
}

// ---- numbers

fn two_digits(n: usize) -> [u8; 2]
    ensures { result ≡ two_digits n }
{
    [digit(n / 10), digit(n % 10)]
}

fn two_capitals(byte: u8) -> [u8; 2]
    ensures { result ≡ two_capitals byte }
{
    [digit(usize::from(byte / 16)), digit(usize::from(byte % 16))]
}

fn digit(n: usize) -> u8
    ensures { result ≡ digit n }
{
    laws::byte_at(b"0123456789ABCDEF", n)
}
