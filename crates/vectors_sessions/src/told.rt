// The exchanges that a case tells.
use exchange::Reply;
use vectors_bytes::MARKER;

/// An exchange: the chip address, the bytes sent, whether a byte is wanted, and what the bus answers.
#[derive(Clone, Copy)]
pub struct Told<'a> {
    address: u8,
    sent: &'a [u8],
    wanted: bool,
    pub reply: Reply,
}

/// The exchange in front and those after it; `None` if there is not a whole one.
pub fn split(exchanges: &[u8]) -> Option<(Told<'_>, &[u8])> {
    let (head, rest) = exchanges.split_first_chunk::<2>()?;
    let [address, flags] = *head;
    let (sent, rest) = rest.split_at_checked((flags % 0x40) as usize)?;
    let wanted = flags & 0x80 != 0;
    let failed = flags & 0x40 != 0;
    let (reply, rest) = if failed {
        let (code, rest) = rest.split_first()?;
        (Reply::Failed(*code), rest)
    } else if wanted {
        let (byte, rest) = rest.split_first()?;
        (Reply::Byte(*byte), rest)
    } else {
        (Reply::Done, rest)
    };
    Some((
        Told {
            address,
            sent,
            wanted,
            reply,
        },
        rest,
    ))
}

impl Told<'_> {
    /// Whether this is what is pending, by its word and the bytes that it left in a buffer lent.
    pub fn is_pending(&self, word: u32, buffer: &[u8]) -> bool {
        let [zero, wanted, address, len] = word.to_be_bytes();
        zero == 0
            && wanted == u8::from(self.wanted)
            && address == self.address
            && usize::from(len) == self.sent.len()
            && buffer.starts_with(self.sent)
            && buffer.iter().skip(self.sent.len()).all(|x| *x == MARKER)
    }
}
