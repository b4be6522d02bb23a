// What no clause says: the bytes of a line's fields, and that a case is judged alike whether its fields come from a line or each by itself.
// The cases are of the stored sample, or one of these with a word changed, a field more or no run. Of the three that begin with 2F,
// docs/LOOK-BACK.md (c) has what the program told before it was written anew.
use std::test::Fail;
use vectors_bytes::{Fields, ReadError};

// An upload of one byte that is no image.
const UPLOAD: &[u8] = b"2D \
    DC0102010B0A60121D007B47AE00D90200000000000301000000000000000001090200000004 00 C9 00 DC422D8090 01019011 A5 \
    DC0102010B0A60121D007B47AE00D90200000000000301000000000000000001090200000000 01000000";

// An upload of no bytes, dropped after one exchange and two bytes of the next, and then run to its end.
const CUT: &[u8] = b"32 \
    EF000200B70D981461002558F700EA0300000000000301000000000000000001040001000001 01 - \
    00\
    F61E08E372C2D484B99DCE95D39087DF0F1C8D974EEDD0BD27EF21BD490A6849160E2917625C34EADD5AF42C052618C433EE\
    6481236B2475B0625C2FEB28AFA8CABA650F55C8E87BA8B8ED9659ACF3C4778B1410D992B6FB01DFB0FB2C444C41EF940478 \
    0101020000\
    F61E08E372C2D484B99DCE95D39087DF0F1C8D974EEDD0BD27EF21BD490A6849160E2917625C34EADD5AF42C052618C433EE\
    6481236B2475B0625C2FEB28AFA8CABA650F55C8E87BA8B8ED9659ACF3C4778B1410D992B6FB01DFB0FB2C444C41EF940478 \
    0200000000\
    F61E08E372C2D484B99DCE95D39087DF0F1C8D974EEDD0BD27EF21BD490A6849160E2917625C34EADD5AF42C052618C433EE\
    6481236B2475B0625C2FEB28AFA8CABA650F55C8E87BA8B8ED9659ACF3C4778B1410D992B6FB01DFB0FB2C444C41EF940478";

// By whom a case is found to agree.
#[derive(Clone, Copy, Debug, PartialEq, Eq)]
struct Judged {
    functions: bool,
    sessions: bool,
    cuts: bool,
}

const BY_NONE: Judged = Judged {
    functions: false,
    sessions: false,
    cuts: false,
};

const BY_FUNCTIONS: Judged = Judged {
    functions: true,
    sessions: false,
    cuts: false,
};

const BY_SESSIONS: Judged = Judged {
    functions: false,
    sessions: true,
    cuts: false,
};

const BY_CUTS: Judged = Judged {
    functions: false,
    sessions: false,
    cuts: true,
};

#[test]
fn fields_of_a_line(rt: HostRuntime) -> Result<(), Fail> {
    let fields = vectors_bytes::read(rt.alloc(), b"2F - 0A-1bF 00".as_slice());
    assert_eq!(rt; fields.err(), Some(ReadError::NotHexadecimal));
    let fields = vectors_bytes::read(rt.alloc(), b"2F - 0A-1BF 00".as_slice());
    assert_eq!(rt;
        fields.err(),
        Some(ReadError::NotHexadecimal),
        "a digit without another"
    );
    let fields = vectors_bytes::read(rt.alloc(), b"2F - 0A-1BF0 00 ".as_slice())?;
    assert_eq!(rt; fields.len(), 5);
    assert_eq!(rt; fields[0].as_slice(), [0x2F].as_slice());
    assert_eq!(rt; fields[1].len(), 0);
    assert_eq!(rt; fields[2].as_slice(), [0x0A, 0x1B, 0xF0].as_slice());
    assert_eq!(rt; fields[3].as_slice(), [0].as_slice());
    assert_eq!(rt; fields[4].len(), 0);
    let mut of_line = Fields::new(rt.alloc());
    let refused = of_line.read(b"AA BB CC-D 00".as_slice());
    assert_eq!(rt; refused.err(), Some(ReadError::NotHexadecimal));
    assert_eq!(rt; of_line.len(), 2, "the fields before the faulty one");
    assert_eq!(rt; of_line.get(1), [0xBB].as_slice());
    assert_eq!(rt; of_line.get(2).len(), 0);
    Ok(())
}

#[test]
fn cases_judged_either_way(rt: HostRuntime) -> Result<(), Fail> {
    let mut of_line = Fields::new(rt.alloc());
    for (line, judged) in [
        (b"01 FF040E - BE -".as_slice(), BY_FUNCTIONS),
        (b"05 - 03050792 01 47".as_slice(), BY_FUNCTIONS),
        (b"01 FF040E - BF -".as_slice(), BY_NONE),
        (b"01 FF040E - BE - -".as_slice(), BY_NONE),
        (
            b"20 - 9101 - 00 918100DA 01010010 A5 - 01000000".as_slice(),
            BY_SESSIONS,
        ),
        (
            b"20 - 9101 - 00 918100DA 01010010 A5 - 01000000 -".as_slice(),
            BY_NONE,
        ),
        (UPLOAD, BY_SESSIONS),
        (b"2F - 1000 - 0B00 - - - - -".as_slice(), BY_SESSIONS),
        (b"2F - 1000 - 000B - - - - -".as_slice(), BY_NONE),
        (b"2F 00 1000 - 0B - - - - -".as_slice(), BY_NONE),
        (CUT, BY_CUTS),
        // no run: without its last two fields, of 210 digits each
        (&CUT[..CUT.len() - 2 * 211], BY_NONE),
    ] {
        let fields = vectors_bytes::read(rt.alloc(), line)?;
        let by_fields = Judged {
            functions: vectors_functions::agrees(&fields),
            sessions: vectors_sessions::agrees(&fields),
            cuts: vectors_cuts::agrees(&fields),
        };
        assert_eq!(rt; by_fields, judged, "each field by itself, of {line:?}");
        of_line.read(line)?;
        assert_eq!(rt; of_line.len(), fields.len());
        let by_line = Judged {
            functions: vectors_functions::line_agrees(&of_line),
            sessions: vectors_sessions::line_agrees(&of_line),
            cuts: vectors_cuts::line_agrees(&of_line),
        };
        assert_eq!(rt; by_line, judged, "the fields of the line {line:?}");
    }
    Ok(())
}
