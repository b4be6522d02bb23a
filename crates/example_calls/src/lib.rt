// A pattern of the program `example` once more, as a list of builder calls in bytes, made by the form that stops at the first refusal.
// Proved: every function returns.

#![tactic(auto)]

use assemble::Refusal;
use show::Image;
use std::io;

// The calls of 'shallow ahead', its refused ramp among them: the code and the arguments of each, as include/da728x.h has them.
const AHEAD: [[u8; 4]; 21] = [
    [2, 8, 3, 0],
    [2, 8, 7, 0],
    [2, 9, 0, 0],
    [2, 4, 0, 0],
    [13, 0, 0, 0],
    [5, 1, 0, 0],
    [7, 1, 0, 0],
    [8, 2, 0, 0],
    [9, 0, 0, 0],
    [10, 120, 0, 0],
    [12, 0, 0, 0],
    [6, 0, 0, 0],
    [8, 3, 0, 0],
    [12, 0, 0, 0],
    [5, 1, 0, 0],
    [7, 0, 0, 0],
    [8, 2, 0, 0],
    [9, 1, 0, 0],
    [10, 120, 0, 0],
    [12, 0, 0, 0],
    [14, 0, 0, 0],
];

// Where the refused ramp stands, and the good one in its place.
const REFUSED: usize = 2;

const MENDED: [u8; 4] = [2, 8, 0, 0];

/// Makes the image, which fails at the refused call, then with that call mended.
pub fn ahead(rt: &impl Print) -> io::Result<()> {
    let mut calls = AHEAD;
    let mut image = [0u8; 100];
    println!(rt;
        "\nshallow ahead as a list of calls, by the form that stops at the first refusal"
    )?;
    tell(
        rt,
        assemble::assemble_strict(calls.as_flattened(), &mut image),
    )?;
    calls[REFUSED] = MENDED;
    println!(rt; "\nthe same list, the refused ramp with a length of 8")?;
    tell(
        rt,
        assemble::assemble_strict(calls.as_flattened(), &mut image),
    )?;
    print!(rt; "{}", Image(&image))
}

fn tell(rt: &impl Print, answer: Result<(), Refusal>) -> io::Result<()> {
    match answer {
        Ok(()) => print!(rt; "  made"),
        Err(Refusal { place, error }) => {
            let error = show::Refusal(error);
            let place = place.unwrap_or(0);
            println!(rt; "  refused with {error} at call {place}")
        }
    }
}
