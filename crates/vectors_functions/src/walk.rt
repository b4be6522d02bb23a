// An image read item by item.
use vectors_bytes::number;
use vectors_values::{NO_FRAME, NO_POINT};

// How many bytes the words of a point and of a frame have.
const POINT_SIZE: usize = 3;

const FRAME_SIZE: usize = 8;

/// Whether the points of all snippets are as told.
pub(crate) fn points<F: Fn(usize, usize) -> u64>(told: &[u8], point: F) -> bool
    requires { F.IsAlwaysCallable point }
{
    items(told, POINT_SIZE, NO_POINT, point)
}

/// Whether the frames of all sequences are as told.
pub(crate) fn frames<F: Fn(usize, usize) -> u64>(told: &[u8], frame: F) -> bool
    requires { F.IsAlwaysCallable frame }
{
    items(told, FRAME_SIZE, NO_FRAME, frame)
}

// Reads all places of item 0, of 1 and so on up to the first item that has none, and compares each word, as well as that after an
// item's last place, with the next one told, of so many bytes. `none` is the least word of no place.
fn items<F: Fn(usize, usize) -> u64>(told: &[u8], size: usize, none: u64, read: F) -> bool
    requires { F.IsAlwaysCallable read }
{
    let mut rest = told;
    for i in 0..256 {
        for j in 0..256 {
            let word = read(i, j);
            let Some((next, after)) = rest.split_at_checked(size) else {
                return false;
            };
            if number(next) != word {
                return false;
            }
            rest = after;
            if none <= word {
                if j == 0 {
                    return rest.is_empty();
                }
                break;
            }
        }
    }
    false
}
