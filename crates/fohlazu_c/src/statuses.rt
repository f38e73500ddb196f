//! The statuses that calls return, by the numbers that the C header lists, and what they say.

ghost use Rattle.std.specs.Prelude.{◌≡◌, ◌<◌, length};
ghost use Rattle.fohlazu_c.specs.Statuses.{placed, status_text};

pub(crate) const OK: i32 = 0;

pub(crate) const SIZE_TOO_LARGE: i32 = 1;

pub(crate) const NO_SUCH_TREE: i32 = 8;

pub(crate) const OUT_OF_MEMORY: i32 = 12;

pub(crate) const WRONG_COUNT: i32 = 13;

pub(crate) const WRONG_LENGTHS: i32 = 14;

/// Writes what a status says to `text`, in ASCII, and a zero behind it. With less room it writes the first bytes and
/// the zero, and with none nothing. It returns how many bytes the whole text has, without its zero: fewer than 64.
// A call for C may not return a pointer, so the text goes into a buffer of the caller's.
#[unsafe(no_mangle)]
pub extern "C" fn fohlazu_error_text(status: i32, text: &mut [u8]) -> usize
    ensures length { result ≡ length (status_text status) }
    ensures text { text.new ≡ placed (status_text status) text.old }
    ensures short { result < 64 }
{
    let words = words_of(status).as_bytes();
    if !text.is_empty() {
        let count = words.len().min(text.len() - 1);
        text[..count].copy_from_slice(&words[..count]);
        text[count] = 0;
    }
    words.len()
}

/// What a status says.
fn words_of(status: i32) -> &'static str
    ensures { result.now ≡ status_text status }
{
    match status {
        0 => "no error",
        1 => "the size is above 2^62",
        2 => "the index is not below the size",
        3 => "the new size is below the old size",
        4 => "the proof has too few digests",
        5 => "the proof has too many digests",
        6 => "the proof is of another old root",
        7 => "the proof is of another root",
        8 => "no tree has this arity or this rule",
        9 => "no matrix has a row",
        10 => "no tree is over these heights",
        11 => "the rows have more or fewer bytes than their widths",
        12 => "out of memory",
        13 => "there are not as many leaf hashes as lengths",
        14 => "the lengths do not add up to that of the bytes",
        _ => "no such status",
    }
}
