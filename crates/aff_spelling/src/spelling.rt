// The two spellings of a name, and the passes that measure and write them.
ghost use Rattle.std.specs.Prelude.{◌≡◌, ◌+◌, ◌≤◌, ◌<◌, length};
ghost use Rattle.aff_format.specs.passes.Written.{Written};
ghost use Rattle.aff_spelling.specs.Spelling.{hex_digit, is_plain, shown_byte, shown, spelled};
ghost use Rattle.aff_spelling.specs.Within.{within};

use aff_format::bytes;

// The bytes of a name themselves; or as the listers print them: a byte below 33, above 126 or equal to 92 as `\x` and two small hex digits (request C-15).
// A value and no closure: the definitions `spelled` and `spelled_path_at`, which contracts name, are functions of it.
#[derive(Clone, Copy, Debug, PartialEq, Eq)]
pub enum Spelling {
    Raw,
    Escaped,
}

// Whether a byte is printed as it is.
#[tactic(auto, unfolding(crate::specs::Spelling::is_plain))]
fn is_plain(x: u8) -> bool
    ensures { result ≡ is_plain x }
{
    matches!(x, 33..=126) && x != b'\\'
}

// A hex digit as a character.
#[tactic(auto, unfolding(crate::specs::Spelling::hex_digit))]
fn hex_digit(n: u8) -> u8
    requires { n < 16 }
    ensures { result ≡ hex_digit n }
{
    if n < 10 { b'0' + n } else { b'a' + (n - 10) }
}

// How many bytes are printed for a byte.
#[tactic(auto, unfolding(crate::specs::Spelling::shown_byte))]
fn shown_size(x: u8) -> usize
    ensures { result ≡ length (shown_byte x) }
{
    if is_plain(x) { 1 } else { 4 }
}

// Stores what is printed for a byte, and returns where it ends.
#[tactic(auto, unfolding(crate::specs::Spelling::shown_byte))]
fn put_shown_byte(x: u8, at: usize, out: &mut [u8]) -> usize
    requires { at + length (shown_byte x) ≤ length out.old }
    ensures { Written at (shown_byte x) out.old out.new result }
{
    if is_plain(x) {
        return bytes::put_run(&[x], at, out);
    }
    let escape = [b'\\', b'x', hex_digit(x / 16), hex_digit(x % 16)];
    bytes::put_run(&escape, at, out)
}

// The length of what is printed for some bytes, or nothing where it is above a limit. One pass, over no more bytes than the limit and one.
#[tactic(auto, using(crate::proofs::ShownLaws::counted_past, crate::proofs::ShownLaws::counted_next, crate::proofs::ShownLaws::counted_all))]
fn shown_length(run: &[u8], limit: usize) -> Option<usize>
    ensures { result ≡ within limit (length (shown run.now)) }
{
    let mut left = limit;
    for &x in run {
        left = left.checked_sub(shown_size(x))?;
    }
    Some(limit - left)
}

// Stores what is printed for some bytes, and returns where it ends. One pass over the bytes.
#[tactic(auto, using(crate::proofs::ShownLaws::byte_fits))]
fn put_shown(run: &[u8], at: usize, out: &mut [u8]) -> usize
    requires { at + length (shown run.now) ≤ length out.old }
    ensures { Written at (shown run.now) out.old out.new result }
{
    let mut end = at;
    for &x in run {
        end = put_shown_byte(x, end, out);
    }
    end
}

// The length of some bytes as they are written, or nothing where it is above a limit.
pub fn spelled_length(spelling: Spelling, run: &[u8], limit: usize) -> Option<usize>
    ensures { result ≡ within limit (length (spelled spelling run.now)) }
{
    match spelling {
        Spelling::Raw => (run.len() <= limit).then_some(run.len()),
        Spelling::Escaped => shown_length(run, limit),
    }
}

// Stores some bytes as they are written from a place on, and returns where they end. One pass over the bytes.
pub fn put_spelled(spelling: Spelling, run: &[u8], at: usize, out: &mut [u8]) -> usize
    requires { at + length (spelled spelling run.now) ≤ length out.old }
    ensures { Written at (spelled spelling run.now) out.old out.new result }
{
    match spelling {
        Spelling::Raw => bytes::put_run(run, at, out),
        Spelling::Escaped => put_shown(run, at, out),
    }
}
