// Runs of bytes.
ghost use Rattle.std.specs.Prelude.{◌≡◌, ◌+◌, ◌≤◌, ◌==◌, length, position};
ghost use Rattle.std.specs.List.{position_or_len};
ghost use Rattle.aff_format.specs.Bytes.{same_bytes, spliced};
ghost use Rattle.aff_format.specs.passes.Written.{Written};

// Whether two runs are the same bytes. A function, so that one contract says `same_bytes`.
#[tactic(auto, using(crate::proofs::StdLaws::same_bytes_is))]
pub fn same(a: &[u8], b: &[u8]) -> bool
    ensures { result ≡ same_bytes a.now b.now }
{
    a == b
}

// The first place of a byte.
pub fn find_byte(bytes: &[u8], byte: u8) -> Option<usize>
    ensures { result ≡ position (λ x. x == byte) bytes.now }
{
    bytes.iter().position(|&x| x == byte)
}

// How many bytes stand before the first that is `byte`: all of them where none is.
pub fn bytes_before(bytes: &[u8], byte: u8) -> usize
    ensures value { result ≡ position_or_len (λ x. x == byte) bytes.now }
    ensures inside { result ≤ length bytes.now }
{
    find_byte(bytes, byte).unwrap_or(bytes.len())
}

// Stores a run from a place on, byte by byte and ascending. Not by std's `copy_from_slice`: that is compiled to `memmove`, which the archive for C would then
// need from outside.
#[tactic(auto, using(crate::proofs::CopyLaws::copied_none, crate::proofs::CopyLaws::copied_all))]
pub fn put(out: &mut [u8], at: usize, run: &[u8])
    requires { at + length run.now ≤ length out.old }
    ensures { out.new ≡ spliced at run.now out.old }
{
    for i in 0..run.len() {
        out[at + i] = run[i];
    }
}

// Stores a run from a place on, and returns where it ends. One pass over the run.
// No heap: an area is lent and the end returned; a struct of both would be a Vec of our own.
pub fn put_run(run: &[u8], at: usize, out: &mut [u8]) -> usize
    requires { at + length run.now ≤ length out.old }
    ensures { Written at run.now out.old out.new result }
{
    put(out, at, run);
    at + run.len()
}
