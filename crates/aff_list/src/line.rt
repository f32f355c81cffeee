// A node's line: path, type word, count. Document 01, 'The lister'.
ghost use Rattle.std.specs.Prelude.{◌≡◌, [], ◌∷◌, ◌++◌, ◌≤◌, length};
ghost use Rattle.aff_format.specs.Verdict.{answer_of};
ghost use Rattle.aff_reader.specs.Opened.{of};
ghost use Rattle.aff_read.specs.Paths.{spelled_path_at, front_written};
ghost use Rattle.aff_format.specs.passes.Written.{Written, text_answer};
ghost use Rattle.aff_spelling.specs.declared.spelling.Spelling.TheVariants.{Escaped};
ghost use Rattle.aff_list.specs.Line.{kind_word, decimal, line_at, line_answer};

use aff_format::{Kind, Refusal, bytes};
use aff_nodes::node;
use aff_read::paths;
use aff_reader::{Belonging, Opened};
use aff_spelling::Spelling;
use itoa::Buffer;

// Writes the type word between two spaces at the front of an output. Returns where they end.
fn put_word(kind: Kind, out: &mut [u8]) -> usize
    requires { 9 ≤ length out.old }
    ensures { Written 0 (32 ∷ (kind_word kind ++ (32 ∷ []))) out.old out.new result }
{
    match kind {
        Kind::Void => bytes::put_run(b" void ", 0, out),
        Kind::Char => bytes::put_run(b" char ", 0, out),
        Kind::Int => bytes::put_run(b" int ", 0, out),
        Kind::Double => bytes::put_run(b" double ", 0, out),
        Kind::Complex => bytes::put_run(b" complex ", 0, out),
    }
}

// What follows the path in a line: a space, the type word, a space, the count.
#[tactic(auto, using(crate::proofs::LineLaws::word_length))]
fn put_tail(kind: Kind, count: u32, out: &mut [u8]) -> usize
    requires { 19 ≤ length out.old }
    ensures { Written 0 (32 ∷ (kind_word kind ++ (32 ∷ decimal 10 count))) out.old out.new result }
{
    let end = put_word(kind, out);
    let mut digits = Buffer::new();
    bytes::put_run(digits.format(count).as_bytes(), end, out)
}

// Writes a node's path, escaped, and a text after it at the front of an output: 21. The passes of the path, and one over the text.
fn with_path(
    belonging: &Belonging<'_, '_>,
    node: usize,
    text: &[u8],
    out: &mut [u8],
) -> Result<usize, Refusal>
    requires { node ≤ belonging.now.opened.reader.nodes }
    ensures answer { answer_of result ≡ text_answer (length out.old) (of belonging.now.opened (spelled_path_at Escaped) node ++ text.now) }
    ensures output { out.new ≡ front_written (answer_of result) (of belonging.now.opened (spelled_path_at Escaped) node ++ text.now) out.old }
{
    if out.len() < text.len() {
        return Err(Refusal::BufferTooSmall);
    }
    let free = out.len() - text.len();
    let length = paths::path_of(Spelling::Escaped, belonging, node, &mut out[..free])?;
    Ok(bytes::put_run(text, length, out))
}

// Writes a node's line at the front of an output: 21. At most 19 bytes follow the path.
pub fn line_of(belonging: &Belonging<'_, '_>, node: usize, out: &mut [u8]) -> Result<usize, Refusal>
    requires { node ≤ belonging.now.opened.reader.nodes }
    ensures answer { answer_of result ≡ text_answer (length out.old) (of belonging.now.opened line_at node) }
    ensures output { out.new ≡ front_written (answer_of result) (of belonging.now.opened line_at node) out.old }
{
    let entry = belonging.entry(node);
    let mut tail = [0u8; 19];
    let size = put_tail(entry.kind, entry.count, &mut tail);
    with_path(belonging, node, &tail[..size], out)
}

// Writes a node's line at the front of an output; the rest of it stays: 24, 15, 21. Returns the line's length.
#[tactic(auto, unfolding(crate::specs::Line::line_answer))]
pub fn line(opened: &Opened<'_, '_>, node: usize, out: &mut [u8]) -> Result<usize, Refusal>
    ensures answer { answer_of result ≡ of opened.now line_answer node (length out.old) }
    ensures output { out.new ≡ front_written (answer_of result) (of opened.now line_at node) out.old }
{
    let belonging = node::judge(opened, node)?;
    line_of(&belonging, node, out)
}
