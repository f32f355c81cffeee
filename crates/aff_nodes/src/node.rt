// Name, kind, count and data of a node.
ghost use Rattle.std.specs.Prelude.{◌≡◌, ◌+◌, ◌≤◌, length};
ghost use Rattle.std.specs.Result.{IfOk};
ghost use Rattle.aff_format.specs.Answer.{first_wrong};
ghost use Rattle.aff_format.specs.Element.{decoded};
ghost use Rattle.aff_format.specs.Verdict.{answer_of};
ghost use Rattle.aff_reader.specs.Judged.{opened_of};
ghost use Rattle.aff_reader.specs.Opened.{of};
ghost use Rattle.aff_nodes.specs.Answers.{part_of, exists_checks, name_answer, kind_answer, count_answer, view_answer, element_answer};
ghost use Rattle.aff_nodes.specs.Recall.{kind_at, name_span, data_span, span_bytes, bytes_at};

use aff_format::{ElementAnswer, Kind, Refusal, element, recorded};
use aff_reader::{Belonging, Opened, Span};

// 24, 15: what every call on a node judges first.
pub fn judge<'i, 'a>(opened: &Opened<'i, 'a>, node: usize) -> Result<Belonging<'i, 'a>, Refusal>
    ensures { answer_of (opened_of result) ≡ first_wrong (of opened.now exists_checks node) opened.now }
{
    let belonging = opened.judge()?;
    if opened.reader.nodes < node {
        return Err(Refusal::Absent);
    }
    Ok(belonging)
}

// Where the name of a node is.
#[tactic(auto, using(crate::proofs::SpanLaws::name_root, crate::proofs::SpanLaws::name_other, crate::proofs::SpanLaws::name_begins, aff_reader::proofs::BelongsLaws::symbols_within))]
pub fn name_span(belonging: &Belonging<'_, '_>, node: usize) -> Span
    requires { node ≤ belonging.now.opened.reader.nodes }
    ensures { result ≡ of belonging.now.opened name_span node }
{
    if node == 0 {
        return Span::default();
    }
    let Opened { image, strings, .. } = belonging.opened;
    let offset = recorded::place(strings, belonging.entry(node).string as usize);
    let end = belonging.symbols_end();
    let name = recorded::until_zero(&image[offset..end]);
    Span {
        offset,
        size: name.len(),
    }
}

// Where the data of a node are.
#[tactic(auto, using(crate::proofs::SpanLaws::data_void, crate::proofs::SpanLaws::data_full))]
pub fn data_span(belonging: &Belonging<'_, '_>, node: usize) -> Span
    requires { node ≤ belonging.now.opened.reader.nodes }
    ensures { result ≡ data_span belonging.now.opened.image.now belonging.now.opened.entries.now node }
{
    let entry = belonging.entry(node);
    if entry.kind.is_void() {
        return Span::default();
    }
    Span {
        offset: entry.offset as usize,
        size: entry.count as usize * entry.kind.element_size(),
    }
}

// The name of a node: where it is in the image, up to its zero or to the symbol section's end. The root's is empty. Two lines over `judge`, as
// `view_bounds`: a parameter for the span would be longer.
#[tactic(auto, unfolding(crate::specs::Answers::name_answer))]
pub fn name_bounds(opened: &Opened<'_, '_>, node: usize) -> Result<Span, Refusal>
    ensures { answer_of result ≡ of opened.now name_answer node }
{
    let belonging = judge(opened, node)?;
    Ok(name_span(&belonging, node))
}

// The kind of a node. The root is Void.
#[tactic(auto, unfolding(crate::specs::Answers::kind_answer))]
pub fn kind(opened: &Opened<'_, '_>, node: usize) -> Result<Kind, Refusal>
    ensures { answer_of result ≡ of opened.now kind_answer node }
{
    let belonging = judge(opened, node)?;
    Ok(belonging.entry(node).kind)
}

// The count of a node's elements; 0 of a Void one.
#[tactic(auto, unfolding(crate::specs::Answers::count_answer))]
pub fn count(opened: &Opened<'_, '_>, node: usize) -> Result<usize, Refusal>
    ensures { answer_of result ≡ of opened.now count_answer node }
{
    let belonging = judge(opened, node)?;
    Ok(belonging.entry(node).count as usize)
}

// The data of a node: where they are in the image. A Void node has none.
#[tactic(auto, unfolding(crate::specs::Answers::view_answer))]
pub fn view_bounds(opened: &Opened<'_, '_>, node: usize) -> Result<Span, Refusal>
    ensures { answer_of result ≡ of opened.now view_answer node }
{
    let belonging = judge(opened, node)?;
    Ok(data_span(&belonging, node))
}

// The bytes of the image that a span names, where it lies inside. It can't fail: whoever calls it knows that.
fn span_of<'a>(image: &'a [u8], span: Span) -> &'a [u8]
    requires { span.offset + span.size ≤ length image.now }
    ensures { result.now ≡ span_bytes image.now span }
{
    &image[span.offset..span.offset + span.size]
}

// The bytes that an answer names; none where the call was refused.
fn bytes_of<'a>(image: &'a [u8], bounds: Result<Span, Refusal>) -> &'a [u8]
    requires { IfOk bounds (λ span. span.offset + span.size ≤ length image.now) }
    ensures { result.now ≡ part_of image.now (answer_of bounds) }
{
    match bounds {
        Ok(span) => span_of(image, span),
        Err(_) => &image[..0],
    }
}

// The name of a node, as a part of the image; empty where the call is refused. No `Result`: its clause, `part_of`, says that it can't fail. One line over
// `name_bounds`, as `view` over `view_bounds`: a parameter for the span would be longer.
pub fn name<'i>(opened: &Opened<'i, '_>, node: usize) -> &'i [u8]
    ensures { result.now ≡ part_of opened.now.image.now (of opened.now name_answer node) }
{
    bytes_of(opened.image, name_bounds(opened, node))
}

// The data of a node, as a part of the image; empty where the call is refused. No `Result`, as `name`.
pub fn view<'i>(opened: &Opened<'i, '_>, node: usize) -> &'i [u8]
    ensures { result.now ≡ part_of opened.now.image.now (of opened.now view_answer node) }
{
    bytes_of(opened.image, view_bounds(opened, node))
}

// One element of a node's data: 16.
#[tactic(auto, using(crate::proofs::SpanLaws::data_lies))]
pub fn element_of(belonging: &Belonging<'_, '_>, node: usize, index: usize) -> ElementAnswer
    requires { node ≤ belonging.now.opened.reader.nodes }
    ensures { answer_of result ≡ decoded (kind_at belonging.now.opened.image.now belonging.now.opened.entries.now node) (bytes_at belonging.now.opened.image.now belonging.now.opened.entries.now node) index }
{
    let data = span_of(belonging.opened.image, data_span(belonging, node));
    element::decode(belonging.entry(node).kind, data, index)
}

// One element of a node's data.
#[tactic(auto, unfolding(crate::specs::Answers::element_answer))]
pub fn element(opened: &Opened<'_, '_>, node: usize, index: usize) -> ElementAnswer
    ensures { answer_of result ≡ of opened.now element_answer node index }
{
    let belonging = judge(opened, node)?;
    element_of(&belonging, node, index)
}
