// Put data.
ghost use Rattle.std.specs.Prelude.{◌≡◌, false, [], ◌∷◌, ◌+◌, ◌≤◌, ◌<◌, length};
ghost use Rattle.aff_format.specs.Answer.{first_wrong, check, refusal};
ghost use Rattle.aff_format.specs.Bytes.{spliced};
ghost use Rattle.aff_format.specs.Element.{count_in};
ghost use Rattle.aff_format.specs.Entry.{slot_bytes};
ghost use Rattle.aff_format.specs.Kind.{is_void, kind_of};
ghost use Rattle.aff_format.specs.Limits.{image_limit, node_limit, tree_area};
ghost use Rattle.aff_format.specs.Verdict.{answer_of};
ghost use Rattle.aff_areas.specs.Areas.{slot_at};
ghost use Rattle.aff_areas.specs.Stores.{buffer_after};
ghost use Rattle.aff_areas.specs.Writer.{writer_after, area_after};
ghost use Rattle.aff_write.specs.Put.{takes_none, wrong_data, data_kind, put_place, put_stores, store_check, entry_checks, put_writer, put_entry, put_tree, put_answer};

use aff_areas::{Given, Held, Writer, areas, store};
use aff_format::{Entry, Kind, Refusal, align};

// 18.
#[tactic(auto, unfolding(crate::specs::Put::takes_none))]
fn takes_none(tree: &[u8], node: usize) -> bool
    requires { node ≤ node_limit }
    ensures { result ≡ takes_none tree.now node }
{
    node == 0 || !areas::slot_entry(tree, node).kind.is_void()
}

// 19: the kind of a type that holds data, where so many bytes are whole elements of it.
fn data_kind(code: u64, size: usize) -> Result<Kind, Refusal>
    ensures { answer_of result ≡ first_wrong (check (wrong_data (kind_of code) size) (refusal 19) ∷ []) (data_kind (kind_of code)) }
{
    let kind = Kind::from_code(code).ok_or(Refusal::WrongData)?;
    if kind.is_void() || size % kind.element_size() != 0 {
        return Err(Refusal::WrongData);
    }
    Ok(kind)
}

// How many elements of a kind that holds data some bytes are. That it holds data is a clause: 19 has judged the kind, and a type for four of the five
// kinds would stand beside `Kind`, which 01 names.
fn count_in(kind: Kind, bytes: &[u8]) -> usize
    requires { is_void kind ≡ false }
    ensures value { result ≡ count_in kind bytes.now }
    ensures most { result ≤ length bytes.now }
{
    bytes.len() / kind.element_size()
}

// Where the next data begin.
fn put_place(writer: &Writer) -> usize
    requires { writer.now.end ≤ image_limit }
    ensures { result ≡ put_place writer.now }
{
    writer.end + align::padding(writer.end)
}

// Gives a node its kind, count and data offset.
fn fill_slot(writer: &Writer, tree: &mut [u8], node: usize, kind: Kind, bytes: &[u8])
    requires above_root { 0 < node }
    requires in_limit { node ≤ node_limit }
    requires tree_area_is { length tree.old ≡ tree_area }
    requires holds_data { is_void kind ≡ false }
    requires data_end { put_place writer.now + length bytes.now < 2147483648 }
    ensures { tree.new ≡ spliced (slot_at node) (slot_bytes (put_entry writer.now tree.old node kind bytes.now)) tree.old }
{
    let old = areas::slot_entry(tree, node);
    let entry = Entry {
        kind,
        parent: old.parent,
        string: old.string,
        count: count_in(kind, bytes) as u32,
        offset: put_place(writer) as u64,
    };
    areas::put_slot(tree, node, entry);
}

// Stores the padding and the data as far as allowed, and where all are stored gives them to the node: 23.
fn put_bytes(
    buffer: &mut [u8],
    writer: &mut Writer,
    tree: &mut [u8],
    node: usize,
    kind: Kind,
    bytes: &[u8],
    allowance: usize,
) -> Result<usize, Refusal>
    requires above_root { 0 < node }
    requires in_limit { node ≤ node_limit }
    requires tree_area_is { length tree.old ≡ tree_area }
    requires holds_data { is_void kind ≡ false }
    requires data_inside { put_place writer.old + length bytes.now ≤ length buffer.old }
    requires buffer_small { length buffer.old < 2147483648 }
    ensures answer { answer_of result ≡ first_wrong (store_check writer.old bytes.now allowance) (length (put_stores writer.old bytes.now)) }
    ensures record { writer.new ≡ writer_after (answer_of result) (put_writer writer.old bytes.now) writer.old }
    ensures buffer { buffer.new ≡ buffer_after (answer_of result) (put_stores writer.old bytes.now) buffer.old }
    ensures tree { tree.new ≡ area_after (answer_of result) (spliced (slot_at node) (slot_bytes (put_entry writer.old tree.old node kind bytes.now)) tree.old) tree.old }
{
    let zeros = [0u8; 8];
    let place = put_place(writer);
    let pad = place - writer.end;
    let made = store::store_both(buffer, writer.end, &zeros[..pad], place, bytes, allowance);
    if made < pad + bytes.len() {
        *writer = writer.stopped();
        return Err(Refusal::AllowanceSpent(made));
    }
    fill_slot(writer, tree, node, kind, bytes);
    *writer = writer.with_end(place + bytes.len());
    Ok(made)
}

// 15, 18, 19, 21, of a record that belongs: the kind of the data.
fn kind_put(held: &Held<'_>, node: usize, kind: u64, bytes: &[u8]) -> Result<Kind, Refusal>
    ensures { answer_of result ≡ first_wrong (entry_checks held.now.given.writer held.now.given.tree.now node kind bytes.now) (data_kind (kind_of kind)) }
{
    let Given { writer, tree, .. } = held.given;
    if writer.nodes < node {
        return Err(Refusal::Absent);
    }
    if takes_none(tree, node) {
        return Err(Refusal::DataTaken);
    }
    let kind = data_kind(kind, bytes.len())?;
    if writer.length < held.finished_size() + 12 + align::padding(writer.end) + bytes.len() {
        return Err(Refusal::BufferTooSmall);
    }
    Ok(kind)
}

// Puts data into a node, once: 24, 22, 15, 18, 19, 21, 23. `kind` is the code of the type, 2 to 5; the data's bytes are those that the file
// is to have. It answers the stores made. `kind` stays a number, since C passes any: 19 judges it (`wrong_data`).
// Buffer and areas stay three parameters: `aff_make`, `aff_put` and `aff_close` of include/aff.h lend each with a constness of its own.
#[tactic(auto, unfolding(crate::specs::Put::put_answer, aff_areas::specs::Stores::apply_stores))]
pub fn put(
    buffer: &mut [u8],
    writer: &mut Writer,
    text: &[u8],
    tree: &mut [u8],
    node: usize,
    kind: u64,
    bytes: &[u8],
    allowance: usize,
) -> Result<usize, Refusal>
    ensures answer { answer_of result ≡ put_answer (length buffer.old) writer.old text.now tree.old node kind bytes.now allowance }
    ensures record { writer.new ≡ writer_after (answer_of result) (put_writer writer.old bytes.now) writer.old }
    ensures buffer { buffer.new ≡ buffer_after (answer_of result) (put_stores writer.old bytes.now) buffer.old }
    ensures tree { tree.new ≡ area_after (answer_of result) (put_tree writer.old tree.old node kind bytes.now) tree.old }
{
    let given = Given {
        size: buffer.len(),
        writer: *writer,
        text,
        tree,
    };
    let held = given.judge()?;
    let kind = kind_put(&held, node, kind, bytes)?;
    put_bytes(buffer, writer, tree, node, kind, bytes, allowance)
}
