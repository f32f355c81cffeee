// Make a child.
ghost use Rattle.std.specs.Prelude.{◌≡◌, false, ◌+◌, ◌≤◌, ltb, length};
ghost use Rattle.aff_format.specs.Answer.{first_wrong};
ghost use Rattle.aff_format.specs.Kind.{entry_size};
ghost use Rattle.aff_format.specs.Limits.{node_limit, string_limit, text_area};
ghost use Rattle.aff_format.specs.Verdict.{answer_of};
ghost use Rattle.aff_format.specs.declared.kind.Kind.TheVariants.{Void};
ghost use Rattle.aff_areas.specs.Areas.{names_in, finished_size};
ghost use Rattle.aff_areas.specs.Belongs.{WriterBelongs};
ghost use Rattle.aff_areas.specs.Writer.{writer_after, area_after};
ghost use Rattle.aff_make.specs.Make.{string_number, added_text, too_many, size_checks, named_checks, child_checks, made_writer, made_text, made_tree, make_answer};

use aff_areas::{Given, Held, Writer, areas, names};
use aff_format::{Edition, Entry, Kind, Refusal, limits, subkey};

// The name of a child to be made, in a record that belongs: with the number of the lowest string that is the name, or of the one that it will be.
#[derive(Clone, Copy, Debug, PartialEq, Eq)]
struct Named<'a> {
    held: Held<'a>,
    name: &'a [u8],
    string: usize,
    ghost numbered: { string ≡ string_number held.given.writer held.given.text.now name.now },
}

impl Named<'_> {
    ghost use Rattle.std.specs.Prelude.{◌≡◌, ◌≤◌, ◌+◌, ltb, length};
    ghost use Rattle.aff_format.specs.Answer.{first_wrong};
    ghost use Rattle.aff_format.specs.Kind.{entry_size};
    ghost use Rattle.aff_format.specs.Verdict.{answer_of};
    ghost use Rattle.aff_format.specs.declared.kind.Kind.TheVariants.{Void};
    ghost use Rattle.aff_areas.specs.Areas.{finished_size};
    ghost use Rattle.aff_make.specs.Make.{string_number, added_strings, added_text, too_many, size_checks};

    // Strings that the name adds: a name that is one already adds none.
    fn added_strings(&self) -> usize
        ensures value { result ≡ added_strings self.now.held.given.writer self.now.held.given.text.now self.now.name.now }
        ensures most { result ≤ 1 }
    {
        if self.string < self.held.given.writer.strings {
            0
        } else {
            1
        }
    }

    // Bytes that it adds to the text.
    fn added_text(&self) -> usize
        ensures value { result ≡ added_text self.now.held.given.writer self.now.held.given.text.now self.now.name.now }
        ensures most { result ≤ length self.now.name.now + 1 }
    {
        if self.string < self.held.given.writer.strings {
            0
        } else {
            self.name.len() + 1
        }
    }

    // 20.
    #[tactic(auto, unfolding(crate::specs::Make::too_many))]
    fn too_many(&self) -> bool
        ensures { result ≡ too_many self.now.held.given.writer self.now.held.given.text.now self.now.name.now }
    {
        let writer = self.held.given.writer;
        limits::NODE_LIMIT < writer.nodes + 1
            || limits::STRING_LIMIT < writer.strings + self.added_strings()
            || limits::TEXT_AREA < writer.text + self.added_text()
    }

    // 21.
    fn too_small(&self) -> bool
        ensures { result ≡ ltb self.now.held.given.writer.length (finished_size self.now.held.given.writer self.now.held.given.tree.now + entry_size Void + added_text self.now.held.given.writer self.now.held.given.text.now self.now.name.now) }
    {
        let size = self.held.finished_size();
        self.held.given.writer.length < size + Edition::VOID_ENTRY + self.added_text()
    }

    // 20, 21: the number of its string.
    fn number(&self) -> Result<usize, Refusal>
        ensures { answer_of result ≡ first_wrong (size_checks self.now.held.given.writer self.now.held.given.text.now self.now.held.given.tree.now self.now.name.now) (string_number self.now.held.given.writer self.now.held.given.text.now self.now.name.now) }
    {
        if self.too_many() {
            return Err(Refusal::TooMany);
        }
        if self.too_small() {
            return Err(Refusal::BufferTooSmall);
        }
        Ok(self.string)
    }
}

// 17, 20, 21: the number of the child's string. The strings that are the name are marked once; a sibling has the name exactly where its string is marked.
fn number_named(held: &Held<'_>, parent: usize, name: &[u8]) -> Result<usize, Refusal>
    ensures { answer_of result ≡ first_wrong (named_checks held.now.given.writer held.now.given.text.now held.now.given.tree.now parent name.now) (string_number held.now.given.writer held.now.given.text.now name.now) }
{
    let Given { writer, tree, .. } = held.given;
    let mut marks = [0u8; limits::STRING_LIMIT];
    names::mark_strings(held.used_text(), name, &mut marks);
    if names::any_marked(&marks, tree, writer.nodes, parent) {
        return Err(Refusal::ChildExists);
    }
    let string = names::first_mark(&marks, writer.strings);
    let named = Named {
        held: *held,
        name,
        string,
    };
    named.number()
}

// 15, 14, 17, 20, 21: the number of the child's string.
fn number_child(held: &Held<'_>, parent: usize, name: &[u8]) -> Result<usize, Refusal>
    ensures { answer_of result ≡ first_wrong (child_checks held.now.given.writer held.now.given.text.now held.now.given.tree.now parent name.now) (string_number held.now.given.writer held.now.given.text.now name.now) }
{
    let writer = held.given.writer;
    if writer.nodes < parent {
        return Err(Refusal::Absent);
    }
    if let Some(place) = subkey::subkey(Edition::by_number(writer.edition), name) {
        return Err(Refusal::Malformed(place));
    }
    number_named(held, parent, name)
}

// Stores the child's slot and, where it is new, its name.
#[tactic(auto, using(crate::proofs::MakeLaws::string_few, crate::proofs::MakeLaws::is_old, crate::proofs::MakeLaws::is_new, crate::proofs::MakeLaws::text_old, crate::proofs::MakeLaws::text_new, crate::proofs::MakeLaws::tree_made_lem))]
fn add_child(
    writer: &mut Writer,
    text: &mut [u8],
    tree: &mut [u8],
    parent: usize,
    name: &[u8],
    string: usize,
)
    requires belongs { WriterBelongs writer.old.length writer.old text.old tree.old }
    requires numbered { string ≡ string_number writer.old text.old name.now }
    requires has_room { too_many writer.old text.old name.now ≡ false }
    ensures record { writer.new ≡ made_writer writer.old text.old name.now }
    ensures text { text.new ≡ made_text writer.old text.old name.now }
    ensures tree { tree.new ≡ made_tree writer.old text.old tree.old parent name.now }
{
    let entry = Entry {
        kind: Kind::Void,
        parent: parent as u64,
        string: string as u32,
        count: 0,
        offset: 0,
    };
    areas::put_slot(tree, writer.nodes + 1, entry);
    if string < writer.strings {
        *writer = writer.with_child(0, 0);
        return;
    }
    areas::put_name(text, writer.text, name);
    *writer = writer.with_child(1, name.len() + 1);
}

// Makes a child of a node, Void and with a name: 24, 22, 15, 14 with the place in the name, 17, 20, 21. It answers the new node's number, and stores
// nothing in the buffer.
// Buffer and areas stay three parameters: `aff_make`, `aff_put` and `aff_close` of include/aff.h lend each with a constness of its own.
#[tactic(auto, unfolding(crate::specs::Make::make_answer))]
pub fn make(
    buffer: &[u8],
    writer: &mut Writer,
    text: &mut [u8],
    tree: &mut [u8],
    parent: usize,
    name: &[u8],
) -> Result<usize, Refusal>
    ensures answer { answer_of result ≡ make_answer (length buffer.now) writer.old text.old tree.old parent name.now }
    ensures record { writer.new ≡ writer_after (answer_of result) (made_writer writer.old text.old name.now) writer.old }
    ensures text { text.new ≡ area_after (answer_of result) (made_text writer.old text.old name.now) text.old }
    ensures tree { tree.new ≡ area_after (answer_of result) (made_tree writer.old text.old tree.old parent name.now) tree.old }
{
    let given = Given {
        size: buffer.len(),
        writer: *writer,
        text,
        tree,
    };
    let held = given.judge()?;
    let string = number_child(&held, parent, name)?;
    add_child(writer, text, tree, parent, name, string);
    Ok(writer.nodes)
}
