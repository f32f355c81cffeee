// The path of a node, and lookup by path. A path is its parent's front, a slash and its own name; the root's front is empty.
ghost use Rattle.std.specs.Prelude.{◌≡◌, [], ◌∷◌, ◌+◌, ◌-◌, ◌^◌, ◌≤◌, ◌<◌, length, get_or, take, drop};
ghost use Rattle.aff_format.specs.Bytes.{same_bytes, part};
ghost use Rattle.aff_format.specs.Limits.{node_limit};
ghost use Rattle.aff_reader.specs.Opened.{of, opened_entry};
ghost use Rattle.aff_format.specs.Recorded.{name_from};
ghost use Rattle.aff_format.specs.Verdict.{answer_of};
ghost use Rattle.aff_read.specs.Paths.{spelled_path_at, path_answer, front_written, found, lookup_answer, lookup_of_answer};
ghost use Rattle.aff_read.specs.passes.Climb.{table_parent, table_name, table_front, TableInside, NotedMore, ClimbNoted};
ghost use Rattle.aff_read.specs.passes.Held.{holds, symbols_from};
ghost use Rattle.aff_read.specs.passes.Fit.{fit_from, fit_at, above_at, FitsSettled, Chain};
ghost use Rattle.aff_format.specs.Strings.{up_to_zero};
ghost use Rattle.std.specs.Prelude.{Some, None, IfSome};
ghost use Rattle.aff_nodes.specs.Recall.{name_at, name_span, path_at};
ghost use Rattle.aff_format.specs.passes.Written.{Written, text_answer};
ghost use Rattle.aff_spelling.specs.Spelling.{spelled};
ghost use Rattle.aff_spelling.specs.Within.{within};

use aff_format::{Edition, Refusal, bytes, path as format_path, recorded};
use aff_nodes::node;
use aff_reader::{Belonging, Opened};
use aff_spelling::{Spelling, spelling};
use std::marker::Model;

// The symbol section from a string on.
fn symbols_from<'i>(belonging: &Belonging<'i, '_>, string: u32) -> &'i [u8]
    requires { string < belonging.now.opened.reader.strings }
    ensures { result.now ≡ of belonging.now.opened symbols_from string }
{
    let Opened { image, strings, .. } = belonging.opened;
    &image[recorded::place(strings, string as usize)..belonging.symbols_end()]
}

// The length of a slash and a node's name as it is written, or nothing where it is above a limit. No byte of the name is read past the limit.
fn own_length(
    spelling: Spelling,
    belonging: &Belonging<'_, '_>,
    node: usize,
    limit: usize,
) -> Option<usize>
    requires node_exists { node ≤ belonging.now.opened.reader.nodes }
    ensures { result ≡ within limit (length (spelled spelling (of belonging.now.opened name_at node)) + 1) }
{
    if limit == 0 {
        return None;
    }
    if node == 0 {
        return Some(1);
    }
    let symbols = symbols_from(belonging, belonging.entry(node).string);
    let name = recorded::until_zero(&symbols[..limit.min(symbols.len())]);
    let length = spelling::spelled_length(spelling, name, limit - 1)?;
    Some(length + 1)
}

// The length of a node's path as it is written, or nothing where it is above a limit. Each step of the climb counts a byte at least, and no name is read
// past the limit: at most `limit` bytes, and `limit` + 1 steps.
pub fn path_length(
    spelling: Spelling,
    belonging: &Belonging<'_, '_>,
    node: usize,
    limit: usize,
) -> Option<usize>
    requires node_exists { node ≤ belonging.now.opened.reader.nodes }
    ensures { result ≡ within limit (length (of belonging.now.opened (spelled_path_at spelling) node)) }
{
    let mut left = limit;
    let mut at = node;
    // It follows parents and counts no index, so no `for` fits.
    loop {
        let own = own_length(spelling, belonging, at, left)?;
        left -= own;
        at = belonging.parent(at);
        if at == 0 {
            return Some(limit - left);
        }
    }
}

// What the table of a climb holds of a node: its parent, and where its name begins and ends in the image. Places of four bytes and no slice: the table
// stands on the stack, which is limited.
#[derive(Clone, Copy, Debug, PartialEq, Eq, Default)]
struct Noted {
    parent: u32,
    from: u32,
    end: u32,
}

// Stores a node other than the root in the table of a climb. Reads one entry and one name. Returns the parent.
fn note(belonging: &Belonging<'_, '_>, node: usize, table: &mut [Noted; 2049]) -> usize
    requires node_exists { node ≤ belonging.now.opened.reader.nodes }
    requires other { 0 < node }
    requires table_inside { TableInside belonging.now.opened.image.now table.old }
    ensures parent { result ≡ (opened_entry belonging.now.opened node).parent }
    ensures table { holds belonging.now.opened NotedMore table.old table.new node }
{
    let Opened { image, strings, .. } = belonging.opened;
    let entry = belonging.entry(node);
    let from = recorded::place(strings, entry.string as usize);
    let end = recorded::name_end(image, from, belonging.symbols_end());
    table[node] = Noted {
        parent: entry.parent as u32,
        from: from as u32,
        end: end as u32,
    };
    entry.parent as usize
}

// Stores the nodes of the climb from a node to the root, and no others, in the table of the climb.
#[tactic(auto, using(crate::proofs::ClimbLaws::climbing_start))]
fn note_climb(belonging: &Belonging<'_, '_>, node: usize, table: &mut [Noted; 2049])
    requires node_exists { node ≤ belonging.now.opened.reader.nodes }
    requires table_inside { TableInside belonging.now.opened.image.now table.old }
    ensures { holds belonging.now.opened ClimbNoted table.new node }
{
    let mut at = node;
    // It follows parents and counts no index, so no `for` fits.
    while at != 0 {
        at = note(belonging, at, table);
    }
}

// Writes a slash and a node's name in a spelling from a place on, by the table of a climb. Returns where the name ends.
fn put_own(
    spelling: Spelling,
    image: &[u8],
    table: &[Noted; 2049],
    node: usize,
    at: usize,
    out: &mut [u8],
) -> usize
    requires table_inside { TableInside image.now table.now }
    requires node_exists { node ≤ node_limit }
    requires name_fits { at + length (47 ∷ spelled spelling (table_name image.now table.now node)) ≤ length out.old }
    ensures { Written at (47 ∷ spelled spelling (table_name image.now table.now node)) out.old out.new result }
{
    let Noted { from, end, .. } = table[node];
    out[at] = b'/';
    spelling::put_spelled(spelling, &image[from as usize..end as usize], at + 1, out)
}

// Writes what precedes the slash of a node's children, names in a spelling, by the table of a climb: first that of its parent, then a slash and the
// node's own name. At most `left` steps up. Returns where it ends. Recursion depth is at most 2,048, and a frame is 48 bytes as compiled for x86-64: a
// level keeps no record, only the spelling and what the table is read with.
fn write_front(
    spelling: Spelling,
    image: &[u8],
    table: &[Noted; 2049],
    node: usize,
    left: usize,
    out: &mut [u8],
) -> usize
    requires table_inside { TableInside image.now table.now }
    requires node_exists { node ≤ node_limit }
    requires front_fits { length (table_front spelling image.now table.now left node) ≤ length out.old }
    ensures { Written 0 (table_front spelling image.now table.now left node) out.old out.new result }
{
    if left == 0 || node == 0 {
        return 0;
    }
    let parent = table[node].parent as usize;
    let at = write_front(spelling, image, table, parent, left - 1, out);
    put_own(spelling, image, table, node, at, out)
}

// Writes the path of a node in a spelling: 21. It measures first, so that at most three times the output's length is read: to measure,
// to find each name's end, to copy; four times where names are escaped, since a name is then read twice to measure it. The stack holds the table of the climb,
// 24,588 bytes, and the frames of `write_front`: about 123,000 bytes for a climb of 2,048 nodes.
pub fn path_of(
    spelling: Spelling,
    belonging: &Belonging<'_, '_>,
    node: usize,
    out: &mut [u8],
) -> Result<usize, Refusal>
    requires { node ≤ belonging.now.opened.reader.nodes }
    ensures answer { answer_of result ≡ text_answer (length out.old) (of belonging.now.opened (spelled_path_at spelling) node) }
    ensures output { out.new ≡ front_written (answer_of result) (of belonging.now.opened (spelled_path_at spelling) node) out.old }
{
    path_length(spelling, belonging, node, out.len()).ok_or(Refusal::BufferTooSmall)?;
    if node == 0 {
        return Ok(bytes::put_run(b"/", 0, out));
    }
    let mut table = [Noted::default(); 2049];
    note_climb(belonging, node, &mut table);
    let Opened { image, reader, .. } = belonging.opened;
    Ok(write_front(spelling, image, &table, node, reader.nodes, out))
}

// Writes the path of a node, root first, at the front of an output; the rest of it stays: 24, 15, 21. Returns the path's length.
#[tactic(auto, unfolding(crate::specs::Paths::path_answer))]
pub fn path(opened: &Opened<'_, '_>, node: usize, out: &mut [u8]) -> Result<usize, Refusal>
    ensures answer { answer_of result ≡ of opened.now path_answer node (length out.old) }
    ensures output { out.new ≡ front_written (answer_of result) (of opened.now path_at node) out.old }
{
    let belonging = node::judge(opened, node)?;
    path_of(Spelling::Raw, &belonging, node, out)
}

// How far the path of a node, nothing for the root, goes along a given one: `Some(n)` where it is the first n bytes of that, else `None`.
type Fit = Option<usize>;

// Whether a path has the string that some bytes begin with from `at` on, and where it ends there. One pass over the two, no further than the first byte
// that differs.
#[tactic(auto, using(crate::proofs::FitLaws::name_ends, crate::proofs::FitLaws::name_fits, crate::proofs::FitLaws::name_cut, crate::proofs::FitLaws::name_differs, crate::proofs::FitLaws::name_goes_on))]
fn fit_from(symbols: &[u8], path: &[u8], at: usize) -> Fit
    requires at_inside { at ≤ length path.now }
    ensures { result ≡ fit_from (up_to_zero symbols.now) (drop at path.now) at }
{
    let mut n = at;
    for &byte in symbols {
        if byte == 0 {
            return Some(n);
        }
        if path.len() <= n || byte != path[n] {
            return None;
        }
        n += 1;
    }
    Some(n)
}

// A place for a fit in the table of a lookup: 0 where none is stored yet, 1 for `None`, n + 2 for `Some(n)`. Clauses see an `Option<Fit>`. The table has
// a place for each node, stands on the stack and is cleared at each lookup: as a number a place takes eight bytes, and as an `Option<Fit>` it would take
// 24, since each Option has a tag of its own. No `u32`: nodes may share one long name, so a path's length has no 32-bit bound.
#[derive(Clone, Copy, Debug, PartialEq, Eq, Default)]
struct Settled {
    number: usize,
}

impl Model for Settled {
    ghost use Rattle.std.specs.Prelude.{ℕ, Option};

    ghost Value = { Option (Option ℕ) };

    ghost use Rattle.aff_read.specs.passes.Settled.{settled_by, number_of, number_back};

    ghost view = { λ s. settled_by s.number };

    ghost inverse = { λ f. record { number = number_of f } };

    ghost use Rattle.std.proofs.Common.{ap};

    ghost inverse_ok = { λ s h. ap (λ (n : ℕ). record { number = n }) (number_back s.number) };
}

impl Settled {
    // Stores a fit.
    #[tactic(auto, using(crate::proofs::FitLaws::settled_more))]
    fn new(fit: Fit) -> Self
        requires { IfSome fit (λ n. n < 2 ^ 63) }
        ensures { result ≡ Some fit }
    {
        Settled {
            number: match fit {
                None => 1,
                Some(n) => n + 2,
            },
        }
    }

    // The fit that is stored, if one is.
    #[tactic(auto, using(crate::proofs::FitLaws::settled_past))]
    fn fit(self) -> Option<Fit>
        ensures { result ≡ self }
    {
        match self.number {
            0 => None,
            1 => Some(None),
            number => Some(Some(number - 2)),
        }
    }
}

// A node other than the root on the way up from another, and the number of its string.
#[derive(Clone, Copy, Debug, PartialEq, Eq, Default)]
struct Step {
    node: u32,
    string: u32,
}

// The fit of a node by that of its parent: a slash and the name are to follow.
fn fit_below(belonging: &Belonging<'_, '_>, path: &[u8], step: Step, above: Fit) -> Fit
    requires node_exists { step.node ≤ belonging.now.opened.reader.nodes }
    requires other { 0 < step.node }
    requires string_value { step.string ≡ (opened_entry belonging.now.opened step.node).string }
    requires above_value { above ≡ of belonging.now.opened fit_at path.now (opened_entry belonging.now.opened step.node).parent }
    ensures { result ≡ of belonging.now.opened fit_at path.now step.node }
{
    let at = above?;
    if path.len() <= at || path[at] != b'/' {
        return None;
    }
    fit_from(symbols_from(belonging, step.string), path, at + 1)
}

// Climbs from a node to the first one whose fit is stored, itself or an ancestor, and stores the nodes on the way. Returns how many they are, and that fit.
fn climb(
    belonging: &Belonging<'_, '_>,
    node: usize,
    fits: &[Settled; 2049],
    steps: &mut [Step; 2048],
) -> (usize, Fit)
    requires node_exists { node ≤ belonging.now.opened.reader.nodes }
    requires other { 0 < node }
    requires root_settled { get_or fits.now 0 None ≡ None → ⊥ }
    ensures chain { holds belonging.now.opened Chain node steps.new result.0 }
    ensures fit { get_or fits.now (of belonging.now.opened above_at result.0 node) None ≡ Some result.1 }
{
    let mut count = 0;
    let mut at = node;
    // It follows parents up to a stored fit and counts its steps: how many there are is not known before, so no `for` fits.
    loop {
        if let Some(fit) = fits[at].fit() {
            return (count, fit);
        }
        let entry = belonging.entry(at);
        steps[count] = Step {
            node: at as u32,
            string: entry.string,
        };
        at = entry.parent as usize;
        count += 1;
    }
}

// Returns the fit of a node other than the root. Computes and stores it, and before it those of its ancestors, unless they are stored already.
fn settle(
    belonging: &Belonging<'_, '_>,
    path: &[u8],
    node: usize,
    steps: &mut [Step; 2048],
    fits: &mut [Settled; 2049],
) -> Fit
    requires node_exists { node ≤ belonging.now.opened.reader.nodes }
    requires other { 0 < node }
    requires fits_settled { holds belonging.now.opened FitsSettled path.now fits.old }
    ensures settled { holds belonging.now.opened FitsSettled path.now fits.new }
    ensures fit { result ≡ of belonging.now.opened fit_at path.now node }
{
    let (count, mut fit) = climb(belonging, node, fits, steps);
    for &step in steps[..count].iter().rev() {
        fit = fit_below(belonging, path, step, fit);
        fits[step.node as usize] = Settled::new(fit);
    }
    fit
}

// Whether the path of a node is the given one.
#[tactic(auto, using(crate::proofs::FitLaws::other_has))]
fn has_path(
    belonging: &Belonging<'_, '_>,
    path: &[u8],
    node: usize,
    steps: &mut [Step; 2048],
    fits: &mut [Settled; 2049],
) -> bool
    requires node_exists { node ≤ belonging.now.opened.reader.nodes }
    requires fits_settled { holds belonging.now.opened FitsSettled path.now fits.old }
    ensures settled { holds belonging.now.opened FitsSettled path.now fits.new }
    ensures answer { result ≡ same_bytes (of belonging.now.opened path_at node) path.now }
{
    if node == 0 {
        return bytes::same(b"/", path);
    }
    settle(belonging, path, node, steps, fits) == Some(path.len())
}

// The lowest node whose path is the given one. The fit of a node is computed once at most: its entry is read once, and its
// name compared only where its parent fits, up to the first byte that differs and no further than the path goes. No recursion: the stack holds two
// arrays, 32,776 bytes.
pub fn lowest_match(belonging: &Belonging<'_, '_>, path: &[u8]) -> Option<usize>
    ensures { result ≡ of belonging.now.opened found path.now }
{
    let mut steps = [Step::default(); 2048];
    let mut fits = [Settled::default(); 2049];
    fits[0] = Settled::new(Some(0));
    for k in 0..=belonging.opened.reader.nodes {
        if has_path(belonging, path, k, &mut steps, &mut fits) {
            return Some(k);
        }
    }
    None
}

// The lowest node whose path is the given one: 14, with the place at which the path breaks, 15.
#[tactic(auto, using(crate::proofs::LookupLaws::lookup_breaks, crate::proofs::LookupLaws::lookup_at, crate::proofs::LookupLaws::lookup_none))]
pub fn lookup_of(belonging: &Belonging<'_, '_>, path: &[u8]) -> Result<usize, Refusal>
    ensures { answer_of result ≡ of belonging.now.opened lookup_of_answer path.now }
{
    let edition = Edition::by_number(belonging.opened.reader.edition);
    if let Some(place) = format_path::grammar(edition, path) {
        return Err(Refusal::Malformed(place));
    }
    lowest_match(belonging, path).ok_or(Refusal::Absent)
}

// The lowest node whose path is the given one: 24, 14 with the place in the path, 15.
#[tactic(auto, unfolding(crate::specs::Paths::lookup_answer, crate::specs::Paths::lookup_of_answer))]
pub fn lookup(opened: &Opened<'_, '_>, path: &[u8]) -> Result<usize, Refusal>
    ensures { answer_of result ≡ of opened.now lookup_answer path.now }
{
    let belonging = opened.judge()?;
    lookup_of(&belonging, path)
}
