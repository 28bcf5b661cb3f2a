// Showing: each function leaves its value at `top`; below `top` nothing changes, and each level has room for a value.
ghost use Rattle.std.specs.Prelude.{◌≡◌, true, [], ◌∷◌, ◌+◌, ◌≤◌, ◌<◌, length};
ghost use Rattle.values.specs.Values.{among};
ghost use Rattle.values.specs.Engine.Words.{Made, node_of, value_of, value_at};
ghost use Rattle.runs.specs.Results.{gives};
ghost use Rattle.runs.specs.Programs.{tagged, is_element};
ghost use Rattle.runs.specs.Showing.{value_in};
ghost use Rattle.runs.specs.Engine.Runs.{made_by, lookup_of, slots_at, bytes_to, Bound};
ghost use Rattle.runs.specs.Engine.Ats.{operation_at, tag_at, ReadyAt, ReadyTestAt, SpaceAt, EnteredAt, EnteredTestAt, ShownAt, TestedAt};
ghost use Rattle.runs.specs.Engine.Leaves.{is_one_top, is_one_element, is_one_text, LeafSpaceAt, LeavesAt, ContentsAt, SaysAt};

use crate::at::At;
use crate::inputs::Inputs;
use crate::stop::{Run, Stop, Tested};
use values::extents::{Extent, MOST_NODES, VALUE_ROOM, copy};
use values::nodes::{PROGRAM, first_item, is_shallow, lower, no_top, raise};

// "exactly one top node"
fn one_top(words: &[u32]) -> bool
    ensures { (made : Made) → result ≡ is_one_top (value_of made words.now) }
{
    match words {
        [_, rest @ ..] => no_top(rest),
        [] => false,
    }
}

// "exactly one top node, an element"
// Stays: apart from `one_text`, as the rules ask two questions, each with its own stop.
fn one_element(inputs: &Inputs, words: &[u32]) -> bool
    ensures { let made = made_by inputs.now.entries in
        result ≡ is_one_element (lookup_of inputs.now.nodes) (value_of made words.now) }
{
    one_top(words) && inputs.is_element(words[0])
}

// "exactly one text"
fn one_text(inputs: &Inputs, words: &[u32]) -> bool
    ensures { let made = made_by inputs.now.entries in
        result ≡ is_one_text (lookup_of inputs.now.nodes) (value_of made words.now) }
{
    match words {
        [word] => !inputs.is_element(*word),
        _ => false,
    }
}

// 01: the source itself.
fn show_source(work: &mut [u32], at: At) -> Run
    requires { LeafSpaceAt work.old at }
    ensures { (made : Made) → LeavesAt made work.old at work.new result (gives (value_at made work.old at.source.start at.source.len)) }
{
    copy(work, at.source, at.top);
    Ok(Extent {
        start: at.top,
        len: at.source.len,
    })
}

// 03, 04: a text or an empty element from the program.
fn show_made(work: &mut [u32], at: At) -> Run
    requires { at.top < length work.old }
    ensures { (made : Made) → LeavesAt made work.old at work.new result (gives (node_of made (0x8000 + at.entry) ∷ [])) }
{
    // Stays: a word is a number of 32 bits in the lent slice, put together here.
    work[at.top] = PROGRAM + at.entry as u32;
    Ok(Extent {
        start: at.top,
        len: 1,
    })
}

// 05: the value of the slot.
fn show_slot(work: &mut [u32], at: At, byte: u8) -> Run
    requires bound { Bound at.slots at.top }
    requires top_in_bounds { at.top + 128 ≤ length work.old }
    requires count_value { among byte (bytes_to at.slots at.slots.count) ≡ true }
    ensures { (made : Made) → LeavesAt made work.old at work.new result (gives (value_in byte (slots_at made work.old at.slots))) }
{
    let value = at.slots.value(at.slots.find(byte).unwrap());
    copy(work, value, at.top);
    Ok(Extent {
        start: at.top,
        len: value.len,
    })
}

// 06: the contents of an element.
fn show_contents(inputs: &Inputs, work: &mut [u32], at: At) -> Run
    requires { LeafSpaceAt work.old at }
    ensures { ContentsAt inputs.now.entries inputs.now.nodes work.old at work.new result }
{
    if !one_element(inputs, at.source.words(work)) {
        return Err(Stop::Source(at.entry));
    }
    let contents = at.source.skip(1);
    lower(work, contents, at.top);
    Ok(Extent {
        start: at.top,
        len: contents.len,
    })
}

// Runs the entry on the source, an extent below top.
#[cycle(showing)]
pub fn show(inputs: &Inputs, work: &mut [u32], at: At) -> Run
    requires ready_at { ReadyAt inputs.now.entries inputs.now.ends.now at }
    requires space_at { SpaceAt work.old at }
    ensures { ShownAt inputs.now.entries inputs.now.nodes work.old at work.new result }
{
    let entry = inputs.entry(at.entry);
    let operation = entry.operation();
    // Stays: what an operation byte means is decided by its range, 01 to 0C here and 11 to 13 at a test.
    match operation {
        0x01..=0x0C => match operation {
            0x01 => show_source(work, at),
            0x02 => Ok(Extent {
                start: at.top,
                len: 0,
            }),
            0x03..=0x04 => show_made(work, at),
            0x05 => show_slot(work, at, entry.slot()),
            0x06 => show_contents(inputs, work, at),
            0x07 => show_within(inputs, work, at),
            0x08 => show_and_then(inputs, work, at),
            0x09 => show_beside(inputs, work, at),
            0x0A => show_each(inputs, work, at),
            0x0B => show_choose(inputs, work, at),
            _ => show_bind(inputs, work, at),
        },
        _ => Err(Stop::Source(at.entry)),
    }
}

// 07: an element with contents run through X.
#[cycle(showing)]
fn show_within(inputs: &Inputs, work: &mut [u32], at: At) -> Run
    requires { EnteredAt inputs.now.entries inputs.now.ends.now work.old at 0x07 }
    ensures { ShownAt inputs.now.entries inputs.now.nodes work.old at work.new result }
{
    if !one_element(inputs, at.source.words(work)) {
        return Err(Stop::Source(at.entry));
    }
    let top = at.top;
    let contents = at.source.skip(1);
    lower(work, contents, top);
    let lowered = Extent {
        start: top,
        len: contents.len,
    };
    let inner = show(
        inputs,
        work,
        at.below_on(at.entry + 1, lowered, top + VALUE_ROOM),
    )?;
    let whole = Extent {
        start: top,
        len: inner.len + 1,
    };
    if MOST_NODES < whole.len {
        return Err(Stop::Size(at.entry));
    }
    work[top] = work[at.source.start];
    raise(work, inner, top + 1);
    if !is_shallow(whole.words(work)) {
        return Err(Stop::Size(at.entry));
    }
    Ok(whole)
}

// 08: X1, then X2 on its result.
#[cycle(showing)]
fn show_and_then(inputs: &Inputs, work: &mut [u32], at: At) -> Run
    requires { EnteredAt inputs.now.entries inputs.now.ends.now work.old at 0x08 }
    ensures { ShownAt inputs.now.entries inputs.now.nodes work.old at work.new result }
{
    let x1 = at.entry + 1;
    let x2 = inputs.after(x1);
    let first = show(inputs, work, at.below(x1))?;
    let above = at.top + VALUE_ROOM;
    let second = show(inputs, work, at.below_on(x2, first, above))?;
    copy(work, second, at.top);
    Ok(Extent {
        start: at.top,
        len: second.len,
    })
}

// 09: both on the same source, joined.
#[cycle(showing)]
fn show_beside(inputs: &Inputs, work: &mut [u32], at: At) -> Run
    requires { EnteredAt inputs.now.entries inputs.now.ends.now work.old at 0x09 }
    ensures { ShownAt inputs.now.entries inputs.now.nodes work.old at work.new result }
{
    let x1 = at.entry + 1;
    let x2 = inputs.after(x1);
    let one = show(inputs, work, at.below(x1))?;
    let behind = at.top + one.len;
    let other = show(inputs, work, at.below_on(x2, at.source, behind))?;
    let len = one.len + other.len;
    if len <= MOST_NODES {
        return Ok(Extent { start: at.top, len });
    }
    Err(Stop::Size(at.entry))
}

// 0A: X on each top node, joined.
#[cycle(showing)]
fn show_each(inputs: &Inputs, work: &mut [u32], at: At) -> Run
    requires { EnteredAt inputs.now.entries inputs.now.ends.now work.old at 0x0A }
    ensures { ShownAt inputs.now.entries inputs.now.nodes work.old at work.new result }
{
    let x = at.entry + 1;
    let mut rest = at.source;
    let mut n: usize = 0;
    // Stays: an item is as long as its words say, so that the steps are no range.
    while 0 < rest.len {
        let item = Extent {
            start: rest.start,
            len: first_item(rest.words(work)),
        };
        let shown = show(inputs, work, at.below_on(x, item, at.top + n))?;
        let more = n + shown.len;
        if MOST_NODES < more {
            return Err(Stop::Size(at.entry));
        }
        n = more;
        rest = rest.skip(item.len);
    }
    Ok(Extent {
        start: at.top,
        len: n,
    })
}

// 0B: if P then X1 else X2.
#[cycle(showing)]
fn show_choose(inputs: &Inputs, work: &mut [u32], at: At) -> Run
    requires { EnteredAt inputs.now.entries inputs.now.ends.now work.old at 0x0B }
    ensures { ShownAt inputs.now.entries inputs.now.nodes work.old at work.new result }
{
    let x = at.entry + 1;
    let yes = test(inputs, work, at.below(x))?;
    let branch = inputs.chosen(x, yes);
    show(inputs, work, at.below(branch))
}

// 0C: bind the slot to the source, run X on nothing.
#[cycle(showing)]
fn show_bind(inputs: &Inputs, work: &mut [u32], at: At) -> Run
    requires { EnteredAt inputs.now.entries inputs.now.ends.now work.old at 0x0C }
    ensures { ShownAt inputs.now.entries inputs.now.nodes work.old at work.new result }
{
    let byte = inputs.entry(at.entry).slot();
    show(inputs, work, at.below_bound(byte))
}

// Runs the test on the source.
#[cycle(showing)]
pub fn test(inputs: &Inputs, work: &mut [u32], at: At) -> Tested
    requires ready_test_at { ReadyTestAt inputs.now.entries inputs.now.ends.now at }
    requires space_at { SpaceAt work.old at }
    ensures { TestedAt inputs.now.entries inputs.now.nodes work.old at work.new result }
{
    let operation = inputs.entry(at.entry).operation();
    match operation {
        0x11..=0x13 => match operation {
            0x11 => test_equals(inputs, work, at),
            0x12 => test_tagged(inputs, work, at),
            _ => test_element(inputs, work, at),
        },
        _ => Err(Stop::Source(at.entry)),
    }
}

// 11: source text equals X run on nothing.
#[cycle(showing)]
fn test_equals(inputs: &Inputs, work: &mut [u32], at: At) -> Tested
    requires { EnteredTestAt inputs.now.entries inputs.now.ends.now work.old at }
    ensures { TestedAt inputs.now.entries inputs.now.nodes work.old at work.new result }
{
    if !one_text(inputs, at.source.words(work)) {
        return Err(Stop::Source(at.entry));
    }
    let nothing = Extent {
        start: at.top,
        len: 0,
    };
    let other = show(inputs, work, at.below_on(at.entry + 1, nothing, at.top))?;
    if !one_text(inputs, other.words(work)) {
        return Err(Stop::Source(at.entry));
    }
    let source_text = inputs.text(work[at.source.start]);
    let other_text = inputs.text(work[other.start]);
    Ok(source_text.agrees_with(&other_text))
}

// 12: element with this tag.
fn test_tagged(inputs: &Inputs, work: &[u32], at: At) -> Tested
    requires len_in_bounds { at.source.start + at.source.len ≤ length work.now }
    requires at_value { operation_at inputs.now.entries at ≡ 0x12 }
    ensures { let E = inputs.now.entries in
        SaysAt E inputs.now.nodes work.now at result (tagged at.entry (tag_at E at)) }
{
    if !one_element(inputs, at.source.words(work)) {
        return Err(Stop::Source(at.entry));
    }
    let tag = inputs.text(work[at.source.start]);
    Ok(tag.is_same(&inputs.entry(at.entry).text()))
}

// 13: is an element.
fn test_element(inputs: &Inputs, work: &[u32], at: At) -> Tested
    requires { at.source.start + at.source.len ≤ length work.now }
    ensures { SaysAt inputs.now.entries inputs.now.nodes work.now at result (is_element at.entry) }
{
    if !one_top(at.source.words(work)) {
        return Err(Stop::Source(at.entry));
    }
    Ok(inputs.is_element(work[at.source.start]))
}
