// Putting back: the view's standings, an extent below top, become those of the source, at top; those of the slots stand in `marks`.
ghost use Rattle.std.specs.Prelude.{[], ◌∷◌, ◌≡◌, true, ◌+◌, ◌-◌, ◌≤◌, length, replicate};
ghost use Rattle.lines.specs.Writing.{put_at};
ghost use Rattle.values.specs.Values.{among};
ghost use Rattle.values.specs.Engine.Words.{LiesIn, part};
ghost use Rattle.runs.specs.Engine.SlotWords.{slot_at, bound_to};
ghost use Rattle.runs.specs.Engine.Runs.{bytes_to, Bound, merged_at};
ghost use Rattle.runs.specs.Engine.Ats.{ReadyAt, ReadyTestAt, PutSpaceAt, TestSpaceAt, SeenAt, AskedAt, BegunAt, BegunTestAt, PutAt, TestPutAt};

use crate::at::At;
use crate::inputs::Inputs;
use crate::show::{show, test};
use values::extents::{Extent, VALUE_ROOM, bring, copy, fill};
use values::nodes::{first_item, lower};
use values::standings::{LOCKED, UNTOUCHED, merge, merge_from};

// A level has room for two values.
pub const PUT_ROOM: usize = 2 * VALUE_ROOM;

// The standings of the slots: room for a value each.
pub const MARKS: usize = 4 * VALUE_ROOM;

// 02, 03, 04: the source untouched.
fn put_nothing(work: &mut [u32], at: At)
    requires { at.top + at.source.len ≤ length work.old }
    ensures { work.new ≡ put_at work.old at.top (replicate at.source.len 0) }
{
    let source = Extent {
        start: at.top,
        len: at.source.len,
    };
    fill(work, source, UNTOUCHED);
}

// 05: the view merged into its slot.
fn put_slot(work: &mut [u32], marks: &mut [u32], at: At, byte: u8)
    requires bound { Bound at.slots at.top }
    requires count_value { among byte (bytes_to at.slots at.slots.count) ≡ true }
    requires view_len { at.view.len ≡ (slot_at at.slots (bound_to at.slots byte)).len }
    requires in_bounds { LiesIn at.view work.old × (at.top + at.source.len ≤ length work.old) × (length marks.old ≡ 512) }
    ensures work_after { work.new ≡ put_at work.old at.top (replicate at.source.len 0) }
    ensures marks_after { marks.new ≡ merged_at marks.old at.slots (bound_to at.slots byte) work.old at.view.start }
{
    let place = at.slots.find(byte).unwrap();
    merge_from(marks, VALUE_ROOM * place, work, at.view);
    put_nothing(work, at);
}

// 06: the view as contents of the source element, itself untouched.
fn put_contents(work: &mut [u32], at: At)
    requires { (at.source.len ≡ 1 + at.view.len) × (at.view.start + at.view.len ≤ at.top) × (at.top + at.source.len ≤ length work.old) }
    ensures { work.new ≡ put_at (put_at work.old at.top (0 ∷ [])) (at.top + 1) (part work.old at.view.start at.view.len) }
{
    work[at.top] = UNTOUCHED;
    copy(work, at.view, at.top + 1);
}

// Puts the view back through the entry.
#[cycle(putting)]
pub fn put(inputs: &Inputs, work: &mut [u32], marks: &mut [u32], at: At)
    requires ready_at { ReadyAt inputs.now.entries inputs.now.ends.now at }
    requires put_space_at { PutSpaceAt work.old marks.old at }
    requires seen_at { SeenAt inputs.now.entries inputs.now.nodes work.old at }
    ensures { PutAt inputs.now.entries inputs.now.nodes work.old marks.old at work.new marks.new }
{
    let entry = inputs.entry(at.entry);
    let operation = entry.operation();
    // Stays: an operation byte is decided by its range, as where it is shown.
    match operation {
        0x01..=0x0C => match operation {
            0x01 => copy(work, at.view, at.top),
            0x02..=0x04 => put_nothing(work, at),
            0x05 => put_slot(work, marks, at, entry.slot()),
            0x06 => put_contents(work, at),
            0x07 => put_within(inputs, work, marks, at),
            0x08 => put_and_then(inputs, work, marks, at),
            0x09 => put_beside(inputs, work, marks, at),
            0x0A => put_each(inputs, work, marks, at),
            0x0B => put_choose(inputs, work, marks, at),
            _ => put_bind(inputs, work, marks, at),
        },
        _ => {}
    }
}

// 07: the view element's own mark, and its contents through X.
#[cycle(putting)]
fn put_within(inputs: &Inputs, work: &mut [u32], marks: &mut [u32], at: At)
    requires { BegunAt inputs.now.entries inputs.now.nodes inputs.now.ends.now work.old marks.old at 0x07 }
    ensures { PutAt inputs.now.entries inputs.now.nodes work.old marks.old at work.new marks.new }
{
    let top = at.top;
    let above = top + VALUE_ROOM;
    let contents = at.source.skip(1);
    lower(work, contents, top);
    let lowered = Extent {
        start: top,
        len: contents.len,
    };
    let under = at.below_on(at.entry + 1, lowered, above);
    put(inputs, work, marks, under.seeing(at.view.skip(1)));
    work[top] = work[at.view.start];
    let back = Extent {
        start: above,
        len: contents.len,
    };
    copy(work, back, top + 1);
}

// 08: through X2 over what X1 shows, then through X1.
#[cycle(putting)]
fn put_and_then(inputs: &Inputs, work: &mut [u32], marks: &mut [u32], at: At)
    requires { BegunAt inputs.now.entries inputs.now.nodes inputs.now.ends.now work.old marks.old at 0x08 }
    ensures { PutAt inputs.now.entries inputs.now.nodes work.old marks.old at work.new marks.new }
{
    let x1 = at.entry + 1;
    if let Ok(first) = show(inputs, work, at.below(x1)) {
        let top = at.top;
        let above = top + VALUE_ROOM;
        let over = at.below_on(inputs.after(x1), first, above);
        put(inputs, work, marks, over);
        let far = top + PUT_ROOM;
        let under = at.below_on(x1, at.source, far);
        let view = Extent {
            start: above,
            len: first.len,
        };
        put(inputs, work, marks, under.seeing(view));
        let back = Extent {
            start: far,
            len: at.source.len,
        };
        copy(work, back, top);
    }
}

// 09: the view is cut by what the two parts show; X2, then X1, and the two sources merged.
#[cycle(putting)]
fn put_beside(inputs: &Inputs, work: &mut [u32], marks: &mut [u32], at: At)
    requires { BegunAt inputs.now.entries inputs.now.nodes inputs.now.ends.now work.old marks.old at 0x09 }
    ensures { PutAt inputs.now.entries inputs.now.nodes work.old marks.old at work.new marks.new }
{
    let x1 = at.entry + 1;
    let x2 = inputs.after(x1);
    if let Ok(one) = show(inputs, work, at.below(x1)) {
        if let Ok(other) = show(inputs, work, at.below(x2)) {
            let second = Extent {
                start: at.view.start + one.len,
                len: other.len,
            };
            let over = at.below(x2);
            put(inputs, work, marks, over.seeing(second));
            let top = at.top;
            let above = top + VALUE_ROOM;
            let under = at.below_on(x1, at.source, above);
            let first = Extent {
                start: at.view.start,
                len: one.len,
            };
            put(inputs, work, marks, under.seeing(first));
            let back = Extent {
                start: above,
                len: at.source.len,
            };
            merge(work, back, top);
        }
    }
}

// 0A: item by item.
#[cycle(putting)]
fn put_each(inputs: &Inputs, work: &mut [u32], marks: &mut [u32], at: At)
    requires { BegunAt inputs.now.entries inputs.now.nodes inputs.now.ends.now work.old marks.old at 0x0A }
    ensures { PutAt inputs.now.entries inputs.now.nodes work.old marks.old at work.new marks.new }
{
    let x = at.entry + 1;
    let top = at.top;
    let above = top + VALUE_ROOM;
    let mut done: usize = 0;
    let mut seen: usize = 0;
    // Stays: an item's own length, which is read off the source, is what the loop goes on by.
    while done < at.source.len {
        let from = at.source.start + done;
        let rest = Extent {
            start: from,
            len: at.source.len - done,
        };
        let len = first_item(rest.words(work));
        let source = Extent { start: from, len };
        let item = at.below_on(x, source, above);
        let Ok(shown) = show(inputs, work, item) else {
            return;
        };
        let view = Extent {
            start: at.view.start + seen,
            len: shown.len,
        };
        let back = at.below_on(x, source, top + done);
        put(inputs, work, marks, back.seeing(view));
        done += len;
        seen += shown.len;
    }
}

// 0B: the branch that showing took, then P.
#[cycle(putting)]
fn put_choose(inputs: &Inputs, work: &mut [u32], marks: &mut [u32], at: At)
    requires { BegunAt inputs.now.entries inputs.now.nodes inputs.now.ends.now work.old marks.old at 0x0B }
    ensures { PutAt inputs.now.entries inputs.now.nodes work.old marks.old at work.new marks.new }
{
    let x = at.entry + 1;
    if let Ok(yes) = test(inputs, work, at.below(x)) {
        let branch = inputs.chosen(x, yes);
        let taken = at.below(branch);
        put(inputs, work, marks, taken);
        let asked = at.below(x);
        put_test(inputs, work, marks, asked);
    }
}

// 0C: the slot starts untouched, and its value is handed back.
#[cycle(putting)]
fn put_bind(inputs: &Inputs, work: &mut [u32], marks: &mut [u32], at: At)
    requires { BegunAt inputs.now.entries inputs.now.nodes inputs.now.ends.now work.old marks.old at 0x0C }
    ensures { PutAt inputs.now.entries inputs.now.nodes work.old marks.old at work.new marks.new }
{
    let byte = inputs.entry(at.entry).slot();
    let inner = at.below_bound(byte);
    let bound = Extent {
        start: VALUE_ROOM * at.slots.count as usize,
        len: at.source.len,
    };
    fill(marks, bound, UNTOUCHED);
    put(inputs, work, marks, inner);
    bring(work, at.top, marks, bound);
}

// P over what the branch handed back, at top.
#[cycle(putting)]
fn put_test(inputs: &Inputs, work: &mut [u32], marks: &mut [u32], at: At)
    requires ready_test_at { ReadyTestAt inputs.now.entries inputs.now.ends.now at }
    requires test_space_at { TestSpaceAt work.old marks.old at }
    requires asked_at { AskedAt inputs.now.entries inputs.now.nodes work.old at }
    ensures { TestPutAt inputs.now.entries inputs.now.nodes work.old marks.old at work.new marks.new }
{
    // Stays: the operation is the table's byte, as at a test that is shown.
    match inputs.entry(at.entry).operation() {
        0x11 => put_equals(inputs, work, marks, at),
        _ => {}
    }
}

// 11: locked into the source text, and X's result back locked.
#[cycle(putting)]
fn put_equals(inputs: &Inputs, work: &mut [u32], marks: &mut [u32], at: At)
    requires { BegunTestAt inputs.now.entries inputs.now.nodes inputs.now.ends.now work.old marks.old at }
    ensures { TestPutAt inputs.now.entries inputs.now.nodes work.old marks.old at work.new marks.new }
{
    let top = at.top;
    let view = Extent {
        start: top + VALUE_ROOM,
        len: at.source.len,
    };
    fill(work, view, LOCKED);
    merge(work, view, top);
    let nothing = Extent {
        start: at.source.start,
        len: 0,
    };
    let under = at.below_on(at.entry + 1, nothing, top + PUT_ROOM);
    put(inputs, work, marks, under.seeing(view));
}
