// Runs the cases on standard input, and writes for each the reply line, the output lines, a sweep's number lines, and a
// line that says whether the lent places were left as promised (00) or not (01).
#![tactic(auto)]

ghost use Rattle.std.specs.Prelude.{◌≡◌, ◌≤◌, length, IfOk};

use calls::put_back::put_back;
use calls::reply::Reply;
use calls::room::WORK_ROOM;
use calls::show::show;
use calls::sweep::sweep;
use shell::numbers::number_bytes;
use shell::print::{print_answer, print_byte, print_first};
use shell::read::read_up_to;
use std::io;
use std::io::{Read, Write};

const HEAD_BYTES: usize = 15;

const MOST_BYTES: usize = 16384;

const MOST_WORK: usize = 20480;

const BYTE_PATTERN: u8 = 0xA5;

const WORK_PATTERN: u32 = 0x5A5A5A5A;

// Why no more cases are run.
// Stays: no equality, since an error of std has none.
#[derive(Drop)]
enum Stop {
    Ended,
    Broken,
    Failed(io::Error),
}

impl From<io::Error> for Stop {
    fn from(error: io::Error) -> Stop {
        Stop::Failed(error)
    }
}

#[derive(Clone, Copy, PartialEq, Eq)]
enum Call {
    Show,
    PutBack,
    Sweep,
}

impl TryFrom<u8> for Call {
    type Error = Stop;

    fn try_from(byte: u8) -> Result<Call, Stop> {
        match byte {
            1 => Ok(Call::Show),
            2 => Ok(Call::PutBack),
            4 => Ok(Call::Sweep),
            _ => Err(Stop::Broken),
        }
    }
}

// The call of a case, the rooms of what is lent to it, and the lengths of its files. Of `work` and `numbers` one is 0:
// a sweep is lent a second output, the other calls a work slice.
// Stays: two sizes beside the call, since sizes in the cases of Call would have to be matched out again where each is lent.
#[derive(Drop)]
struct Head {
    call: Call,
    out: usize,
    work: usize,
    numbers: usize,
    master: usize,
    program: usize,
    view: usize,
    ghost rooms: { (out ≤ 16384) × (work ≤ 20480) × (numbers ≤ 16384) },
    ghost lengths: { (master ≤ 16384) × (program ≤ 16384) × (view ≤ 16384) },
}

// The size, where it is honoured.
fn honoured(size: u32, most: usize) -> Result<usize, Stop>
    ensures { IfOk result (λ n. n ≤ most) }
{
    let size = size as usize;
    if most < size {
        return Err(Stop::Broken);
    }
    Ok(size)
}

fn file_length(bytes: [u8; 2]) -> Result<usize, Stop>
    ensures { IfOk result (λ n. n ≤ 16384) }
{
    honoured(u32::from(u16::from_be_bytes(bytes)), MOST_BYTES)
}

impl TryFrom<[u8; HEAD_BYTES]> for Head {
    type Error = Stop;

    fn try_from(bytes: [u8; HEAD_BYTES]) -> Result<Head, Stop> {
        let call = Call::try_from(bytes[0])?;
        let first = u32::from_be_bytes([bytes[1], bytes[2], bytes[3], bytes[4]]);
        let second = u32::from_be_bytes([bytes[5], bytes[6], bytes[7], bytes[8]]);
        let out = honoured(first, MOST_BYTES)?;
        let (work, numbers) = match call {
            Call::Show | Call::PutBack => (honoured(second, MOST_WORK)?, 0),
            Call::Sweep => (0, honoured(second, MOST_BYTES)?),
        };
        Ok(Head {
            call,
            out,
            work,
            numbers,
            master: file_length([bytes[9], bytes[10]])?,
            program: file_length([bytes[11], bytes[12]])?,
            view: file_length([bytes[13], bytes[14]])?,
        })
    }
}

// Whether all behind the first `written` is the pattern.
fn is_untouched<T: PartialEq + Drop>(items: &[T], written: usize, pattern: T) -> bool {
    items.iter().skip(written).all(|item| *item == pattern)
}

// What is lent to a call, filled with patterns.
#[derive(Drop)]
struct Lent {
    out: [u8; MOST_BYTES],
    work: [u32; MOST_WORK],
    numbers: [u8; MOST_BYTES],
}

impl Lent {
    // Whether nothing but what the reply may write was written, and the work slice left as promised; `written` is the
    // length of the number lines.
    fn is_kept(&self, call: Call, reply: Reply, written: usize) -> bool {
        // Stays: a reply's number, as the calls' contracts name it.
        let cleared = if call == Call::Sweep || reply.number == 1 {
            0
        } else {
            WORK_ROOM
        };
        is_untouched(&self.out, reply.length as usize, BYTE_PATTERN)
            && is_untouched(&self.numbers, written, BYTE_PATTERN)
            && is_untouched(&self.work, cleared, WORK_PATTERN)
            && self.work[..cleared].iter().all(|word| *word == 0)
    }
}

// The bytes that fill the buffer, if as many come.
fn filled<'a, R: Read>(input: &mut R, buf: &'a mut [u8]) -> Result<&'a [u8], Stop>
    ensures { IfOk result (λ bytes. length bytes.now ≡ length buf.old) }
{
    if read_up_to(input, buf)? < buf.len() {
        return Err(Stop::Broken);
    }
    Ok(buf)
}

// Reads the files of the case, calls and reports.
fn run<R: Read, W: Write>(head: Head, input: &mut R, to: &mut W) -> Result<(), Stop> {
    let mut master = [0u8; MOST_BYTES];
    let mut program = [0u8; MOST_BYTES];
    let mut view = [0u8; MOST_BYTES];
    let master = filled(input, &mut master[..head.master])?;
    let program = filled(input, &mut program[..head.program])?;
    let view = filled(input, &mut view[..head.view])?;
    let mut lent = Lent {
        out: [BYTE_PATTERN; MOST_BYTES],
        work: [WORK_PATTERN; MOST_WORK],
        numbers: [BYTE_PATTERN; MOST_BYTES],
    };
    let out = &mut lent.out[..head.out];
    let work = &mut lent.work[..head.work];
    let numbers = &mut lent.numbers[..head.numbers];
    let reply = match head.call {
        Call::Show => show(master, program, out, work),
        Call::PutBack => put_back(master, program, view, out, work),
        Call::Sweep => sweep(master, out, numbers),
    };
    // How many bytes of the second output the reply may write: the number lines, where a sweep was done.
    let written = if head.call == Call::Sweep && reply.number == 0 {
        number_bytes(master)
    } else {
        0
    };
    print_answer(to, reply, &lent.out)?;
    print_first(to, &lent.numbers, written)?;
    let kept = lent.is_kept(head.call, reply, written);
    print_byte(to, if kept { 0 } else { 1 })?;
    Ok(())
}

fn next_case<R: Read, W: Write>(input: &mut R, to: &mut W) -> Result<(), Stop> {
    let mut head = [0u8; HEAD_BYTES];
    match read_up_to(input, &mut head)? {
        0 => Err(Stop::Ended),
        HEAD_BYTES => run(Head::try_from(head)?, input, to),
        _ => Err(Stop::Broken),
    }
}

fn main(rt: HostRuntime) -> io::Result<()> {
    let mut input = rt.reader();
    let mut to = io::writer(&rt);
    // Stays: nothing is counted; the bound says that it ends.
    for _ in 0..u64::MAX {
        match next_case(&mut input, &mut to) {
            Ok(()) => {}
            Err(Stop::Ended) => break,
            Err(Stop::Broken) => return print_byte(&mut to, 0xFF),
            Err(Stop::Failed(error)) => return Err(error),
        }
    }
    Ok(())
}
