// The calls for hosts written in C: byte slices only, a work slice of their own where one is needed, the answer in one number.
ghost use Rattle.std.specs.Prelude.{◌≡◌, ◌+◌, ◌*◌};
ghost use Rattle.meadcinder.specs.Forms.{packed, number_in, place_in, length_in, ShowsInC, PutsBackInC, SweepsInC};

use calls::put_back::judged_put_back;
use calls::refusal::Refusal;
use calls::reply::Reply;
use calls::room::{OUT_ROOM, PUT_BACK_ROOM, SHOW_ROOM};
use calls::show::judged_show;
use calls::sweep::sweep;

// Packed as document 01 says; the header's macros take the three numbers out again.
fn in_one(reply: Reply) -> u64
    ensures { (result ≡ reply.number * 0x100000000 + reply.place * 0x10000 + reply.length)
        × (number_in result ≡ reply.number) × (place_in result ≡ reply.place) × (length_in result ≡ reply.length) }
{
    reply.number as u64 * 0x100000000 + reply.place as u64 * 0x10000 + reply.length as u64
}

// Stays: showing and putting back test the output's room here, since each brings a work slice of its own size; sweeping hands on what it is lent.
#[unsafe(no_mangle)]
pub extern "C" fn meadcinder_show(master: &[u8], program: &[u8], out: &mut [u8]) -> u64
    ensures { ShowsInC master.now program.now out.old (packed result out.new) }
{
    if out.len() < OUT_ROOM {
        return in_one(Reply::of(Err(Refusal::Room)));
    }
    let mut work = [0u32; SHOW_ROOM];
    in_one(judged_show(master, program, out, &mut work))
}

#[unsafe(no_mangle)]
pub extern "C" fn meadcinder_put_back(
    master: &[u8],
    program: &[u8],
    view: &[u8],
    out: &mut [u8],
) -> u64
    ensures { PutsBackInC master.now program.now view.now out.old (packed result out.new) }
{
    if out.len() < OUT_ROOM {
        return in_one(Reply::of(Err(Refusal::Room)));
    }
    let mut work = [0u32; PUT_BACK_ROOM];
    in_one(judged_put_back(master, program, view, out, &mut work))
}

#[unsafe(no_mangle)]
pub extern "C" fn meadcinder_sweep(master: &[u8], out: &mut [u8], numbers: &mut [u8]) -> u64
    ensures { SweepsInC master.now out.old numbers.old result out.new numbers.new }
{
    in_one(sweep(master, out, numbers))
}
