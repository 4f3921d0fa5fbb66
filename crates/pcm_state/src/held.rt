//! The row of what descriptors hold.

ghost use Rattle.std.specs.Prelude.{◌≡◌, ◌<◌, All, length};
ghost use Rattle.pcm_state.specs.HeldRows.{held_number, held_row, way_code, FitsHeld};

use pcm_desk::Held;
use pcm_oss::Way;

/// Puts the number of what each descriptor holds.
pub fn put_held(held: &[Option<Held>], out: &mut [u64])
    requires lengths { length out.old ≡ length held.now }
    requires slots { All FitsHeld held.now }
    ensures { out.new ≡ held_row held.now }
{
    for fd in 0..held.len() {
        out[fd] = held_number(held[fd]);
    }
}

/// What each descriptor holds, by its number.
pub fn load_held(numbers: &[u64], out: &mut [Option<Held>])
    requires { length numbers.now ≡ length out.old }
    ensures { held_row out.new ≡ numbers.now }
{
    for fd in 0..numbers.len() {
        out[fd] = held_from_number(numbers[fd]);
    }
}

/// The number of what a descriptor holds.
pub fn held_number(held: Option<Held>) -> u64
    requires { FitsHeld held }
    ensures { result ≡ held_number held }
{
    match held {
        None => 0,
        Some(held) => 1 + (3 * held.slot as u64 + way_code(held.way)),
    }
}

/// What a descriptor holds that has this number. There is something for each.
pub fn held_from_number(number: u64) -> Option<Held>
    ensures { held_number result ≡ number }
{
    if number == 0 {
        return None;
    }
    let (slot, code) = ((number - 1) / 3, (number - 1) % 3);
    Some(Held {
        way: way(code),
        slot: slot as usize,
    })
}

fn way_code(way: Way) -> u64
    ensures { result ≡ way_code way }
{
    match way {
        Way::Play => 0,
        Way::Record => 1,
        Way::Map => 2,
    }
}

fn way(code: u64) -> Way
    requires { code < 3 }
    ensures { way_code result ≡ code }
{
    match code {
        0 => Way::Play,
        1 => Way::Record,
        _ => Way::Map,
    }
}
