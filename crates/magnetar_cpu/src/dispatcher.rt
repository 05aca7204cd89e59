// The dispatcher of sixteen callers (document 02, T-06).
ghost use Rattle.std.specs.Prelude.{◌≡◌};
ghost use Rattle.dispatch.specs.Dispatch.{fresh, add_number, turn_number, granted};
ghost use Rattle.magnetar_cpu.specs.Words.{left_after};
ghost use Rattle.magnetar_cpu.specs.DispatcherImage.{dispatcher_of, dispatcher_image, image_after_add, image_after_turn, caller_word, slice_word};
ghost use Rattle.magnetar_cpu.specs.DispatcherClaims.{DispatcherLaws};

use crate::ACCEPTED;
use dispatch::{CALLERS, Caller, Dispatcher};

// The places of a dispatcher's numbers in its image, behind what each caller wants.
const POSITION: usize = CALLERS;

const BUDGET: usize = CALLERS + 1;

// The words of an image.
const DISPATCHER_WORDS: usize = CALLERS + 2;

// The caller told where a turn grants nothing.
const NO_CALLER: u64 = 16;

// The dispatcher of an image.
#[tactic(auto, unfolding(crate::specs::DispatcherImage::dispatcher_of))]
fn read_dispatcher(image: &[u64; DISPATCHER_WORDS]) -> Dispatcher
    ensures { result ≡ dispatcher_of image.now }
{
    let mut callers = [Caller { wanted: 0 }; CALLERS];
    for i in 0..CALLERS {
        callers[i].wanted = image[i];
    }
    Dispatcher {
        callers,
        position: image[POSITION] as usize,
        budget: image[BUDGET],
    }
}

// Writes the image of a dispatcher.
fn write_dispatcher(d: &Dispatcher, image: &mut [u64; DISPATCHER_WORDS])
    ensures { image.new ≡ dispatcher_image d.now }
{
    for i in 0..CALLERS {
        image[i] = d.callers[i].wanted;
    }
    image[POSITION] = d.position as u64;
    image[BUDGET] = d.budget;
}

// Writes a fresh dispatcher with this budget to `dispatcher`: nobody wants any, and the circle starts at caller 0. It refuses
// nothing.
#[unsafe(no_mangle)]
pub extern "C" fn magnetar_dispatcher_start(budget: u64, dispatcher: &mut [u64; DISPATCHER_WORDS])
    ensures { dispatcher.new ≡ dispatcher_image (fresh budget) }
{
    write_dispatcher(&Dispatcher::start(budget), dispatcher);
}

// Adds so many cycles to what the caller wants. Refusals, in the order in which they are tested: 11, the caller or the circle
// position is 16 or above; 12, the caller would want more than 2^32.
#[unsafe(no_mangle)]
pub extern "C" fn magnetar_dispatcher_add(
    dispatcher: &mut [u64; DISPATCHER_WORDS],
    caller: u64,
    cycles: u64,
) -> u64
    ensures answer { result ≡ add_number (dispatcher_of dispatcher.old) caller cycles }
    ensures dispatcher { dispatcher.new ≡ image_after_add dispatcher.old caller cycles }
{
    let mut d = read_dispatcher(dispatcher);
    match d.add_in_place(caller as usize, cycles) {
        Ok(()) => {
            write_dispatcher(&d, dispatcher);
            ACCEPTED
        }
        Err(why) => u64::from(why),
    }
}

// Grants a slice to the next caller in circle order who wants any: the least of 4,096, the amount wanted and the budget. Both fall
// by the slice, and the circle goes on one past this caller, who goes to `caller`, as the slice's cycles do to `slice`. Where nobody
// wants any or no budget is left, 16 and 0 go there, and the dispatcher stays as it was. 11: the circle position is 16 or above.
#[unsafe(no_mangle)]
pub extern "C" fn magnetar_dispatcher_turn(
    dispatcher: &mut [u64; DISPATCHER_WORDS],
    caller: &mut u64,
    slice: &mut u64,
) -> u64
    ensures answer { result ≡ turn_number (dispatcher_of dispatcher.old) }
    ensures dispatcher { dispatcher.new ≡ image_after_turn dispatcher.old }
    ensures caller { caller.new ≡ left_after (turn_number (dispatcher_of dispatcher.old)) (caller_word (granted (dispatcher_of dispatcher.old))) caller.old }
    ensures slice { slice.new ≡ left_after (turn_number (dispatcher_of dispatcher.old)) (slice_word (granted (dispatcher_of dispatcher.old))) slice.old }
{
    let mut d = read_dispatcher(dispatcher);
    match d.turn_in_place() {
        Ok(grant) => {
            write_dispatcher(&d, dispatcher);
            *caller = grant.map_or(NO_CALLER, |g| g.caller as u64);
            *slice = grant.map_or(0, |g| g.cycles);
            ACCEPTED
        }
        Err(why) => u64::from(why),
    }
}

// What is claimed of dispatchers' images (specs/DispatcherClaims.antt). The function does nothing; its contract is the claim.
pub fn dispatcher_laws()
    ensures { DispatcherLaws }
{}
