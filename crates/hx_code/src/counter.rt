// The private word that counts the iterations of a region.

ghost use Rattle.std.specs.Prelude.{◌≡◌, ◌<◌};
ghost use Rattle.hx_code.specs.Region.{counter_at, with_counter};
ghost use Rattle.hx_code.specs.Counter.{HasPlace};

use crate::table::Induct;
use hx_tree::limits::PRIVATE_LIMIT;

// What a counter holds in an iteration. Its number counts modulo 2 ^ 32, as the value does.
fn value_in(counter: Induct, words: &[i32; PRIVATE_LIMIT], iteration: u64) -> i32
    requires { counter.private < 64 }
    ensures { result ≡ counter_at counter words.now iteration }
{
    let number = (iteration % (1 << 32)) as u32;
    let steps = number.cast_signed().wrapping_mul(counter.step);
    words[counter.private as usize].wrapping_add(steps)
}

/// Sets the private word of a region's counter, where it has one, as it is in an iteration, from the
/// private words that the region found.
pub fn set_counter(
    counter: Option<Induct>,
    words: &[i32; PRIVATE_LIMIT],
    iteration: u64,
    to: &mut [i32; PRIVATE_LIMIT],
)
    requires { HasPlace counter }
    ensures { to.new ≡ with_counter counter words.now iteration to.old }
{
    if let Some(counter) = counter {
        to[counter.private as usize] = value_in(counter, words, iteration);
    }
}
