//! The ticks of an interface, in nanoseconds.
ghost use Rattle.std.specs.Prelude.{◌≡◌, ◌<◌, ◌^◌, IsTrue};
ghost use Rattle.pcapng_io.specs.Times.{is_resolution, nanoseconds_of, ticks_in_second};

// The bit of a resolution that says that it counts powers of two.
const TWOS: u8 = 128;

const MOST_TENS: u8 = 18;

const MOST_TWOS: u8 = 188;

const SECOND: u128 = 1_000_000_000;

// The number of nanoseconds in a second.
const NANOSECONDS: u64 = 1_000_000_000;

const MICROSECONDS: u64 = 1_000_000;

// The number of microseconds whose seconds fit in 32 bits.
const MOST_MICROSECONDS: u64 = 4_294_967_296_000_000;

// The last nanosecond whose seconds fit in 32 bits.
const LAST: u64 = 4_294_967_295_999_999_999;

// Is this a resolution that is accepted?
pub fn is_resolution(resolution: u8) -> bool
    ensures { result ≡ is_resolution resolution }
{
    resolution <= MOST_TENS || (TWOS <= resolution && resolution <= MOST_TWOS)
}

// The number of ticks in a second.
pub fn ticks_in_second(resolution: u8) -> u64
    requires { IsTrue (is_resolution resolution) }
    ensures ticks { result ≡ ticks_in_second resolution }
    ensures some { 0 < result }
{
    if resolution < TWOS {
        10u64.pow(u32::from(resolution))
    } else {
        2u64.pow(u32::from(resolution - TWOS))
    }
}

// `ticks` in whole nanoseconds, where `in_second` ticks make a second. For nanoseconds and microseconds nothing is
// divided.
pub fn nanoseconds(in_second: u64, ticks: u64) -> u64
    requires { 0 < in_second }
    ensures { result ≡ nanoseconds_of in_second ticks }
{
    if in_second == NANOSECONDS {
        return if ticks < LAST { ticks } else { LAST };
    }
    if in_second == MICROSECONDS && ticks < MOST_MICROSECONDS {
        return ticks * 1_000;
    }
    let whole = u128::from(ticks) * SECOND / u128::from(in_second);
    if whole < u128::from(LAST) {
        whole as u64
    } else {
        LAST
    }
}
