ghost use Rattle.std.specs.Prelude.{◌≡◌};
ghost use Rattle.zk_ascii.specs.Dates.{HasDate, FitsDigits, clock_of, clock_text, stamp};

use jiff::Timestamp;
use jiff::tz::Offset;
use zk_base::Moment;

/// The length of a date with its time: `2023-11-14-22-13-20`.
const STAMP_LEN: usize = 19;

/// How many microseconds a second has.
const MICROSECONDS: i64 = 1_000_000;

/// What a clock in UTC shows.
#[derive(Clone, Copy, Debug)]
pub struct Clock {
    pub year: u16,
    pub month: u8,
    pub day: u8,
    pub hour: u8,
    pub minute: u8,
    pub second: u8,
}

/// What a clock in UTC shows at a moment.
fn clock_at(at: Moment) -> Clock
    requires { HasDate at }
    ensures clock { result ≡ clock_of at }
    ensures digits { FitsDigits result }
{
    let Ok(instant) = Timestamp::from_second(at.0 / MICROSECONDS) else {
        unreachable!()
    };
    let shown = Offset::UTC.to_datetime(instant);
    Clock {
        year: shown.year().unsigned_abs(),
        month: shown.month().unsigned_abs(),
        day: shown.day().unsigned_abs(),
        hour: shown.hour().unsigned_abs(),
        minute: shown.minute().unsigned_abs(),
        second: shown.second().unsigned_abs(),
    }
}

/// The digits of what a clock shows, joined by hyphens.
fn clock_text(clock: Clock) -> [u8; STAMP_LEN]
    requires { FitsDigits clock }
    ensures { result ≡ clock_text clock }
{
    let Clock {
        year,
        month,
        day,
        hour,
        minute,
        second,
    } = clock;
    [
        b'0' + (year / 1000) as u8,
        b'0' + (year / 100 % 10) as u8,
        b'0' + (year / 10 % 10) as u8,
        b'0' + (year % 10) as u8,
        b'-',
        b'0' + month / 10,
        b'0' + month % 10,
        b'-',
        b'0' + day / 10,
        b'0' + day % 10,
        b'-',
        b'0' + hour / 10,
        b'0' + hour % 10,
        b'-',
        b'0' + minute / 10,
        b'0' + minute % 10,
        b'-',
        b'0' + second / 10,
        b'0' + second % 10,
    ]
}

/// A moment as a log's lines `#open` and `#close` have it, in UTC, its fraction of a second left out.
pub fn stamp(at: Moment) -> [u8; STAMP_LEN]
    requires { HasDate at }
    ensures { result ≡ stamp at }
{
    clock_text(clock_at(at))
}
