// The stamp of a call: its day and time, whether they are in their ranges, and the minute that they are.
#![tactic(auto, unfolding(rules::specs::Call::is_day, rules::specs::Call::is_time, rules::specs::Call::minute_of))]

ghost use Rattle.std.specs.Prelude.{◌≡◌, ◌&&◌};
ghost use Rattle.rules.specs.Call.{is_day, is_time, minute_of};

// Kept: day and time, here and below, and no struct of the two: they are two of a call's seven numbers and of TERM's
// four, and a struct would be made of two fields only to be taken apart.
// Day is 0 to 9999.
pub fn is_day(day: u16) -> bool
    ensures { result ≡ is_day day }
{
    day <= 9999
}

// Time is hhmm on the 24-hour clock.
pub fn is_time(time: u16) -> bool
    ensures { result ≡ is_time time }
{
    (time / 100 < 24) & (time % 100 < 60)
}

pub fn is_stamp(day: u16, time: u16) -> bool
    ensures { result ≡ (is_day day && is_time time) }
{
    is_day(day) & is_time(time)
}

// The minute of a stamp: 1440 a day, and the minutes of the day.
pub fn minute_of(day: u16, time: u16) -> u32
    ensures { result ≡ minute_of day time }
{
    u32::from(day) * 1440 + u32::from(time / 100) * 60 + u32::from(time % 100)
}
