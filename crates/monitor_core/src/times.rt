//! Moments, as PgBouncer's console shows them.
ghost use Rattle.std.specs.Prelude.{◌≡◌, ◌≤◌, ◌<◌, ◌++◌, IfOk, OnOk, decimal};
ghost use Rattle.monitor_core.specs.Times as spec;

use itoa::Buffer;
use std::alloc::{AllocError, Global};

/// A date of the Gregorian calendar.
#[derive(Clone, Copy, Drop)]
struct Date {
    year: u64,
    month: u64,
    day: u64,
}

/// The year within an era of 400, of its day of this number.
fn year_of_era(n: u64) -> u64
    requires { n < 146097 }
    ensures year { result ≡ spec.year_of_era n }
    ensures bound { result ≤ 400 }
{
    (n - n / 1_460 + n / 36_524 - n / 146_096) / 365
}

/// The day of the year, from March on.
fn day_of_year(n: u64, year: u64) -> u64
    requires day { n < 146097 }
    requires year { year ≤ 400 }
    ensures day { result ≡ spec.day_of_year n year }
    ensures bound { result ≤ n }
{
    n.saturating_sub(365 * year + year / 4 - year / 100)
}

/// The date of a day, counted from the first of March of the year 0.
fn date_of(days: u64) -> Date
    requires { days < 400000000000000 }
    ensures { result ≡ spec.date_of days }
{
    let era = days / 146_097;
    let of_era = days % 146_097;
    let year = year_of_era(of_era);
    let day = day_of_year(of_era, year);
    let month = (5 * day + 2) / 153;
    let is_old = month < 10;
    Date {
        year: era * 400 + year + if is_old { 0 } else { 1 },
        month: if is_old { month + 3 } else { month - 9 },
        day: day.saturating_sub((153 * month + 2) / 5) + 1,
    }
}

fn put_two(text: &mut Vec<u8>, n: u64) -> Result<(), AllocError>
    ensures { OnOk result (text.new.items ≡ text.old.items ++ spec.two_digits n) }
{
    text.push(48 + (n / 10 % 10) as u8)?;
    text.push(48 + (n % 10) as u8)?;
    Ok(())
}

fn put_date(text: &mut Vec<u8>, date: Date) -> Result<(), AllocError>
    ensures { OnOk result (text.new.items ≡ text.old.items ++ spec.date_text date) }
{
    let mut digits = Buffer::new();
    text.extend_from_slice(digits.format(date.year).as_bytes())?;
    text.push(b'-')?;
    put_two(text, date.month)?;
    text.push(b'-')?;
    put_two(text, date.day)
}

fn put_time(text: &mut Vec<u8>, second: u64) -> Result<(), AllocError>
    ensures { OnOk result (text.new.items ≡ text.old.items ++ spec.time_text second) }
{
    put_two(text, second / 3_600)?;
    text.push(b':')?;
    put_two(text, second / 60 % 60)?;
    text.push(b':')?;
    put_two(text, second % 60)
}

/// The moment so many seconds after 1970 began.
#[tactic(auto, unfolding(crate::specs::Times::moment))]
pub(crate) fn moment(alloc: Global, second: u64) -> Result<Vec<u8>, AllocError>
    ensures { IfOk result (λ v. v.items ≡ spec.moment second) }
{
    let mut text = Vec::new(alloc);
    put_date(&mut text, date_of(second / 86_400 + 719_468))?;
    text.push(b' ')?;
    put_time(&mut text, second % 86_400)?;
    text.extend_from_slice(b" UTC")?;
    Ok(text)
}
