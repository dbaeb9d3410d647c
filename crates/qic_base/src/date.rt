//! The date word of a header and of a volume's entry (Linux ftape headers).

ghost use Rattle.std.specs.Prelude.{◌≡◌, ◌↔◌, IsOk, IfOk};
ghost use Rattle.qic_base.specs.Field.{IsDate, date_word};

/// A year, month, day, hour, minute or second is out of its range.
#[derive(Clone, Copy, Debug, PartialEq, Eq)]
pub struct BadDate;

/// The date word of a date: years 1970 to 2097, months and days from 1 on. How long a month is isn't looked at.
pub fn stamp(
    year: u16,
    month: u8,
    day: u8,
    hour: u8,
    minute: u8,
    second: u8,
) -> Result<u32, BadDate>
    ensures dated { IsOk result ↔ IsDate year month day hour minute second }
    ensures word { IfOk result (λ word. word ≡ date_word year month day hour minute second) }
{
    if year < 1970 || year > 2097 || month < 1 || month > 12 || day < 1 || day > 31 {
        return Err(BadDate);
    }
    if hour > 23 || minute > 59 || second > 59 {
        return Err(BadDate);
    }
    let days = 31 * (u32::from(month) - 1) + (u32::from(day) - 1);
    let minutes = 60 * (24 * days + u32::from(hour)) + u32::from(minute);
    let seconds = 60 * minutes + u32::from(second);
    Ok((u32::from(year) - 1970) * (1 << 25) + seconds)
}
