// The first column of a row: `L` for the limit, or a track's number.
ghost use Rattle.std.specs.Prelude.{◌≡◌, ◌≤◌};
ghost use Rattle.textform.specs.Text.{hex_digit};
ghost use Rattle.textform_report.specs.Permille.{most_tracks};
ghost use Rattle.textform_season.specs.Season.{with_digit, digit_after, column_after};
ghost use Rattle.textform_season.specs.Kept.{ColumnSound, NextSound};
ghost use Rattle.arcstring_check.specs.Answer.{option_of};

use textform::inner::read::hex_digit;

// The most tracks of a season.
const MOST_TRACKS: u64 = 1000;

// What has been read of it: nothing, `L`, or the digits of a track's number.
#[derive(Clone, Copy)]
pub enum Column {
    Empty,
    Limit,
    Number(u64),
}

// One digit more of a number, n so far and 0 before the first.
fn with_digit(n: u64, d: u8) -> Option<Column>
    requires { n ≤ most_tracks }
    ensures { (option_of result ≡ with_digit n d) × NextSound result }
{
    if d >= 10 {
        return None;
    }
    let number = 10 * n + u64::from(d);
    if number == 0 {
        return None;
    }
    if number > MOST_TRACKS {
        return None;
    }
    Some(Column::Number(number))
}

// One byte more of a number.
fn digit_after(n: u64, byte: u8) -> Option<Column>
    requires { n ≤ most_tracks }
    ensures { (option_of result ≡ digit_after n (hex_digit byte)) × NextSound result }
{
    with_digit(n, hex_digit(byte)?)
}

// One byte more, other than a blank.
pub(crate) fn column_after(column: Column, byte: u8) -> Option<Column>
    requires { ColumnSound column }
    ensures { (option_of result ≡ column_after column byte) × NextSound result }
{
    match column {
        Column::Empty => {
            if byte == b'L' {
                return Some(Column::Limit);
            }
            digit_after(0, byte)
        }
        Column::Limit => None,
        Column::Number(n) => digit_after(n, byte),
    }
}
