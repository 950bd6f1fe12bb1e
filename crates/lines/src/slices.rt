// Lines written into a buffer of the caller, from any place on.
ghost use Rattle.std.specs.Prelude.{◌≡◌, ◌+◌, ◌≤◌, length, if◌then◌else◌, Some, None, nat_le};
ghost use Rattle.lines.specs.Lines.{DigitsAreDigits, DigitsReadBack, NoLeadingZero, WorkedLine, digits, field, fields_of, fits, line_of, written};

// How many digits a number has.
fn digit_count(number: u64) -> usize
    ensures value { result ≡ length (digits number) }
    ensures few { result ≤ 20 }
{
    let mut rest = number;
    let mut count: usize = 1;
    while 10 <= rest {
        rest /= 10;
        count += 1;
    }
    count
}

// Where a line of these fields ends that starts at a place, if that is not past the limit. The letter and the last byte take two.
fn line_end(at: usize, fields: &[u64], limit: usize) -> Option<usize>
    ensures { result ≡ (if nat_le (at + (2 + length (fields_of fields.now))) limit then Some (at + (2 + length (fields_of fields.now))) else None) }
{
    if limit < at || limit - at < 2 {
        return None;
    }
    let mut room = limit - at - 2;
    for number in fields {
        let need = 1 + digit_count(*number);
        if room < need {
            return None;
        }
        room -= need;
    }
    Some(limit - room)
}

// Writes the digits of a number from a place on, the last one first, and answers where they end.
fn write_digits(buffer: &mut [u8], at: usize, number: u64) -> usize
    requires { at + length (digits number) ≤ length buffer.old }
    ensures end { result ≡ at + length (digits number) }
    ensures bytes { buffer.new ≡ written buffer.old at (digits number) }
{
    let end = at + digit_count(number);
    let mut place = end;
    let mut rest = number;
    while 10 <= rest {
        place -= 1;
        buffer[place] = b'0' + (rest % 10) as u8;
        rest /= 10;
    }
    buffer[at] = b'0' + rest as u8;
    end
}

// Writes a field from a place on, and answers where it ends.
fn write_field(buffer: &mut [u8], at: usize, number: u64) -> usize
    requires { at + length (field number) ≤ length buffer.old }
    ensures end { result ≡ at + length (field number) }
    ensures bytes { buffer.new ≡ written buffer.old at (field number) }
{
    buffer[at] = b' ';
    write_digits(buffer, at + 1, number)
}

// Writes fields one behind the other from a place on, and answers where they end.
fn write_fields(buffer: &mut [u8], at: usize, fields: &[u64]) -> usize
    requires { at + length (fields_of fields.now) ≤ length buffer.old }
    ensures end { result ≡ at + length (fields_of fields.now) }
    ensures bytes { buffer.new ≡ written buffer.old at (fields_of fields.now) }
{
    let mut place = at;
    for number in fields {
        place = write_field(buffer, place, *number);
    }
    place
}

// Writes a line from a place on, and answers where it ends. None, and nothing is written, where it does not fit.
pub fn write_line(buffer: &mut [u8], at: usize, letter: u8, fields: &[u64]) -> Option<usize>
    ensures end { result ≡ (if fits buffer.old at (line_of letter fields.now) then Some (at + length (line_of letter fields.now)) else None) }
    ensures bytes { buffer.new ≡ (if fits buffer.old at (line_of letter fields.now) then written buffer.old at (line_of letter fields.now) else buffer.old) }
    ensures read_back { DigitsReadBack }
    ensures figures { DigitsAreDigits }
    ensures leading { NoLeadingZero }
    ensures worked { WorkedLine }
{
    let Some(end) = line_end(at, fields, buffer.len()) else {
        return None;
    };
    buffer[at] = letter;
    let last = write_fields(buffer, at + 1, fields);
    buffer[last] = b'\n';
    Some(end)
}
