// Numbers in fixed columns of text, right-justified behind blanks, read: one column, and a row of columns.
ghost use Rattle.std.specs.Prelude.{◌≡◌, [], ◌∷◌};
ghost use Rattle.columns.specs.Reading.{blanks, same_text, read_column, numbers_in};
ghost use Rattle.columns.specs.Steps.{scan_digits};

// How many blanks the text starts with.
pub fn blanks_of(text: &[u8]) -> usize
    ensures { result ≡ blanks text.now }
{
    text.iter().take_while(|&&byte| byte == b' ').count()
}

// The number that the digits make, where each byte is one and the number is at most `most`.
fn number_from(digits: &[u8], most: u32) -> Option<u32>
    ensures { result ≡ scan_digits most 0 digits.now }
{
    let mut number: u64 = 0;
    for byte in digits {
        let digit @ b'0'..=b'9' = *byte else {
            return None;
        };
        number = number * 10 + u64::from(digit - b'0');
        if u64::from(most) < number {
            return None;
        }
    }
    // Kept: a cast, which the check proves to lose nothing: `try_from` would have an error that no number gives.
    Some(number as u32)
}

// The number in the text, where the text is a number in columns, right-justified behind blanks with no leading zero,
// and the number is at most `most`.
pub fn read_column(text: &[u8], most: u32) -> Option<u32>
    ensures { result ≡ read_column most text.now }
{
    let digits = &text[blanks_of(text)..];
    if digits.is_empty() {
        return None;
    }
    let has_leading_zero = (digits[0] == b'0') & (digits.len() > 1);
    if has_leading_zero {
        return None;
    }
    number_from(digits, most)
}

// The text is a line feed and no more.
#[tactic(auto, using(crate::proofs::Rows::end_one, crate::proofs::Rows::end_other))]
pub fn is_line_feed(text: &[u8]) -> bool
    ensures { result ≡ same_text text.now (10 ∷ []) }
{
    text.len() == 1 && text[0] == b'\n'
}

// The N numbers of a text that is a row of columns of the given widths, then a line feed and no more; each is at most
// `most`. None where the columns are more or fewer than N.
// Kept: a number's place by its index: of what is written through an adapter of `iter_mut` a proof knows nothing.
// Kept: a cast to 16 bits, as in `number_from`.
pub fn read_row<const N: usize>(text: &[u8], widths: &[u8], most: u16) -> Option<[u16; N]>
    ensures { result ≡ numbers_in N most widths.now text.now }
{
    if widths.len() != N {
        return None;
    }
    let mut numbers = [0; N];
    let mut rest = text;
    for (place, width) in widths.iter().enumerate() {
        let (column, behind) = rest.split_at_checked(usize::from(*width))?;
        numbers[place] = read_column(column, u32::from(most))? as u16;
        rest = behind;
    }
    if is_line_feed(rest) {
        Some(numbers)
    } else {
        None
    }
}
