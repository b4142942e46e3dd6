// The words of a script: hexadecimal numbers of at most 32 bits.
ghost use Rattle.std.specs.Prelude.{◌≡◌, ◌<◌, IfSome};
ghost use Rattle.program.specs.Numbers.{hex_digit, one_more, hex_word};

#[derive(Clone, Copy)]
pub enum BadWord {
    NotHexadecimal,
    TooLarge,
}

fn hex_digit(byte: u8) -> Option<u32>
    ensures value { result ≡ hex_digit byte }
    ensures small { IfSome result (λ digit. digit < 16) }
{
    char::from(byte).to_digit(16)
}

// The number with one digit more.
fn one_more(number: u32, byte: u8) -> Result<u32, BadWord>
    ensures { result ≡ one_more number (hex_digit byte) }
{
    let Some(digit) = hex_digit(byte) else {
        return Err(BadWord::NotHexadecimal);
    };
    if number >= 0x1000_0000 {
        return Err(BadWord::TooLarge);
    }
    Ok(number * 16 + digit)
}

// A word, or what shows first: a character that is no digit, or a digit that is too many.
pub fn hex_word(text: &[u8]) -> Result<u32, BadWord>
    ensures { result ≡ hex_word text.now }
{
    let mut number: u32 = 0;
    for byte in text {
        number = one_more(number, *byte)?;
    }
    Ok(number)
}
