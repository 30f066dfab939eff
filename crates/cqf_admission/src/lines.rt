//! The lines of a script.
ghost use Rattle.std.specs.Prelude.{◌≡◌, ◌<◌, IfSome, is_some, option_map};
ghost use Rattle.std.specs.List.{list_all};
ghost use Rattle.cqf_admission.specs.Lines.{if_word, is_seal_line, is_word, is_word_byte, order_after, order_of_line, seat_of_digit, word_after};
ghost use Rattle.cqf_admission.specs.Written.{written};

/// What an administrator may order.
#[derive(Clone, Copy)]
pub(crate) enum Wish {
    /// To admit a stream.
    Admit,
    /// To withdraw a stream.
    Withdraw,
}

/// An administrator's order.
#[derive(Clone, Copy)]
pub(crate) struct Order<'t> {
    /// The administrator.
    pub(crate) seat: u16,
    pub(crate) wish: Wish,
    /// The stream's name.
    pub(crate) name: &'t str,
}

/// Returns whether the line is `seal`, which closes a cycle to changes.
pub fn is_seal_line(line: &[u8]) -> bool
    ensures { result ≡ is_seal_line line.now }
{
    b"seal".as_slice() == line
}

/// Returns the administrator of a digit, 0 to 7.
fn seat_of_digit(byte: u8) -> Option<u16>
    ensures value { result ≡ seat_of_digit byte }
    ensures small { IfSome result (λ seat. seat < 8) }
{
    if b'0' <= byte && byte <= b'7' {
        Some(u16::from(byte - b'0'))
    } else {
        None
    }
}

/// Returns whether the byte may be in a word.
fn is_word_byte(byte: u8) -> bool
    ensures { result ≡ is_word_byte byte }
{
    b'!' <= byte && byte <= b'~'
}

/// Returns whether each of the bytes may be in a word.
fn are_word_bytes(bytes: &[u8]) -> bool
    ensures { result ≡ list_all is_word_byte bytes.now }
{
    bytes.iter().all(|byte| is_word_byte(*byte))
}

/// Returns whether the bytes are a word.
fn is_word(bytes: &[u8]) -> bool
    ensures { result ≡ is_word bytes.now }
{
    let not_empty = 1 <= bytes.len();
    let not_too_long = bytes.len() <= 64;
    not_empty && not_too_long && are_word_bytes(bytes)
}

/// Returns the bytes as a text if they are a word, which is ASCII.
fn read_word(bytes: &[u8]) -> Option<&str>
    ensures { option_map (λ word. word.now) result ≡ if_word bytes.now }
{
    if !is_word(bytes) {
        return None;
    }
    match std::str::from_utf8(bytes) {
        Ok(text) => Some(text),
        Err(_) => unreachable!(),
    }
}

/// Returns the word that follows a prefix.
fn word_after<'t>(start: &[u8], text: &'t [u8]) -> Option<&'t str>
    ensures { option_map (λ word. word.now) result ≡ word_after start.now text.now }
{
    read_word(text.strip_prefix(start)?)
}

/// Returns the order of an administrator, given what follows the digit.
fn order_after(rest: &[u8], seat: u16) -> Option<Order<'_>>
    ensures value { option_map written result ≡ order_after rest.now seat }
    ensures seat { IfSome result (λ order. order.seat ≡ seat) }
{
    if let Some(name) = word_after(b" admit ", rest) {
        let wish = Wish::Admit;
        return Some(Order { seat, wish, name });
    }
    let name = word_after(b" withdraw ", rest)?;
    let wish = Wish::Withdraw;
    Some(Order { seat, wish, name })
}

/// Returns the order that the line writes, if it writes one.
pub(crate) fn read_order(line: &[u8]) -> Option<Order<'_>>
    ensures value { option_map written result ≡ order_of_line line.now }
    ensures small { IfSome result (λ order. order.seat < 8) }
{
    let (digit, rest) = line.split_first()?;
    let seat = seat_of_digit(*digit)?;
    order_after(rest, seat)
}

/// Returns whether the line is `N admit NAME` or `N withdraw NAME`, as [`read_script`](crate::read_script) reads them.
pub fn is_order(line: &[u8]) -> bool
    ensures { result ≡ is_some (order_of_line line.now) }
{
    read_order(line).is_some()
}
