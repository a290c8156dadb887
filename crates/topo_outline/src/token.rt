use std::fmt::{Display, Error, Formatter, Write};
use std::str;

/// A string's token without its quotes, as it stands in the text (RFC 8259, 7).
#[derive(Clone, Copy, Debug, PartialEq, Eq)]
pub struct Token<'a> {
    pub text: &'a [u8],
}

impl<'a> Display for Token<'a> {
    fn fmt<W: Write>(&self, f: &mut Formatter<W>) -> Result<(), Error> {
        match str::from_utf8(self.text) {
            Ok(text) => write!(f, "{text}"),
            Err(_) => Ok(()),
        }
    }
}
