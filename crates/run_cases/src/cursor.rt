//! Lines and bytes of a file of cases, in order.

/// A place in a file of cases.
#[derive(Drop)]
pub struct Cursor<'a> {
    whole: &'a [u8],
    rest: &'a [u8],
}

fn count_lines(bytes: &[u8]) -> usize {
    bytes.iter().filter(|byte| **byte == b'\n').count()
}

impl<'a> Cursor<'a> {
    /// The beginning.
    pub fn new(whole: &'a [u8]) -> Self {
        Cursor { whole, rest: whole }
    }

    /// Whether nothing is left.
    pub fn is_at_end(&self) -> bool {
        self.rest.is_empty()
    }

    /// The number of the line before the place, counted from 1.
    pub fn line_number(&self) -> usize {
        count_lines(self.whole).saturating_sub(count_lines(self.rest))
    }

    /// The next line, without its line feed.
    pub fn next_line(&mut self) -> Option<&'a [u8]> {
        let end = self.rest.iter().position(|byte| *byte == b'\n')?;
        let (line, behind) = self.rest.split_at(end);
        self.rest = &behind[1..];
        Some(line)
    }

    /// The next bytes, behind which a line feed has to stand.
    pub fn next_bytes(&mut self, count: usize) -> Option<&'a [u8]> {
        if count >= self.rest.len() {
            return None;
        }
        let (bytes, behind) = self.rest.split_at(count);
        match behind.split_first() {
            Some((b'\n', rest)) => {
                self.rest = rest;
                Some(bytes)
            }
            _ => None,
        }
    }
}
