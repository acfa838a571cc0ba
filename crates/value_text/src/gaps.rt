// What stands between values.
ghost use Rattle.std.specs.Prelude.{◌≡◌, ◌≤◌, length, drop};
ghost use Rattle.value_text.specs.Gaps.{begins_with, gap_at, goes_on, is_blank};

fn is_blank(byte: u8) -> bool
    ensures { result ≡ is_blank byte }
{
    byte == b' ' || byte == b'\t' || byte == b'\n' || byte == b'\r'
}

pub fn begins_with(byte: u8, text: &[u8]) -> bool
    ensures { result ≡ begins_with byte text.now }
{
    match text {
        [] => false,
        [first, ..] => *first == byte,
    }
}

/// What stands behind the first items.
pub fn behind<T>(items: &[T], count: usize) -> &[T]
    requires { count ≤ length items.now }
    ensures { result.now ≡ drop count items.now }
{
    &items[count..]
}

/// Whether the byte at the front still stands between values, and then whether a comment is open behind it.
fn goes_on(in_comment: bool, text: &[u8]) -> Option<bool>
    ensures { result ≡ goes_on in_comment text.now }
{
    match text {
        [] => None,
        [byte, rest @ ..] => {
            if in_comment {
                Some(*byte != b'\n')
            } else if *byte == b'-' && begins_with(b'-', rest) {
                Some(true)
            } else if is_blank(*byte) {
                Some(false)
            } else {
                None
            }
        }
    }
}

/// How many bytes at the front are blanks and comments.
#[tactic(auto, using(crate::proofs::Between::gaps))]
pub fn gap(text: &[u8]) -> usize
    ensures value { result ≡ gap_at text.now }
    ensures within { result ≤ length text.now }
{
    let mut in_comment = false;
    for at in 0..text.len() {
        match goes_on(in_comment, behind(text, at)) {
            Some(open) => in_comment = open,
            None => return at,
        }
    }
    text.len()
}
