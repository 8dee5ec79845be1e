// Where the lines of a text end, and where the words of a line stand.
ghost use Rattle.std.specs.Prelude.{◌≡◌, false, ◌≤◌, length, take, drop};
ghost use Rattle.tokens.specs.Token.{before_of, content_of, is_gap, leading_of, from_word};

// What stands before the first b: all of a text that has none.
pub fn before(text: &[u8], b: u8) -> &[u8]
    ensures { result.now ≡ take (before_of b text.now) text.now }
{
    let end = text.iter().position(|&x| x == b).unwrap_or(text.len());
    &text[..end]
}

// What counts of a line: what stands before a comment, without the carriage return at its end.
pub fn content(line: &[u8]) -> &[u8]
    ensures { result.now ≡ take (content_of line.now) line.now }
{
    let text = before(line, b'#');
    if text.len() < line.len() {
        return text;
    }
    line.strip_suffix(b"\r").unwrap_or(line)
}

// Spaces and tabs stand between words.
fn gap(b: u8) -> bool
    ensures { result ≡ is_gap b }
{
    b == b' ' || b == b'\t'
}

// How many bytes of a line are gaps before the first that is none, or the other way round.
fn leading(line: &[u8], gaps: bool) -> usize
    ensures { (result ≤ length line.now) × (result ≡ leading_of gaps line.now) }
{
    line.iter()
        .position(|&b| gap(b) != gaps)
        .unwrap_or(line.len())
}

// The first word of a line, and what follows it. The word is empty where there is none.
pub fn first(line: &[u8]) -> (&[u8], &[u8])
    ensures word { result.0.now ≡ take (leading_of false (from_word line.now)) (from_word line.now) }
    ensures rest { result.1.now ≡ drop (leading_of false (from_word line.now)) (from_word line.now) }
{
    let from_word = &line[leading(line, true)..];
    from_word.split_at(leading(from_word, false))
}
